//! The rules of typing: which scripts are accepted, with which program, and where the first fault of the
//! others is.
//!
//! The definitions in `specs/` say which phrase a tree is, what each row of the table of typing gives for a
//! phrase whose parts are typed, when a script is typed, and what its first fault is. That these are exact is
//! the clause of `typing_is_exact`.
#![tactic(auto)]

mod env;
mod fault;
mod laws;
mod words;

pub use env::{FuncSig, Globals, Item, Local, LocalList, LocalScope, ProcSig, Relations, Typed};
pub use fault::TypeFault;
pub use laws::typing_is_exact;
pub use words::{
    Aggregate, Field, Fold, Joint, Measured, Pair, Prefix, Renamed, Test, WalkKind, Word,
};

//! Guards: host functions that rows of a relation must pass.
//!
//! A guard names a relation, an attribute and a host function that answers a bool. A row of the relation breaks it where
//! the host answers false for that attribute. Where no row of a state breaks a guard, the state after a delta has a row
//! that does exactly where the delta puts one in.
#![tactic(auto)]

mod laws;
mod line;
mod table;
mod walk;

pub use laws::{added_rows_suffice, no_guards_refuse_nothing};
pub use line::break_line;
pub use table::{Break, Guard, GuardTable};

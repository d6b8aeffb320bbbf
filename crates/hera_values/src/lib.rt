//! Values in little place, and the slots that hold them.
//!
//! An int or a bool stands in its place itself, and is read, put and taken without memory, and so is a tuple where a
//! buffer has the room. All else stands on the heap, where several places may have the very same value.
#![tactic(auto)]

mod flats;
mod locals;
mod values;

pub use locals::{Locals, fill};
pub use values::{Datum, Shared, const_of, into_delta, into_rel, into_row, let_go, refill};

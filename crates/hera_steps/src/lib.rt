//! A machine at work, and what each instruction does with it.
//!
//! An instruction that is common on ints, bools and tuples is tried first in the way that takes no memory but for a
//! tuple's buffer; where that refuses, nothing has changed, and the same function goes on with what is left: other
//! values, want of memory, a trap, an end. Nothing here recurses: frames that wait stand in a list. A relation that is
//! an operand is a number and the layer under which it is read.
#![tactic(auto)]

mod events;
mod running;

pub use events::{End, Told};
pub use running::{RelationAnswer, Running};

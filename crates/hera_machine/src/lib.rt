//! The machine: it executes code, one instruction a step or common ones many at once in front of a step, over
//! the base's state after the commits.
//!
//! A commit is told as an event, and its delta is taken by the caller, who stores it. Nothing here
//! recurses: frames that wait stand in a list, so calls may nest as deep as there are turns. A relation
//! that is an operand is a number and the layer under which it is read: no row of it is copied until it is
//! stored, passed, returned, printed, gone over by a loop of statements, or made a delta.
#![tactic(auto)]

mod counts;
mod events;
mod joins;
mod lines;
mod loads;
mod machine;
mod many;
mod pairs;

pub use events::{Event, Status};
pub use hera_steps::End;
pub use lines::{put_commit, put_end};
pub use machine::Machine;

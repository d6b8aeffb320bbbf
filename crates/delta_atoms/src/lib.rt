//! Deltas, and the values of the machine.
//!
//! A delta is seen as `fail`, or as the list of its signed atoms in order of relation and then row.
//! It keeps, for each relation, the rows to put in and the rows to take out, as two packed sets.
#![tactic(auto)]

mod atom;
mod delta;
mod edits;
mod packed_atoms;
mod parts;
mod value;

pub use atom::{AtomMark, AtomRef};
pub use delta::Delta;
pub use value::{Value, copy_value};

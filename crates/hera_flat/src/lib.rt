//! The operations on ints and bools alone.
//!
//! They take their operands by value and need no memory. Where an operation traps, or gives or takes
//! anything else, they answer nothing, and `prim` of `hera_prims` says what it does.
#![tactic(auto)]

mod flat;
mod ops;

pub use flat::Flat;
pub use ops::{flat_one, flat_two};

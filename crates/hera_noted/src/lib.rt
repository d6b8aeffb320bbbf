//! The notes of the code of a program: where each slot is set, beside the shapes that typing gives. With them the
//! code of every sound program is typed code.
#![tactic(auto)]

mod bodies;
mod ends;
mod extents;
mod ways;

pub use bodies::notes;

#[cfg(test)]
mod tests;

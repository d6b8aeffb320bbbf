//! Code files: code with its relations and what it notes of its slots, read.
//!
//! The definitions stand in `specs/`: `Printing` has the bytes of each part and of a whole file, `Fitting` which
//! values have bytes, `Reading` what is read from bytes and where they break a rule, and `Files` what a file tells.
#![tactic(auto)]

mod bodies;
mod fields;
mod file;
mod instrs;
mod ops;
mod parts;
mod schemas;
mod stop;

pub use file::{CodeFault, CodeFile, read_code};

//! The reader of tokens from the left, and the expressions of a script.
//!
//! Each call says which parts of the grammar it has read, with which outline, whatever follows; or that
//! the next token cannot stand there, and how far the reading got.
#![tactic(auto)]

mod exprs;
mod forms;
mod lists;
mod parser;
pub mod terminals;

pub use parser::{Items, Parser, Stop, joined, pushed};

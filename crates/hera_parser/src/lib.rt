//! The parser: the syntax tree of a list of tokens, or the first token that cannot stand where it is.
#![tactic(auto)]

mod decls;
mod forms;
pub mod laws;
mod program;
mod reading;
mod simple;
mod stmts;
mod terminals;

pub use reading::{ParseFault, parse};

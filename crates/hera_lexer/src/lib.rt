//! The lexer: the tokens of a script, or the exact place where there are none.
#![tactic(auto)]

mod keyword;
mod read;
mod scan;
mod script;

pub use script::{LexFault, lex, one_answer};

//! The forms of the command line.
#![tactic(auto)]

mod command;
mod form;
mod words;

pub use command::Command;
pub use words::{files_of, folder_of, read_words, relation_of};

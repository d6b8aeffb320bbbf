//! The commands of the program `hera`, from its words and sources to what it emits and its status.
#![tactic(auto)]

mod catalogue;
mod coding;
mod commands;
mod drill;
mod dumping;
mod folders;
mod guard;
mod run;
mod script;
mod sources;
mod top;
mod transfers;
mod weaves;

pub use hera_words::{Command, files_of, folder_of};
pub use top::hera;

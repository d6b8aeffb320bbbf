//! Lines `R.a: f;`, each of which asks that rows of a relation pass a host function with an attribute: read from tokens,
//! and the guards that their names mean over a catalogue and a table of hosts.
#![tactic(auto)]

mod lines;
mod naming;
mod reader;

pub use lines::{GuardLine, GuardLines, LineFault, Mention, read_lines};
pub use naming::{NameFault, guards_of};

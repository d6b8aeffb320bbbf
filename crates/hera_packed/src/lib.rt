//! Code files of programs: what is written of an accepted script, what is read and verified before it is run, and the
//! law that a code file of a program does what the program means.
#![tactic(auto)]

mod laws;
mod opening;
mod packing;
mod standing;

pub use laws::{a_file_comes_to_one_outcome, a_packed_program_does_what_it_means};
pub use opening::{CODE_LIMIT, OpenFault, open_code};
pub use packing::pack_script;

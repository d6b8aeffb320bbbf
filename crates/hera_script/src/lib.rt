//! From a script's bytes to its program, which is sound, or to why the script is refused. A text has one script,
//! and a script one program.
#![tactic(auto)]

mod accepted;
mod cause;
mod laws;
mod program;

pub use accepted::{a_script_has_one_program, accepted_programs_are_sound};
pub use cause::Cause;
pub use laws::a_script_has_one_answer;
pub use program::{ScriptFault, read_program, read_script};

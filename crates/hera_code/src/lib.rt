//! The code of programs: its instructions, what each of them does, and how code is listed.
//!
//! The definitions stand in `specs/`: `Scheme` has the code of each phrase and of a whole program,
//! `Machine` what a machine does with an instruction, `Reached` what code comes to after a number of
//! instructions, `Forward` which code jumps forward alone, and `Listing` the text of code.
#![tactic(auto)]

mod instrs;
mod lister;

pub use instrs::{Bodies, BodyInfo, Code, Instr, Instrs};
pub use lister::{is_listable, listing};

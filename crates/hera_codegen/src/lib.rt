//! The code generator, and the theorem that its code does what a program means.
#![tactic(auto)]

mod correctness;
mod expressions;
mod patches;
mod programs;
mod statements;

pub use correctness::{code_does_what_the_program_means, code_of_programs_is_forward};
pub use programs::generate;

//! The verifier of code: whether code with its notes is typed code, and else the least address up to which nothing
//! meets the rules.
#![tactic(auto)]

mod bodies;
mod calls;
mod flow;
mod laws;
mod reaches;
mod slots;
mod spans;
mod tables;
mod verifier;

pub use laws::{the_least_look_is_the_answer, typed_code_is_never_rejected, verified_code_is_safe};
pub use verifier::{VerifyFault, verify};

//! What follows from the rules of typing: typed programs are sound, with the types that typing finds, and a tree's
//! outline tells its script.
//!
//! There is no code here, but three laws: functions that do nothing, whose clauses are the laws.
#![tactic(auto)]

mod laws;

pub use laws::{outlines_tell_scripts, typed_programs_are_shaped, typed_programs_are_sound};

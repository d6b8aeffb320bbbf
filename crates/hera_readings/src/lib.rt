//! Whatever is read has an outcome: a text is cut into tokens or has a place without one, tokens are a tree's text
//! or have a place of a fault, and a first fault of types has a place.
//!
//! There is no code here, but laws: functions that do nothing, whose clauses are the laws.
#![tactic(auto)]

mod laws;

pub use laws::{faults_have_places, some_tokens, some_tree};

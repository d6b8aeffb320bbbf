//! The laws of what files hold.
#![tactic(auto)]

pub mod laws;

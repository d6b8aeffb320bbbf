//! The laws of what a call of `hera` comes to: one outcome, none left out, and all of it where nothing fails. And the sessions
//! of a weave are serial.
#![tactic(auto)]

pub mod laws;

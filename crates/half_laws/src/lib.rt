//! The laws of halves: what is printed is read, so a list of bytes is a half with at most one catalogue
//! and state, and what is damaged is no half.
#![tactic(auto)]

pub mod laws;

//! Trials of the verifier over small code files.
#![tactic(auto)]

#[cfg(test)]
mod verified;

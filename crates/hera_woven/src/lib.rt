//! Programs woven over a folder: they run as sessions, an instruction at a time in the order that a number tells, and what
//! they store and print is carried out as they close.
#![tactic(auto)]

mod binding;
mod folder;
mod keeping;
pub mod laws;
mod weaving;

pub use folder::weave_in_folder;

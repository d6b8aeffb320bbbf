//! What the global names of a script mean: its relations, and the signatures of its funcs and procs.
#![tactic(auto)]

mod globals;
mod param_list;
mod relations;
mod signatures;

pub use globals::globals_of;

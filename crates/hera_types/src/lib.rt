//! Types of programs: which trees are accepted, with which program, and where the first fault of the others is.
#![tactic(auto)]

mod blocks;
mod bodies;
mod scripts;
mod statements;

pub use hera_rules::TypeFault;
pub use hera_types_globals::globals_of;
pub use scripts::elaborate;

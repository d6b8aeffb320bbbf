//! What the rules of typing check of the operators of the relational algebra: `project`, `rename`, `group`, `union`,
//! `minus`, `inter` and `join`, a function for each, over the types and cores of their parts.
//!
//! It answers the type and core that the rule gives, or the fault that it gives; or want of memory.
#![tactic(auto)]

mod groups;
mod renames;
mod set_operators;

pub use groups::check_group;
pub use renames::check_rename;
pub use set_operators::{check_pair, check_project};

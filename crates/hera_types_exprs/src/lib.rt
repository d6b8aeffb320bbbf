//! Types of expressions: an expression's type and core, or its first fault.
#![tactic(auto)]

mod exprs;
mod forms;
mod waiting;

pub use exprs::{args, expr};
pub use waiting::Waiting;

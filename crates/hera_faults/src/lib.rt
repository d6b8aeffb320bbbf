//! What follows from the rules of typing for phrases that break several of them: the fault that is
//! reported is the least.
//!
//! There is no code here, but laws: functions that do nothing, whose clauses are the laws.
#![tactic(auto)]

mod laws;

pub use laws::{
    group_tells_the_least, join_tells_the_least, perform_tells_the_least, project_tells_the_least,
    rename_tells_the_least, tuple_tells_the_least,
};

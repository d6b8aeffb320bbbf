//! Runs over a folder under guards: no commit is stored behind which a row breaks one of them.
#![tactic(auto)]

mod folder;
mod keeper;
mod laws;
mod opening;
mod rules;
mod script;

pub use folder::guard_in_folder;
pub use keeper::GuardedFolder;
pub use laws::{rules_have_one_answer, without_lines_it_is_the_run};
pub use opening::open_under;
pub use rules::Rules;
pub use script::read_rules;

//! Lists of operands and of open walks that share their ends, over forms in which lists of kinds are numbers.
#![tactic(auto)]

mod entries;
mod forms;
mod lists;
mod stacks;

pub use forms::{
    FlatForm, FlatSeen, Kinds, form_of, group_kinds, join_kinds, kind_at, kinds_of, no_kinds,
    project_kinds, same_form,
};
pub use stacks::{Node, Stacks};

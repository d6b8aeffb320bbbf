//! What the rules of typing check of each form of phrase and statement but the operators of the relational algebra: one
//! function for each form, over the types and cores of its parts.
//!
//! It answers the type and core that the rule gives, or the fault that it gives; or want of memory.
#![tactic(auto)]

mod calls;
mod chain_cores;
mod chains;
mod operands;
mod statements;
mod tuples;
mod types;

pub use calls::{check_call, take_kinds, take_params};
pub use chain_cores::chain_of;
pub use chains::Chain;
pub use operands::{
    bool_shape, check_bulk, check_field, check_fold, check_joint, check_part, check_prefix,
    check_test, check_variable, check_walk, delta_shape,
};
pub use statements::{
    check_apply, check_assert, check_assign, check_cond, check_declare, check_effect,
    check_perform, check_print, check_return, check_return_value,
};
pub use tuples::{check_atom, check_atoms, check_line, check_lines, check_row};
pub use types::{check_fields, check_schema, check_type};

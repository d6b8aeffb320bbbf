//! Which operands fit each operation, and the operands themselves: their number, their parts, and the tests of rows,
//! shapes and deltas.
//!
//! None of the tests takes memory. Relations may be any sorted sets.
#![tactic(auto)]

mod args;
mod matching;
mod ops;
mod places;
mod relational;
mod shapes;
mod values;
mod wants;

pub use args::Args;
pub use matching::fits;
pub use ops::{arity, takes_relations};
pub use places::is_good_op;
pub use relational::fits_rel;
pub use shapes::{has_shape, is_delta_of};
pub use values::{
    has_row_at, int, int_at, is_fail_at, row_at, rows_len_at, scalar_at, truth, truth_at,
};

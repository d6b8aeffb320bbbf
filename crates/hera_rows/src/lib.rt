//! Rows, and packed, strictly ascending sets of rows.
//!
//! A row is a byte string. Every relation is a strictly ascending list of rows, and [`Sorted`] is what
//! such lists have in common, however they are kept: the next row past a bound, and whether a row is
//! there.
#![tactic(auto)]

mod blocks;
mod bounds;
mod marks;
mod packing;
mod row_buf;
mod row_set;
mod single;
mod sorted;
mod stacks;
mod walks;

pub use marks::{RowMark, Side, Spot};
pub use row_buf::RowBuf;
pub use row_set::RowSet;
pub use sorted::{ROWS_LIMIT, Sorted};
pub use stacks::Near;
pub use walks::{collect, same_rows};

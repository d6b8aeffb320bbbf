//! Counts, sums, least and greatest fields, and groups of any strictly ascending lists of rows.
#![tactic(auto)]

mod behind;
mod counting;
mod ends;
mod extremes;
mod fields;
mod groups;
mod sums;

pub use counting::count;
pub use ends::AggEnd;
pub use extremes::{greatest, least};
pub use groups::group;
pub use sums::sum;

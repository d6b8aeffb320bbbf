//! The set operations and projection, over any strictly ascending lists of rows.
//!
//! Each operation walks its operands by their next row past a bound, so that any sorted set is read
//! where it stands.
#![tactic(auto)]

mod fronts;
mod order;
mod pieces;
mod projection;
mod sets;

pub use fronts::{Begun, begun_in};
pub use pieces::piece;
pub use projection::project;
pub use sets::{Both, Common, Without, inter, minus, same_rows, union};

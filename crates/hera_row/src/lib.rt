//! Rows of tuples, and the catalogue of relations.
//!
//! The row of a tuple is the bytes of its fields, one behind another: an int is 8 bytes, the highest
//! first, of the int plus 2^63; a bool is one byte, 0 or 1; a text is its bytes and one zero byte.
//! Within one schema no row is a prefix of another, and byte order is tuple order. A row of a schema with
//! which a wider one begins is a row of that one with the added fields' bytes behind it.
#![tactic(auto)]

mod catalogue;
mod encoding;
mod ints;
mod names;
mod pieces;
mod reading;
mod scalars;
mod widening;

pub use catalogue::{Catalogue, CatalogueFault};
pub use encoding::{encode, have_kinds};
pub use ints::{shifted, unshifted};
pub use names::{has_names, is_name};
pub use pieces::{piece_len, zero_at};
pub use reading::{check_row, field, field_of_row, row_len};
pub use scalars::{is_before, is_kind};
pub use widening::{a_widened_relation_is_found_by_number, is_prefix, widen_row};

//! The natural join of any two sorted sets.
//!
//! A row of the join is a left row and behind it the fields that the right row has more, for each two
//! rows that are equal in the attributes common to both. The fields of a left row at the leading
//! attributes of the right, as far as the left has these, are sought in the right set; only the rows
//! that begin with them are tried.
#![tactic(auto)]

mod beside;
mod joining;
mod pairing;

pub use joining::join;

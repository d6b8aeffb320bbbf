//! What a set of rows is: a strictly ascending list of byte strings.
//!
//! The definitions stand in `specs/`: byte order and sameness of rows, ascending lists, membership,
//! the list of the members of a list, and union, difference and intersection. The lemmas stand in
//! `proofs/`. [`byte_order`], [`is_same`] and [`is_below`] compare two byte strings, for all crates above. The other
//! functions have no effect: each is a law, that its clause states.
#![tactic(auto)]

mod compare;
mod laws;

pub use compare::{byte_order, is_below, is_same};
pub use laws::{
    first_past_is_the_least, members_are_the_set, normal_is_ascending, operations_by_members,
};

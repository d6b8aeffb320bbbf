//! The operations on values: what each of them gives of operands that fit.
//!
//! Each operation is a function of its own, which reads its operands where they stand. What an operation gives is the
//! definition's value or trap. Those on relations alone read any sorted sets.
#![tactic(auto)]

mod aggs;
mod compare;
mod deltas;
mod end;
mod ints;
mod prims;
mod related;
mod rows;
mod sets;

pub use end::PrimEnd;
pub use prims::prim;
pub use related::{prim_in, prim_rel};

//! The shapes of a typed script's bodies: of each slot, of what the walks into slots gather, and of results; and the
//! notes of its code that have these shapes.
#![tactic(auto)]

mod acts;
mod bodies;
mod noted;
mod phrases;
mod typed;

pub use bodies::shapes;
pub use noted::script_notes;

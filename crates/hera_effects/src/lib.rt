//! What each instruction makes of what is known.
#![tactic(auto)]

mod cuts;
mod effects;
mod moves;
mod placing;
mod plain;
mod prims;
mod spots;
mod walks;

pub use effects::{effect, gathered_at};
pub use placing::{gathers_behind, is_placed};
pub use plain::Around;
pub use spots::{Spot, Ways};

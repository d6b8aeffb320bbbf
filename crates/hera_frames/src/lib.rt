//! Operands, and the frames that wait while a body that they have called runs.
//!
//! An operand is a value, or names a relation under a layer in place of having its rows; the layer stays as long as it
//! is named. Operands and waiting frames are seen with the newest first, slots in order.
#![tactic(auto)]

mod callers;
mod calling;
mod fitting;
mod flats;
mod frames;
mod operands;
mod settling;
mod slots;

pub use callers::Callers;
pub use fitting::fits_seen;
pub use frames::{Frame, Point};
pub use operands::{Operand, Operands};
pub use settling::{any_named, release, settle_frames, settle_walks};

//! Signed atoms.

use hera_meaning::{RelId, Sign};
use hera_rows::Spot;

/// A signed atom, whose row lies elsewhere: the relation gets the row, or loses it.
#[derive(Clone, Copy)]
pub struct AtomRef<'a> {
    pub sign: Sign,
    pub rel: RelId,
    pub row: &'a [u8],
}

/// About where a walk through a delta's atoms stands: among the rows that its relation puts in, and among those that it
/// takes out. It only saves time: whatever the spots are, the answers are the same.
#[derive(Clone, Copy)]
pub struct AtomMark {
    pub plus: Spot,
    pub minus: Spot,
}

impl AtomMark {
    /// The mark of a walk that begins.
    pub fn start() -> AtomMark {
        AtomMark {
            plus: Spot::start(),
            minus: Spot::start(),
        }
    }
}

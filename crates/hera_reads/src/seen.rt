//! Relations that are operands, seen where they stand.
ghost use Rattle.std.specs.Prelude.{◌≡◌, ◌≤◌, ◌<◌, ◌^◌, length, MatchOption};
ghost use Rattle.hera_reads.specs.Seeing.{rows_seen};

use crate::Sight;
use hera_rows::{ROWS_LIMIT, RowMark, RowSet, Sorted};

/// The rows of a relation that is an operand, of which none is copied.
#[derive(Drop)]
pub enum Seen<'a> {
    /// No rows: the relation is not there.
    Nothing,
    /// The rows of a set.
    Held(&'a RowSet),
    /// The rows of a relation that is named.
    Named(Sight<'a>),
}

impl Seen<'_> {
    /// How many rows there are; none for more than 2^63 - 1. It takes no memory, and of a relation that is named
    /// it looks at no row that no delta names.
    pub fn count(&self) -> Option<u64>
        ensures { MatchOption result (2 ^ 63 ≤ length (rows_seen self.now)) (λ n. (n ≡ length (rows_seen self.now)) × (n < 2 ^ 63)) }
    {
        match self {
            Seen::Nothing => Some(0),
            Seen::Held(rows) => held_count(rows),
            Seen::Named(rows) => rows.count(),
        }
    }
}

/// How many rows a set has; none for more than 2^63 - 1.
fn held_count(rows: &RowSet) -> Option<u64>
    ensures { MatchOption result (2 ^ 63 ≤ length rows.now) (λ n. (n ≡ length rows.now) × (n < 2 ^ 63)) }
{
    let count = rows.len() as u64;
    if count <= ROWS_LIMIT {
        Some(count)
    } else {
        None
    }
}

impl Sorted for Seen<'_> {
    ghost rows = { λ s. rows_seen s };

    fn above<'s>(&'s self, bound: Option<&[u8]>) -> Option<&'s [u8]> {
        match self {
            Seen::Nothing => None,
            Seen::Held(rows) => rows.above(bound),
            Seen::Named(rows) => rows.above(bound),
        }
    }

    fn above_from<'s>(&'s self, bound: Option<&[u8]>, mark: &mut RowMark) -> Option<&'s [u8]> {
        match self {
            Seen::Nothing => None,
            Seen::Held(rows) => rows.above_from(bound, mark),
            Seen::Named(rows) => rows.above_from(bound, mark),
        }
    }

    fn not_below<'s>(&'s self, bound: &'s [u8], mark: &mut RowMark) -> Option<&'s [u8]> {
        match self {
            Seen::Nothing => None,
            Seen::Held(rows) => rows.not_below(bound, mark),
            Seen::Named(rows) => rows.not_below(bound, mark),
        }
    }

    fn has(&self, row: &[u8]) -> bool {
        match self {
            Seen::Nothing => false,
            Seen::Held(rows) => rows.has(row),
            Seen::Named(rows) => rows.has(row),
        }
    }
}

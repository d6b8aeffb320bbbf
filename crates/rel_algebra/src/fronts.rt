//! The rows of a set that begin with given bytes.
ghost use Rattle.std.specs.Prelude.{◌≡◌};
ghost use Rattle.std.specs.Option.{option_copied};
ghost use Rattle.rel_algebra.specs.Fronts.{begins, begun_of, begun_in};

use crate::order::is_past;
use hera_rows::{RowMark, Sorted};
use hera_sets::is_same;

/// The rows that begin with these bytes, seen without a copy. They are sought, not walked to.
#[derive(Drop)]
pub struct Begun<'a, A> {
    pub a: &'a A,
    pub front: &'a [u8],
}

impl<A: Sorted> Sorted for Begun<'_, A> {
    ghost rows = { λ s. begun_of s.front.now (A.rows s.a.now) };

    fn above<'s>(&'s self, bound: Option<&[u8]>) -> Option<&'s [u8]> {
        let mut start = bound;
        if is_past(bound, self.front) {
            if self.a.has(self.front) {
                return Some(self.front);
            }
            start = Some(self.front);
        }
        match self.a.above(start) {
            Some(row) if begins(self.front, row) => Some(row),
            _ => None,
        }
    }

    fn above_from<'s>(&'s self, bound: Option<&[u8]>, mark: &mut RowMark) -> Option<&'s [u8]> {
        if is_past(bound, self.front) {
            return begun_in(self.front, self.a.not_below(self.front, mark));
        }
        begun_in(self.front, self.a.above_from(bound, mark))
    }

    fn has(&self, row: &[u8]) -> bool {
        self.a.has(row) && begins(self.front, row)
    }
}

/// The row, where there is one and it begins with these bytes.
#[inline]
pub fn begun_in<'s>(front: &[u8], row: Option<&'s [u8]>) -> Option<&'s [u8]>
    ensures { option_copied result ≡ begun_in front.now (option_copied row.entry) }
{
    match row {
        Some(r) if begins(front, r) => row,
        _ => None,
    }
}

/// Whether the row begins with these bytes.
#[inline]
fn begins(front: &[u8], row: &[u8]) -> bool
    ensures { result ≡ begins front.now row.now }
{
    is_same(&row[..front.len().min(row.len())], front)
}

//! The set operations, over any two sorted sets.
ghost use Rattle.std.specs.Prelude.{◌≡◌, ◌↔◌, IsTrue, IfOk};
ghost use Rattle.std.specs.Option.{option_copied};
ghost use Rattle.hera_sets.specs.Sets.{union_of, minus_of, inter_of, least_of};

use hera_rows::{RowMark, RowSet, Sorted, collect};
use hera_sets::is_below;
use std::alloc::{AllocError, Global};

/// The rows of two sets, seen as one set without a copy.
#[derive(Drop)]
pub struct Both<'a, A, B> {
    pub a: &'a A,
    pub b: &'a B,
}

/// The lesser of two rows, where a row stands before none.
fn least<'s>(x: Option<&'s [u8]>, y: Option<&'s [u8]>) -> Option<&'s [u8]>
    ensures { option_copied result ≡ least_of (option_copied x.entry) (option_copied y.entry) }
{
    match (x, y) {
        (Some(r), Some(s)) => if is_below(s, r) { Some(s) } else { Some(r) },
        (None, _) => y,
        _ => x,
    }
}

impl<A: Sorted, B: Sorted> Sorted for Both<'_, A, B> {
    ghost rows = { λ s. union_of (A.rows s.a.now) (B.rows s.b.now) };

    fn above<'s>(&'s self, bound: Option<&[u8]>) -> Option<&'s [u8]> {
        least(self.a.above(bound), self.b.above(bound))
    }

    fn above_from<'s>(&'s self, bound: Option<&[u8]>, mark: &mut RowMark) -> Option<&'s [u8]> {
        let mut second = mark.of_second();
        let row = least(
            self.a.above_from(bound, mark),
            self.b.above_from(bound, &mut second),
        );
        mark.second = second.first;
        row
    }

    fn has(&self, row: &[u8]) -> bool {
        self.a.has(row) || self.b.has(row)
    }
}

/// The rows of the first that the second does not hold, seen without a copy.
#[derive(Drop)]
pub struct Without<'a, A, B> {
    pub a: &'a A,
    pub b: &'a B,
}

impl<A: Sorted, B: Sorted> Sorted for Without<'_, A, B> {
    ghost rows = { λ s. minus_of (A.rows s.a.now) (B.rows s.b.now) };

    fn above<'s>(&'s self, bound: Option<&[u8]>) -> Option<&'s [u8]> {
        let mut last = bound;
        while let Some(row) = self.a.above(last) {
            if self.b.has(row) {
                last = Some(row);
            } else {
                return Some(row);
            }
        }
        None
    }

    fn above_from<'s>(&'s self, bound: Option<&[u8]>, mark: &mut RowMark) -> Option<&'s [u8]> {
        let mut last = bound;
        while let Some(row) = self.a.above_from(last, mark) {
            if self.b.has(row) {
                last = Some(row);
            } else {
                return Some(row);
            }
        }
        None
    }

    fn has(&self, row: &[u8]) -> bool {
        !self.b.has(row) && self.a.has(row)
    }
}

/// The rows that both hold, seen without a copy.
#[derive(Drop)]
pub struct Common<'a, A, B> {
    pub a: &'a A,
    pub b: &'a B,
}

impl<A: Sorted, B: Sorted> Sorted for Common<'_, A, B> {
    ghost rows = { λ s. inter_of (A.rows s.a.now) (B.rows s.b.now) };

    fn above<'s>(&'s self, bound: Option<&[u8]>) -> Option<&'s [u8]> {
        let mut last = bound;
        while let Some(row) = self.a.above(last) {
            if self.b.has(row) {
                return Some(row);
            }
            last = Some(row);
        }
        None
    }

    fn above_from<'s>(&'s self, bound: Option<&[u8]>, mark: &mut RowMark) -> Option<&'s [u8]> {
        let mut last = bound;
        while let Some(row) = self.a.above_from(last, mark) {
            if self.b.has(row) {
                return Some(row);
            }
            last = Some(row);
        }
        None
    }

    fn has(&self, row: &[u8]) -> bool {
        self.b.has(row) && self.a.has(row)
    }
}

/// The rows of both, as one set.
pub fn union<A: Sorted, B: Sorted>(alloc: Global, a: &A, b: &B) -> Result<RowSet, AllocError>
    ensures { IfOk result (λ set. set ≡ union_of (A.rows a.now) (B.rows b.now)) }
{
    collect(alloc, &Both { a, b })
}

/// The rows of the first that the second does not hold.
pub fn minus<A: Sorted, B: Sorted>(alloc: Global, a: &A, b: &B) -> Result<RowSet, AllocError>
    ensures { IfOk result (λ set. set ≡ minus_of (A.rows a.now) (B.rows b.now)) }
{
    collect(alloc, &Without { a, b })
}

/// The rows that both hold.
pub fn inter<A: Sorted, B: Sorted>(alloc: Global, a: &A, b: &B) -> Result<RowSet, AllocError>
    ensures { IfOk result (λ set. set ≡ inter_of (A.rows a.now) (B.rows b.now)) }
{
    collect(alloc, &Common { a, b })
}

/// Whether both have the same rows. It takes no memory.
pub fn same_rows<A: Sorted, B: Sorted>(a: &A, b: &B) -> bool
    ensures { IsTrue result ↔ (A.rows a.now ≡ B.rows b.now) }
{
    hera_rows::same_rows(a, b)
}

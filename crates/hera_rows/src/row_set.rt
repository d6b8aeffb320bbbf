//! Sets of rows.
ghost use Rattle.std.specs.Prelude.{◌≡◌, ◌↔◌, IsTrue, [], ◌∷◌, ◌++◌, ◌<◌, length, not, IfOk, OnOk, OnErr, slice_get, Some};
ghost use Rattle.std.specs.List.{find};
ghost use Rattle.std.specs.Option.{option_copied};
ghost use Rattle.hera_rows.specs.Froms.{is_from};
ghost use Rattle.hera_sets.specs.Rows.{is_past, IsAscending, put, holds, without};

use super::blocks::Blocks;
use super::bounds::Bound;
use super::stacks::Near;
use super::{RowBuf, RowMark, Sorted, Spot, same_rows, single};
use std::alloc::{AllocError, Global};
use std::marker::Model;

/// A spot for who has none to tell.
const NOWHERE: Spot = Spot {
    block: usize::MAX,
    row: 0,
};

/// The rows of a set.
#[derive(Drop)]
enum Kept {
    /// None.
    Nothing,
    /// One.
    One(RowBuf),
    /// Those of the blocks, of which all may have been taken out.
    Many(Box<Blocks>),
}

/// A strictly ascending list of rows: none, one in a buffer of its own, or rows in blocks.
///
/// A set into which no row came takes no memory, and one into which one row came no more than a buffer for it. One whose
/// rows were all taken out may keep its blocks.
pub struct RowSet {
    kept: Kept,
    alloc: Global,
}

/// It is a function so that the proofs of whoever lets a set go do not go through its parts.
impl Drop for RowSet {
    fn drop(self) {
        let RowSet { kept: _, alloc: _ } = self;
    }
}

impl Model for RowSet {
    ghost use Rattle.std.specs.Prelude.{List, ℕ};
    ghost use Rattle.hera_rows.specs.Boxed.{rows_kept};

    ghost Value = { List (List ℕ) };

    ghost view = { λ set. rows_kept set.kept };
}

impl RowSet {
    /// The set without rows. It takes no memory.
    pub fn new(alloc: Global) -> RowSet
        ensures { result ≡ [] }
    {
        RowSet {
            kept: Kept::Nothing,
            alloc,
        }
    }

    /// The set of these rows, in a place of their own.
    fn of(alloc: Global, rows: Blocks) -> Result<RowSet, AllocError>
        ensures { IfOk result (λ set. set ≡ rows) }
    {
        Ok(RowSet {
            kept: Kept::Many(Box::new(alloc, rows)?),
            alloc,
        })
    }

    /// The set of one row.
    fn of_one(alloc: Global, one: RowBuf) -> RowSet
        ensures { result ≡ one ∷ [] }
    {
        RowSet {
            kept: Kept::One(one),
            alloc,
        }
    }

    /// How many rows there are.
    #[inline]
    pub fn len(&self) -> usize
        ensures count { result ≡ length self.now }
        ensures ordered { IsAscending self.now }
    {
        match &self.kept {
            Kept::Many(rows) => rows.len(),
            Kept::One(_) => 1,
            Kept::Nothing => 0,
        }
    }

    /// The row at place `i`, counted from 0.
    #[inline]
    pub fn row(&self, i: usize) -> &[u8]
        requires { i < length self.now }
        ensures { slice_get self.now i ≡ Some result.now }
    {
        match &self.kept {
            Kept::Many(rows) => rows.row(i),
            Kept::One(one) => one.bytes(),
            Kept::Nothing => &[],
        }
    }

    /// The first row past the bound, and where it stands. It is looked for behind the spot first.
    #[inline]
    pub fn above_near<'s>(&'s self, bound: Option<&[u8]>, spot: Spot) -> Near<'s>
        ensures next { option_copied result.row ≡ find (is_past (option_copied bound.entry)) self.now }
        ensures ordered { IsAscending self.now }
    {
        match &self.kept {
            Kept::Many(rows) => rows.above_near(bound, spot),
            Kept::One(one) => Near {
                row: single::above(one, bound),
                spot,
            },
            Kept::Nothing => Near { row: None, spot },
        }
    }

    /// The first row that does not stand before the bound, and where it stands. It is looked for beside the spot first.
    pub fn not_below_near<'s>(&'s self, bound: &[u8], spot: Spot) -> Near<'s>
        ensures least { option_copied result.row ≡ find (is_from bound.now) self.now }
        ensures ordered { IsAscending self.now }
    {
        match &self.kept {
            Kept::Many(rows) => rows.not_below_near(bound, spot),
            Kept::One(one) => Near {
                row: single::sought(one, Bound::From(bound)),
                spot,
            },
            Kept::Nothing => Near { row: None, spot },
        }
    }

    /// Takes the row in, and answers whether it is new. Without memory all is as before.
    pub fn insert(&mut self, row: &[u8]) -> Result<bool, AllocError>
        ensures new { IfOk result (λ new. new ≡ not (holds self.old row.now)) }
        ensures ok { OnOk result (self.new ≡ put row.now self.old) }
        ensures err { OnErr result (self.new ≡ self.old) }
    {
        match &mut self.kept {
            Kept::Many(rows) => rows.insert(row),
            Kept::One(one) => {
                let mut rows = single::in_blocks(self.alloc, one)?;
                let new = rows.insert(row)?;
                *self = RowSet::of(self.alloc, rows)?;
                Ok(new)
            }
            Kept::Nothing => {
                self.push_last(row)?;
                Ok(true)
            }
        }
    }

    /// Puts a row behind all others, which is greater than the last. Without memory all is as
    /// before.
    pub fn push_last(&mut self, row: &[u8]) -> Result<(), AllocError>
        requires { IsAscending (self.old ++ row.now ∷ []) }
        ensures ok { OnOk result (self.new ≡ self.old ++ row.now ∷ []) }
        ensures err { OnErr result (self.new ≡ self.old) }
    {
        match &mut self.kept {
            Kept::Many(rows) => rows.push_last(row),
            Kept::One(one) => {
                let mut rows = single::in_blocks(self.alloc, one)?;
                rows.push_last(row)?;
                *self = RowSet::of(self.alloc, rows)?;
                Ok(())
            }
            Kept::Nothing => {
                let one = RowBuf::new(self.alloc, row)?;
                *self = RowSet::of_one(self.alloc, one);
                Ok(())
            }
        }
    }

    /// Takes the row out, and answers whether it was there. It takes no memory.
    pub fn remove(&mut self, row: &[u8]) -> bool
        ensures found { result ≡ holds self.old row.now }
        ensures removed { self.new ≡ without row.now self.old }
    {
        match &mut self.kept {
            Kept::Many(rows) => rows.remove(row),
            Kept::One(one) => {
                let found = single::has(one, row);
                if found {
                    *self = RowSet::new(self.alloc);
                }
                found
            }
            Kept::Nothing => false,
        }
    }

    /// A set of its own with the same rows, packed without gaps.
    pub fn copy(&self) -> Result<RowSet, AllocError>
        ensures { IfOk result (λ copy. copy ≡ self.now) }
    {
        match &self.kept {
            Kept::Many(rows) => RowSet::of(self.alloc, rows.copy()?),
            Kept::One(one) => Ok(RowSet::of_one(self.alloc, one.copy()?)),
            Kept::Nothing => Ok(RowSet::new(self.alloc)),
        }
    }

    /// Whether both have the same rows. It takes no memory.
    pub fn equal(&self, other: &RowSet) -> bool
        ensures { IsTrue result ↔ (self.now ≡ other.now) }
    {
        match (&self.kept, &other.kept) {
            (Kept::Many(rows), Kept::Many(others)) => {
                if rows.equal(others) {
                    return true;
                }
                same_rows(self, other)
            }
            _ => same_rows(self, other),
        }
    }
}

impl Sorted for RowSet {
    ghost rows = { λ set. set };

    fn above<'s>(&'s self, bound: Option<&[u8]>) -> Option<&'s [u8]> {
        self.above_near(bound, NOWHERE).row
    }

    fn above_from<'s>(&'s self, bound: Option<&[u8]>, mark: &mut RowMark) -> Option<&'s [u8]> {
        let near = self.above_near(bound, mark.first.kept);
        mark.first.kept = near.spot;
        near.row
    }

    fn not_below<'s>(&'s self, bound: &'s [u8], mark: &mut RowMark) -> Option<&'s [u8]> {
        let near = self.not_below_near(bound, mark.first.kept);
        mark.first.kept = near.spot;
        near.row
    }

    fn has(&self, row: &[u8]) -> bool {
        match &self.kept {
            Kept::Many(rows) => rows.has(row),
            Kept::One(one) => single::has(one, row),
            Kept::Nothing => false,
        }
    }
}

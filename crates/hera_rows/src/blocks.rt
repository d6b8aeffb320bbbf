//! A strictly ascending list of rows in blocks.
ghost use Rattle.std.specs.Prelude.{◌≡◌, true, [], ◌∷◌, ◌++◌, ◌<◌, length, not, IfOk, OnOk, OnErr, slice_get, Some};
ghost use Rattle.std.specs.List.{find};
ghost use Rattle.std.specs.Option.{option_copied};
ghost use Rattle.hera_rows.specs.Froms.{is_from};
ghost use Rattle.hera_sets.specs.Rows.{is_past, IsAscending, put, holds, without};

use super::packing::Packing;
use super::stacks::Near;
use super::{Spot, stacks};
use std::alloc::{AllocError, Global};
use std::marker::Model;

/// A strictly ascending list of rows in blocks of a bounded number of rows, so that an insertion moves what is in
/// one block alone.
#[derive(Drop)]
pub(crate) struct Blocks {
    blocks: Vec<Packing>,
    /// How many rows stand up to the end of each block.
    ends: Vec<usize>,
}

impl Model for Blocks {
    ghost use Rattle.std.specs.Prelude.{List, ℕ};
    ghost use Rattle.hera_rows.specs.Blocks.{joined, AreStacked};

    ghost Value = { List (List ℕ) };

    ghost view = { λ set. joined set.blocks.items };

    ghost invariant = { λ set. AreStacked set.blocks.items set.ends.items };
}

impl Blocks {
    /// No rows. It takes no memory.
    pub(crate) fn new(alloc: Global) -> Blocks
        ensures { result ≡ [] }
    {
        Blocks {
            blocks: Vec::new(alloc),
            ends: Vec::new(alloc),
        }
    }

    /// How many rows there are.
    #[inline]
    pub(crate) fn len(&self) -> usize
        ensures count { result ≡ length self.now }
        ensures ordered { IsAscending self.now }
    {
        stacks::count(&self.blocks, &self.ends)
    }

    /// The row at place `i`, counted from 0.
    #[inline]
    pub(crate) fn row(&self, i: usize) -> &[u8]
        requires { i < length self.now }
        ensures { slice_get self.now i ≡ Some result.now }
    {
        stacks::row(&self.blocks, &self.ends, i)
    }

    /// The first row past the bound, and where it stands. It is looked for behind the spot first.
    #[inline]
    pub(crate) fn above_near<'s>(&'s self, bound: Option<&[u8]>, spot: Spot) -> Near<'s>
        ensures next { option_copied result.row ≡ find (is_past (option_copied bound.entry)) self.now }
        ensures ordered { IsAscending self.now }
    {
        stacks::above_near(&self.blocks, bound, spot)
    }

    /// The first row that does not stand before the bound, and where it stands. It is looked for beside the spot first.
    pub(crate) fn not_below_near<'s>(&'s self, bound: &[u8], spot: Spot) -> Near<'s>
        ensures least { option_copied result.row ≡ find (is_from bound.now) self.now }
        ensures ordered { IsAscending self.now }
    {
        stacks::not_below_near(&self.blocks, bound, spot)
    }

    /// Takes the row in, and answers whether it is new. Without memory all is as before.
    #[inline]
    pub(crate) fn insert(&mut self, row: &[u8]) -> Result<bool, AllocError>
        ensures new { IfOk result (λ new. new ≡ not (holds self.old row.now)) }
        ensures ok { OnOk result (self.new ≡ put row.now self.old) }
        ensures err { OnErr result (self.new ≡ self.old) }
    {
        let alloc = *self.ends.allocator();
        stacks::insert(&mut self.blocks, &mut self.ends, alloc, row)
    }

    /// Puts a row behind all others, which is greater than the last. Without memory all is as
    /// before.
    pub(crate) fn push_last(&mut self, row: &[u8]) -> Result<(), AllocError>
        requires { IsAscending (self.old ++ row.now ∷ []) }
        ensures ok { OnOk result (self.new ≡ self.old ++ row.now ∷ []) }
        ensures err { OnErr result (self.new ≡ self.old) }
    {
        let alloc = *self.ends.allocator();
        stacks::push_last(&mut self.blocks, &mut self.ends, alloc, row)
    }

    /// Takes the row out, and answers whether it was there. It takes no memory.
    pub(crate) fn remove(&mut self, row: &[u8]) -> bool
        ensures found { result ≡ holds self.old row.now }
        ensures removed { self.new ≡ without row.now self.old }
    {
        stacks::remove(&mut self.blocks, &mut self.ends, row)
    }

    /// A set of its own with the same rows, each block packed without gaps.
    pub(crate) fn copy(&self) -> Result<Blocks, AllocError>
        ensures { IfOk result (λ copy. copy ≡ self.now) }
    {
        let alloc = *self.ends.allocator();
        Ok(Blocks {
            blocks: stacks::copy(alloc, &self.blocks)?,
            ends: Vec::from_slice(alloc, &self.ends)?,
        })
    }

    /// Whether both have the same rows in the same blocks. It takes no memory.
    pub(crate) fn equal(&self, other: &Blocks) -> bool
        ensures { result ≡ true → self.now ≡ other.now }
    {
        stacks::equal(&self.blocks, &other.blocks)
    }

    /// Whether the row is one of them.
    pub(crate) fn has(&self, row: &[u8]) -> bool
        ensures found { result ≡ holds self.now row.now }
        ensures ordered { IsAscending self.now }
    {
        stacks::has(&self.blocks, row)
    }
}

//! Lists that share their ends, by the places of the entries that stand first in them.
ghost use Rattle.std.specs.Prelude.{◌≡◌, ◌<◌, ◌+◌, ◌^◌, ◌↔◌, ◌∷◌, ◌++◌, [], ℕ, suc, None, Some, IsTrue, IfOk, length, slice_get};
ghost use Rattle.std.specs.BTreeMap.{get};
ghost use Rattle.hera_stacks.specs.declared.lists.Cell.{Cell as PlainCell};
ghost use Rattle.hera_stacks.specs.Kept.{order, cell_at, list_of, IsPlaced, Adds};

use std::alloc::{AllocError, Global};
use std::collections::BTreeMap;

/// A list with items: the place of the entry that stands first, and the number of the rest.
#[derive(Clone, Copy)]
pub(crate) struct Cell {
    pub entry: u32,
    pub below: u32,
}

/// Lists by their numbers, from 1 on; 0 is the one without items. Nearly each list is the rest of one other at most: the first of
/// them has its number in `tops`, where 0 says that there is none yet. The further ones are found by entry and rest.
#[derive(Drop)]
pub(crate) struct Lists {
    pub cells: Vec<Cell>,
    pub tops: Vec<u32>,
    pub others: BTreeMap<(u32, u32), u32>,
}

/// Whether both are the same list.
fn same_cell(a: Cell, b: Cell) -> bool
    ensures { IsTrue result ↔ (a ≡ b) }
{
    a.entry == b.entry && a.below == b.below
}

/// The number of the list behind so many others.
fn next_number(count: usize) -> Result<u32, AllocError>
    ensures { IfOk result (λ list. list ≡ count + 1) }
{
    if count < 4_294_967_295 {
        Ok(count as u32 + 1)
    } else {
        Err(AllocError)
    }
}

impl Lists {
    /// No list but the one without items, with room for so many.
    pub(crate) fn with_capacity(alloc: Global, lists: usize) -> Result<Lists, AllocError>
        ensures cells { IfOk result (λ lists. lists.cells.items ≡ []) }
        ensures placed { IfOk result (λ lists. IsPlaced lists) }
    {
        let cells = Vec::with_capacity(alloc, lists)?;
        let tops = Vec::with_capacity(alloc, lists.saturating_add(1))?;
        Ok(Lists {
            cells,
            tops,
            others: BTreeMap::new(alloc),
        })
    }

    /// The cell of a list, where it has items.
    pub(crate) fn get(&self, list: u32) -> Option<Cell>
        ensures { result ≡ cell_at self.now.cells.items list }
    {
        if list == 0 {
            return None;
        }
        self.cells.get(list as usize - 1).copied()
    }

    /// The number, where it is that of the list.
    fn found(&self, list: u32, cell: Cell) -> Result<u32, AllocError>
        ensures { IfOk result (λ n. cell_at self.now.cells.items n ≡ Some cell) }
    {
        let Some(own) = self.get(list) else {
            return Err(AllocError);
        };
        if same_cell(own, cell) {
            Ok(list)
        } else {
            Err(AllocError)
        }
    }

    /// Takes down that no list is on the newest one.
    fn begin_newest(&mut self) -> Result<(), AllocError>
        requires placed { IsPlaced self.old }
        ensures placed { IsPlaced self.new }
        ensures same { self.new.cells.items ≡ self.old.cells.items }
    {
        if self.tops.len() <= self.cells.len() {
            self.tops.push(0)?;
        }
        Ok(())
    }

    /// Puts a list behind the others, the first one on its rest.
    fn add_first(&mut self, cell: Cell) -> Result<u32, AllocError>
        requires placed { IsPlaced self.old }
        requires bare { slice_get self.old.tops.items cell.below ≡ Some 0 }
        ensures placed { IsPlaced self.new }
        ensures adds { Adds self.old.cells.items self.new.cells.items cell }
        ensures number { IfOk result (λ list. cell_at self.new.cells.items list ≡ Some cell) }
    {
        let list = next_number(self.cells.len())?;
        self.cells.push(cell)?;
        self.tops[cell.below as usize] = list;
        Ok(list)
    }

    /// Puts a list behind the others that is not there, where another is on its rest.
    fn add_other(&mut self, cell: Cell) -> Result<u32, AllocError>
        requires placed { IsPlaced self.old }
        requires top { (t : ℕ) × (first : PlainCell) × (slice_get self.old.tops.items cell.below ≡ Some (suc t)) × (slice_get self.old.cells.items t ≡ Some first) × (first ≡ cell → ⊥) }
        requires absent { get order self.old.others (cell.entry, cell.below) ≡ None }
        ensures placed { IsPlaced self.new }
        ensures adds { Adds self.old.cells.items self.new.cells.items cell }
        ensures number { IfOk result (λ list. cell_at self.new.cells.items list ≡ Some cell) }
    {
        let list = next_number(self.cells.len())?;
        self.others.insert((cell.entry, cell.below), list)?;
        self.cells.push(cell)?;
        Ok(list)
    }

    /// The number of a list that is not the first one on its rest.
    fn other(&mut self, cell: Cell) -> Result<u32, AllocError>
        requires placed { IsPlaced self.old }
        requires top { (t : ℕ) × (first : PlainCell) × (slice_get self.old.tops.items cell.below ≡ Some (suc t)) × (slice_get self.old.cells.items t ≡ Some first) × (first ≡ cell → ⊥) }
        ensures placed { IsPlaced self.new }
        ensures adds { Adds self.old.cells.items self.new.cells.items cell }
        ensures number { IfOk result (λ list. cell_at self.new.cells.items list ≡ Some cell) }
    {
        match self.others.get(&(cell.entry, cell.below)) {
            Some(list) => self.found(*list, cell),
            None => self.add_other(cell),
        }
    }

    /// The number of a list, where another number is that of the first one on its rest.
    fn beside(&mut self, cell: Cell, top: u32) -> Result<u32, AllocError>
        requires placed { IsPlaced self.old }
        requires top { slice_get self.old.tops.items cell.below ≡ Some top }
        ensures placed { IsPlaced self.new }
        ensures adds { Adds self.old.cells.items self.new.cells.items cell }
        ensures number { IfOk result (λ list. cell_at self.new.cells.items list ≡ Some cell) }
    {
        let Some(first) = self.get(top) else {
            return Err(AllocError);
        };
        if same_cell(first, cell) {
            return Ok(top);
        }
        self.other(cell)
    }

    /// The number of a list. Other lists keep their numbers.
    pub(crate) fn with(&mut self, cell: Cell) -> Result<u32, AllocError>
        requires placed { IsPlaced self.old }
        ensures placed { IsPlaced self.new }
        ensures adds { Adds self.old.cells.items self.new.cells.items cell }
        ensures number { IfOk result (λ list. cell_at self.new.cells.items list ≡ Some cell) }
    {
        self.begin_newest()?;
        let Some(top) = self.tops.get(cell.below as usize).copied() else {
            return Err(AllocError);
        };
        if top == 0 {
            return self.add_first(cell);
        }
        self.beside(cell, top)
    }
}

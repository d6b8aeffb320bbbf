//! Lists of operands and of open walks that share their ends.
ghost use Rattle.std.specs.Prelude.{◌≡◌, [], Some, IfOk};
ghost use Rattle.hera_stacks.specs.Stacked.{node_at, IsShared, Grows};
ghost use Rattle.hera_stacks.specs.Kept.{nodes_of, AreKept};

use crate::entries::{Entries, Entry};
use crate::forms::{FlatSeen, Kinds};
use crate::lists::{Cell, Lists};
use std::alloc::{AllocError, Global};
use std::marker::Model;

/// The first item of a list and the number of the rest: an operand, which gathers nothing, or an open walk.
#[derive(Clone, Copy)]
pub struct Node {
    pub seen: FlatSeen,
    pub gathers: Kinds,
    pub below: u32,
}

/// Lists of operands and of walks, by their numbers. Equal lists have equal numbers; 0 is the one without items.
#[derive(Drop)]
pub struct Stacks {
    entries: Entries,
    lists: Lists,
}

impl Model for Stacks {
    ghost use Rattle.std.specs.Prelude.{List};
    ghost use Rattle.hera_stacks.specs.declared.stacks.Node.{Node};

    ghost Value = { List Node };

    ghost use Rattle.hera_stacks.specs.Kept.{nodes_of, AreKept};

    ghost view = { λ s. nodes_of s.entries.all.items s.lists.cells.items };

    ghost invariant = { λ s. AreKept s.entries s.lists };
}

/// The first item of a list and the number of the rest.
fn first_of(entries: &Entries, lists: &Lists, list: u32) -> Option<Node>
    requires { AreKept entries.now lists.now }
    ensures { result ≡ node_at (nodes_of entries.now.all.items lists.now.cells.items) list }
{
    let Some(cell) = lists.get(list) else {
        return None;
    };
    let entry = entries.get(cell.entry);
    Some(Node {
        seen: entry.seen,
        gathers: entry.gathers,
        below: cell.below,
    })
}

/// The number of the list with this first item.
fn number_of(entries: &mut Entries, lists: &mut Lists, node: Node) -> Result<u32, AllocError>
    requires kept { AreKept entries.old lists.old }
    ensures kept { AreKept entries.new lists.new }
    ensures grows { Grows (nodes_of entries.old.all.items lists.old.cells.items) (nodes_of entries.new.all.items lists.new.cells.items) }
    ensures number { IfOk result (λ list. node_at (nodes_of entries.new.all.items lists.new.cells.items) list ≡ Some node) }
{
    let entry = entries.place_of(Entry {
        seen: node.seen,
        gathers: node.gathers,
    })?;
    lists.with(Cell {
        entry,
        below: node.below,
    })
}

impl Stacks {
    /// No list but the one without items, with room for so many, of 12 bytes each.
    pub fn with_capacity(alloc: Global, lists: usize) -> Result<Stacks, AllocError>
        ensures { IfOk result (λ stacks. stacks ≡ []) }
    {
        let lists = Lists::with_capacity(alloc, lists)?;
        Ok(Stacks {
            entries: Entries::new(alloc),
            lists,
        })
    }

    /// Tells that no two numbers are of the same list.
    pub fn tell_shared(&self)
        ensures { IsShared self.now }
    {
        let _lists = &self.lists;
    }

    /// The first item of a list and the number of the rest, where it has an item.
    pub fn first(&self, list: u32) -> Option<Node>
        ensures { result ≡ node_at self.now list }
    {
        first_of(&self.entries, &self.lists, list)
    }

    /// The number of the list with this first item. Other lists keep their numbers.
    pub fn with(&mut self, node: Node) -> Result<u32, AllocError>
        ensures grows { Grows self.old self.new }
        ensures number { IfOk result (λ list. node_at self.new list ≡ Some node) }
    {
        number_of(&mut self.entries, &mut self.lists, node)
    }
}

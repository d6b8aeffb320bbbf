//! Slots.
ghost use Rattle.std.specs.Prelude.{◌≡◌, ◌≤◌, ◌+◌, ◌++◌, true, false, [], pos, Some, map, replicate, slice_get, IfOk, IfSome, OnOk};
ghost use Rattle.std.specs.Vec.{vec_len, vec_capacity};
ghost use Rattle.std.specs.Option.{option_map, is_some};
ghost use Rattle.hera_meaning.specs.Values.{tuple};
ghost use Rattle.hera_meaning.specs.Worlds.{set_local, locals_from};
ghost use Rattle.hera_values.specs.Little.{plain_of};

use crate::values::{Datum, let_go};
use std::alloc::{AllocError, Global};
use std::marker::Model;
use std::mem::replace;

/// Puts so many ints 0 behind the values. It takes no memory.
#[inline]
pub fn fill(items: &mut Vec<Datum>, count: usize)
    requires { vec_len items.old + count ≤ vec_capacity items.old }
    ensures items { items.new.items ≡ items.old.items ++ replicate count (Datum.Int (pos 0)) }
    ensures len { vec_len items.new ≡ vec_len items.old + count }
    ensures capacity { vec_capacity items.new ≡ vec_capacity items.old }
{
    for _ in 0..count {
        items.push_reserved(Datum::Int(0));
    }
}

/// The slots of a body.
#[derive(Drop)]
pub struct Locals {
    /// Their values, the first slot's first.
    pub items: Vec<Datum>,
}

impl Model for Locals {
    ghost use Rattle.std.specs.Prelude.{List, map};
    ghost use Rattle.hera_meaning.specs.Values as plain;
    ghost use Rattle.hera_values.specs.Little.{plain_of};

    ghost Value = { List plain.Value };

    ghost view = { λ s. map plain_of s.items.items };
}

impl Locals {
    /// A slot's value once more, if the slot is there. Of a relation or a delta nothing is copied.
    #[tactic(auto, using(crate::proofs::Slots::copies))]
    pub fn again(&self, alloc: Global, i: usize) -> Result<Option<Datum>, AllocError>
        ensures { IfOk result (λ v. option_map plain_of v ≡ slice_get self.now i) }
    {
        match self.items.get(i) {
            Some(v) => Ok(Some(v.again(alloc)?)),
            None => Ok(None),
        }
    }

    /// Whether the slot is there.
    #[tactic(auto, using(crate::proofs::Slots::slots))]
    pub fn has(&self, i: usize) -> bool
        ensures { result ≡ is_some (slice_get self.now i) }
    {
        i < self.items.len()
    }

    /// Puts a value into a slot, if the slot is there. It takes no memory.
    #[tactic(auto, using(crate::proofs::Slots::slots))]
    pub fn put(&mut self, i: usize, v: Datum) -> bool
        ensures there { result ≡ is_some (slice_get self.old i) }
        ensures put { self.new ≡ set_local self.old i (plain_of v) }
    {
        if i < self.items.len() {
            let_go(replace(&mut self.items[i], v));
            true
        } else {
            let_go(v);
            false
        }
    }

    /// Puts a tuple into a slot, if the slot is there. Where that has one, its buffer takes the row.
    #[tactic(auto, using(crate::proofs::Slots::slots))]
    pub fn put_tuple(&mut self, alloc: Global, i: usize, row: &[u8]) -> Result<bool, AllocError>
        ensures there { IfOk result (λ there. there ≡ is_some (slice_get self.old i)) }
        ensures put { OnOk result (self.new ≡ set_local self.old i (tuple row.now)) }
    {
        if i < self.items.len() {
            self.items[i].put_tuple(alloc, row)?;
            Ok(true)
        } else {
            Ok(false)
        }
    }

    /// Puts a tuple into a slot that has one, if its buffer has the room. It takes no memory.
    #[inline]
    #[tactic(auto, using(crate::proofs::Slots::fits))]
    pub fn fit_tuple(&mut self, i: usize, row: &[u8]) -> bool
        ensures there { result ≡ true → is_some (slice_get self.old i) ≡ true }
        ensures put { result ≡ true → self.new ≡ set_local self.old i (tuple row.now) }
        ensures kept { result ≡ false → self.new ≡ self.old }
    {
        if i < self.items.len() {
            self.items[i].fit_tuple(row)
        } else {
            false
        }
    }

    /// The row in a slot, where that has a tuple in a buffer of its own.
    #[inline]
    #[tactic(auto, using(crate::proofs::Slots::copies))]
    pub fn row_at(&self, i: usize) -> Option<&[u8]>
        ensures { IfSome result (λ row. slice_get self.now i ≡ Some (tuple row.now)) }
    {
        match self.items.get(i) {
            None => None,
            Some(v) => v.tuple(),
        }
    }

    /// No slots. It takes no memory.
    pub fn new(alloc: Global) -> Locals
        ensures { result ≡ [] }
    {
        Locals {
            items: Vec::new(alloc),
        }
    }

    /// The slots of a body without parameters as it starts: the int 0 in each one.
    pub fn start(alloc: Global, slots: u32) -> Result<Locals, AllocError>
        ensures { IfOk result (λ locals. locals ≡ locals_from slots []) }
    {
        let mut items = Vec::with_capacity(alloc, slots as usize)?;
        fill(&mut items, slots as usize);
        Ok(Locals { items })
    }

    /// Drops all slots. Their memory stays.
    #[inline]
    pub fn clear(&mut self)
        ensures { self.new ≡ [] }
    {
        self.items.truncate(0);
    }
}

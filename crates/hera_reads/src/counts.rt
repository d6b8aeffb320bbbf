//! How many rows relations have after the pending delta, where that is known.
ghost use Rattle.std.specs.Prelude.{◌≡◌, ◌<◌, ℕ, Some, length, slice_get, slice_set, IfOk, IfSome};
ghost use Rattle.hera_meaning.specs.Deltas.{State, apply_of};
ghost use Rattle.hera_reads.specs.Branched.{pending_of, seen_at};
ghost use Rattle.hera_reads.specs.Counted.{AreCounts, IsCount};

use crate::Changes;
use delta_atoms::Delta;
use hera_meaning::RelId;
use hera_rows::ROWS_LIMIT;
use std::alloc::{AllocError, Global};
use std::marker::Model;
use when_overlay::{Stored, change_of};

/// How many rows each relation has in a state, where that is known. They are seen by the relations' numbers.
#[derive(Drop)]
pub struct Counts {
    numbers: Vec<Option<u64>>,
}

impl Model for Counts {
    ghost use Rattle.std.specs.Prelude.{List, ℕ, Option};

    ghost Value = { List (Option ℕ) };

    ghost view = { λ c. c.numbers.items };
}

impl Counts {
    /// Of so many relations, of which no count is known.
    pub fn new(alloc: Global, relations: usize) -> Result<Counts, AllocError>
        ensures { (s : State) → IfOk result (λ counts. AreCounts s counts) }
    {
        let mut numbers = Vec::new(alloc);
        for _ in 0..relations {
            numbers.push(None)?;
        }
        Ok(Counts { numbers })
    }

    /// How many rows a relation has, if that is known.
    fn known(&self, rel: RelId) -> Option<u64>
        ensures { IfSome result (λ n. slice_get self.now rel.0 ≡ Some (Some n)) }
    {
        match self.numbers.get(usize::from(rel.0)) {
            Some(number) => *number,
            None => None,
        }
    }

    /// Takes another number, or none, for the relation of this number.
    fn put(&mut self, i: usize, number: Option<u64>)
        requires { i < length self.old }
        ensures { self.new ≡ slice_set self.old i number }
    {
        self.numbers[i] = number;
    }

    /// Forgets all counts.
    pub fn forget(&mut self)
        ensures { (s : State) → AreCounts s self.new }
    {
        for i in 0..self.numbers.len() {
            self.put(i, None);
        }
    }

    /// How many rows a relation has after the pending delta, which is known from then on; none for more than 2^63 - 1.
    fn pending(&mut self, changes: &Changes<'_>, stored: &Stored<'_>, rel: RelId) -> Option<u64>
        requires there { rel.0 < length stored.now.catalogue }
        requires counted { AreCounts (apply_of stored.now.state (pending_of changes.now.layers)) self.old }
        ensures count { IfSome result (IsCount (apply_of stored.now.state (pending_of changes.now.layers)) rel.0) }
        ensures counted { AreCounts (apply_of stored.now.state (pending_of changes.now.layers)) self.new }
    {
        if let Some(count) = self.known(rel) {
            return Some(count);
        }
        let count = changes.pending_rel(stored, rel).count()?;
        let i = usize::from(rel.0);
        if i < self.numbers.len() {
            self.put(i, Some(count));
        }
        Some(count)
    }

    /// How many rows a relation has under a layer; none for more than 2^63 - 1. Where it is known how many it has after
    /// the pending delta, only the rows that the layers upon that name are looked for; and it is known from then on. It
    /// takes no memory.
    pub fn count(
        &mut self,
        changes: &Changes<'_>,
        stored: &Stored<'_>,
        rel: RelId,
        tip: usize,
    ) -> Option<u64>
        requires there { rel.0 < length stored.now.catalogue }
        requires counted { AreCounts (apply_of stored.now.state (pending_of changes.now.layers)) self.old }
        ensures count { IfSome result (IsCount (seen_at stored.now.state changes.now.layers tip) rel.0) }
        ensures counted { AreCounts (apply_of stored.now.state (pending_of changes.now.layers)) self.new }
    {
        let pending = self.pending(changes, stored, rel)?;
        changes.count_upon(stored, rel, tip, pending)
    }

    /// How many rows a relation has after the pending delta and then one delta more, if it is known how many it has after
    /// the pending delta. Only the rows that the delta names are looked for.
    fn next(
        &self,
        changes: &Changes<'_>,
        stored: &Stored<'_>,
        i: usize,
        delta: &Delta,
    ) -> Option<u64>
        requires { (n : ℕ) → slice_get self.now i ≡ Some (Some n) → IsCount (apply_of stored.now.state (pending_of changes.now.layers)) i n }
        ensures { IfSome result (IsCount (apply_of (apply_of stored.now.state (pending_of changes.now.layers)) delta.now) i) }
    {
        if i >= stored.len() || i >= 1 << 16 {
            return None;
        }
        let rel = RelId(i as u16);
        let count = self.known(rel)?;
        let rows = changes.pending_rel(stored, rel);
        let change = change_of(&rows, rel, delta)?;
        let next = count
            .checked_add(change.put_in)?
            .checked_sub(change.taken_out)?;
        if next <= ROWS_LIMIT { Some(next) } else { None }
    }

    /// Goes on from the counts after the pending delta to those after one delta more. Only the rows that it names are
    /// looked for, and only where a count is known. It takes no memory.
    pub fn go_on(&mut self, changes: &Changes<'_>, stored: &Stored<'_>, delta: &Delta)
        requires { AreCounts (apply_of stored.now.state (pending_of changes.now.layers)) self.old }
        ensures { AreCounts (apply_of (apply_of stored.now.state (pending_of changes.now.layers)) delta.now) self.new }
    {
        for i in 0..self.numbers.len() {
            let next = self.next(changes, stored, i, delta);
            self.put(i, next);
        }
    }
}

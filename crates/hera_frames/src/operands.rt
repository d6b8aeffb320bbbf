//! Operands.
ghost use Rattle.std.specs.Prelude.{◌≡◌, ◌+◌, ◌<◌, ◌≤◌, [], ◌∷◌, List, None, Some, true, false, min, drop, map, slice_get, IfOk, OnOk, OnErr, IsOk, MatchOption, length, take, ◌-◌};
ghost use Rattle.std.specs.Option.{is_some, option_copied, option_map};
ghost use Rattle.hera_meaning.specs.Deltas.{State};
ghost use Rattle.hera_meaning.specs.Values.{table};
ghost use Rattle.hera_code.specs.Machine.{taken, as_bool, as_tuple, as_table, as_delta};
ghost use Rattle.when_overlay.specs.declared.layers.Layer.{Layer};
ghost use Rattle.when_overlay.specs.Changed.{after_all};
ghost use Rattle.std.specs.Vec.{vec_len, vec_capacity};
ghost use Rattle.hera_fits.specs.Newest.{newest};
ghost use Rattle.hera_values.specs.Little.{plain_of};
ghost use Rattle.hera_frames.specs.Items.{item_of, held, relation, is_relation, value_at, operands_at, collected, AreHeld, are_deltas, reach_of, reach};
ghost use Rattle.hera_reads.specs.Seeing.{rows_seen};

use delta_atoms::{Delta, Value};
use hera_fits::Args;
use hera_meaning::RelId;
use hera_reads::{Changes, Seen, rows_past};
use hera_rows::RowBuf;
use hera_values::{Datum, into_delta, into_row, let_go};
use std::alloc::{AllocError, Global};
use std::marker::Model;
use std::mem::replace;
use when_overlay::Stored;

/// An operand: a value; or a relation as it is under a layer, of which no rows are copied.
#[derive(Drop)]
pub enum Operand {
    /// A value.
    Held(Datum),
    /// The relation of this number, under the layer of this number.
    Named { rel: RelId, tip: usize },
}

impl Operand {
    /// The bool, where the operand is one.
    pub fn bool_of(&self) -> Option<bool>
        ensures { (s : State) → (ls : List Layer) → result ≡ as_bool (value_at s ls (item_of self.now)) }
    {
        match self {
            Operand::Held(v) => v.bool_of(),
            Operand::Named { .. } => None,
        }
    }

    /// The row, where the operand is a tuple. It takes no memory.
    pub fn tuple(&self) -> Option<&[u8]>
        ensures { (s : State) → (ls : List Layer) → option_copied result ≡ as_tuple (value_at s ls (item_of self.now)) }
    {
        match self {
            Operand::Held(v) => v.tuple(),
            Operand::Named { .. } => None,
        }
    }

    /// The row, where the operand is a tuple.
    pub fn into_row(self) -> Result<Option<RowBuf>, AllocError>
        ensures { (s : State) → (ls : List Layer) → IfOk result (λ r. r ≡ as_tuple (value_at s ls (item_of self))) }
    {
        match self {
            Operand::Held(v) => into_row(v),
            Operand::Named { .. } => Ok(None),
        }
    }

    /// The delta, where the operand is one. It takes no memory.
    pub fn delta(&self) -> Option<&Delta>
        ensures { (s : State) → (ls : List Layer) → option_copied result ≡ as_delta (value_at s ls (item_of self.now)) }
    {
        match self {
            Operand::Held(v) => v.delta(),
            Operand::Named { .. } => None,
        }
    }

    /// The delta, where the operand is one. It is copied where a slot has it too.
    pub fn into_delta(self) -> Result<Option<Delta>, AllocError>
        ensures { (s : State) → (ls : List Layer) → IfOk result (λ r. r ≡ as_delta (value_at s ls (item_of self))) }
    {
        match self {
            Operand::Held(v) => into_delta(v),
            Operand::Named { .. } => Ok(None),
        }
    }

    /// The rows, where the operand is a relation, seen where they stand. It takes no memory.
    pub fn seen<'a>(&'a self, changes: &'a Changes, stored: &'a Stored<'a>) -> Option<Seen<'a>>
        ensures { let s = stored.now.state in option_map rows_seen result ≡ as_table (value_at s changes.now.layers (item_of self.now)) }
    {
        match self {
            Operand::Held(v) => match v.rows() {
                None => None,
                Some(rows) => Some(Seen::Held(rows)),
            },
            Operand::Named { rel, tip } => {
                if usize::from(rel.0) >= stored.len() {
                    Some(Seen::Nothing)
                } else {
                    Some(Seen::Named(changes.sight(stored, *rel, *tip)))
                }
            }
        }
    }

    /// The value, with the rows collected where the operand names a relation.
    pub fn collect(
        self,
        alloc: Global,
        changes: &Changes,
        stored: &Stored<'_>,
    ) -> Result<Datum, AllocError>
        ensures { let s = stored.now.state in IfOk result (λ v. plain_of v ≡ value_at s changes.now.layers (item_of self)) }
    {
        match self {
            Operand::Held(v) => Ok(v),
            Operand::Named { rel, tip } => named_rows(alloc, changes, stored, rel, tip),
        }
    }
}

/// The rows of a relation under a layer, as a value.
fn named_rows(
    alloc: Global,
    changes: &Changes,
    stored: &Stored<'_>,
    rel: RelId,
    tip: usize,
) -> Result<Datum, AllocError>
    ensures { let s = stored.now.state in IfOk result (λ v. plain_of v ≡ value_at s changes.now.layers (relation rel.0 tip)) }
{
    let rows = rows_past(alloc, changes, stored, rel, tip, None)?;
    Datum::new(alloc, Value::Rel(rows))
}

/// Operands, seen with the newest first, beside the number of further ones for which the place is there.
#[derive(Drop)]
pub struct Operands {
    pub(crate) items: Vec<Operand>,
    /// The buffer of a tuple that was taken off, into which the next one's row goes.
    pub(crate) idle: Option<Box<Vec<u8>>>,
}

impl Model for Operands {
    ghost use Rattle.std.specs.Prelude.{◌-◌};
    ghost use Rattle.std.specs.Vec.{vec_capacity, vec_len};
    ghost use Rattle.hera_fits.specs.Newest.{newest};
    ghost use Rattle.hera_frames.specs.Items.{Shelf, item_of};

    ghost Value = { Shelf };

    ghost view = { λ s. record { items = newest item_of s.items.items; spare = vec_capacity s.items - vec_len s.items } };
}

impl Operands {
    /// No operands. It takes no memory.
    pub fn new(alloc: Global) -> Operands
        ensures { result.items ≡ [] }
    {
        Operands {
            items: Vec::new(alloc),
            idle: None,
        }
    }

    /// Makes the place for at least `n` further operands. Without memory the places stay as they are.
    pub fn reserve(&mut self, n: usize) -> Result<(), AllocError>
        ensures items { self.new.items ≡ self.old.items }
        ensures ok { OnOk result (n ≤ self.new.spare) }
        ensures err { OnErr result (self.new ≡ self.old) }
    {
        self.items.reserve(n)
    }

    /// Puts a value upon the others. It takes no memory where spare is above 0.
    #[tactic(auto, using(hera_fits::proofs::Stacks::newest_push))]
    pub fn push(&mut self, v: Datum) -> Result<(), AllocError>
        ensures ok { OnOk result (self.new.items ≡ held (plain_of v) ∷ self.old.items) }
        ensures err { OnErr result (self.new.items ≡ self.old.items) }
        ensures spared { 0 < self.old.spare → IsOk result }
        ensures spare { self.old.spare ≤ self.new.spare + 1 }
    {
        self.items.push(Operand::Held(v))?;
        Ok(())
    }

    /// Puts the name of a relation under a layer upon the others. It takes no memory where spare is above 0.
    #[tactic(auto, using(hera_fits::proofs::Stacks::newest_push))]
    pub fn push_named(&mut self, rel: RelId, tip: usize) -> Result<(), AllocError>
        ensures ok { OnOk result (self.new.items ≡ relation rel.0 tip ∷ self.old.items) }
        ensures err { OnErr result (self.new.items ≡ self.old.items) }
        ensures spared { 0 < self.old.spare → IsOk result }
        ensures spare { self.old.spare ≤ self.new.spare + 1 }
    {
        self.items.push(Operand::Named { rel, tip })?;
        Ok(())
    }

    /// Takes the newest operand off. It takes no memory.
    #[tactic(auto, using(hera_fits::proofs::Stacks::newest_push))]
    pub fn pop(&mut self) -> Option<Operand>
        ensures items { MatchOption result ((self.old.items ≡ []) × (self.new.items ≡ [])) (λ o. self.old.items ≡ item_of o ∷ self.new.items) }
        ensures within { reach self.new.items ≤ reach self.old.items }
        ensures spare { MatchOption result (self.new.spare ≡ self.old.spare) (λ _. self.new.spare ≡ self.old.spare + 1) }
    {
        self.items.pop()
    }

    /// Takes the newest operand off as a value, with its rows collected where it names a relation.
    pub fn pop_value(
        &mut self,
        alloc: Global,
        changes: &Changes,
        stored: &Stored<'_>,
    ) -> Result<Option<Datum>, AllocError>
        ensures value { let s = stored.now.state in IfOk result (λ r. MatchOption r (self.old.items ≡ []) (λ v. operands_at s changes.now.layers self.old.items ≡ plain_of v ∷ operands_at s changes.now.layers self.new.items)) }
        ensures rest { self.new.items ≡ drop 1 self.old.items }
        ensures within { reach self.new.items ≤ reach self.old.items }
        ensures spare { self.old.spare ≤ self.new.spare }
    {
        match self.pop() {
            None => Ok(None),
            Some(operand) => Ok(Some(operand.collect(alloc, changes, stored)?)),
        }
    }

    /// The operand at place `i`, the newest of which is 0.
    #[tactic(auto, using(hera_fits::proofs::Stacks::places))]
    #[inline]
    pub fn newest(&self, i: usize) -> Option<&Operand>
        ensures { option_map (λ o. item_of o.now) result ≡ slice_get self.now.items i }
    {
        let count = self.items.len();
        if i < count {
            Some(&self.items[count - 1 - i])
        } else {
            None
        }
    }

    /// Takes `n` operands off as values, in the order in which they were pushed, if there are as many. What
    /// names a relation is collected.
    pub fn take(
        &mut self,
        alloc: Global,
        changes: &Changes,
        stored: &Stored<'_>,
        n: usize,
    ) -> Result<Option<Args>, AllocError>
        ensures taken { let s = stored.now.state in IfOk result (λ args. taken n [] (operands_at s changes.now.layers self.old.items) ≡ option_map (λ args. record { args = args; rest = operands_at s changes.now.layers self.new.items }) args) }
        ensures within { reach self.new.items ≤ reach self.old.items }
        ensures spare { self.old.spare ≤ self.new.spare }
    {
        let mut args = Args::new(alloc);
        for _ in 0..n {
            match self.pop_value(alloc, changes, stored)? {
                None => return Ok(None),
                Some(v) => {
                    let value = v.into_value()?;
                    args.push_front(value)?;
                }
            }
        }
        Ok(Some(args))
    }

    /// How many of `most` layers have to be there, the oldest ones, for what the operands name.
    pub fn reach(&self, most: usize) -> usize
        ensures { result ≡ min most (reach self.now.items) }
    {
        let mut count: usize = 0;
        for operand in &self.items {
            count = count.max(operand.reach(most));
        }
        count
    }

    /// Whether some operand names a relation.
    #[inline]
    pub fn has_names(&self) -> bool
        ensures { result ≡ false → AreHeld self.now.items }
    {
        for operand in &self.items {
            if operand.is_named() {
                return true;
            }
        }
        false
    }

    /// Whether the two newest operands are deltas.
    pub fn are_deltas(&self) -> bool
        ensures { result ≡ true → are_deltas self.now.items ≡ true }
    {
        let Some(newest) = self.newest(0) else {
            return false;
        };
        let Some(before) = self.newest(1) else {
            return false;
        };
        if !newest.is_delta() {
            return false;
        }
        before.is_delta()
    }

    /// Collects the rows of those of the newest `n` operands that name a relation, and of no other. Without memory some
    /// of them may be collected.
    pub fn hold_newest(
        &mut self,
        n: usize,
        alloc: Global,
        changes: &Changes,
        stored: &Stored<'_>,
    ) -> Result<(), AllocError>
        requires { n ≤ length self.old.items }
        ensures held { OnOk result (AreHeld (take n self.new.items)) }
        ensures rest { drop n self.new.items ≡ drop n self.old.items }
        ensures same { let s = stored.now.state in map (collected s changes.now.layers) self.new.items ≡ map (collected s changes.now.layers) self.old.items }
        ensures reach { reach self.new.items ≤ reach self.old.items }
    {
        let from = self.items.len() - n;
        hold_from(alloc, &mut self.items, from, changes, stored)
    }

    /// The operands with the rows collected of those that name a relation.
    pub fn settle(
        self,
        alloc: Global,
        changes: &Changes,
        stored: &Stored<'_>,
    ) -> Result<Operands, AllocError>
        ensures { let s = stored.now.state in IfOk result (λ settled. settled ≡ record { items = map (collected s changes.now.layers) self.items; spare = self.spare }) }
    {
        let Operands { mut items, idle } = self;
        hold_from(alloc, &mut items, 0, changes, stored)?;
        Ok(Operands { items, idle })
    }
}

impl Operand {
    /// Whether it names a relation.
    pub(crate) fn is_named(&self) -> bool
        ensures { result ≡ is_relation (item_of self.now) }
    {
        match self {
            Operand::Held(_) => false,
            Operand::Named { .. } => true,
        }
    }

    /// Whether it is a delta.
    fn is_delta(&self) -> bool
        ensures { (s : State) → (ls : List Layer) → result ≡ is_some (as_delta (value_at s ls (item_of self.now))) }
    {
        match self {
            Operand::Held(v) => v.is_delta(),
            Operand::Named { .. } => false,
        }
    }

    /// How many of `most` layers have to be there, the oldest ones, for what it names.
    fn reach(&self, most: usize) -> usize
        ensures { result ≡ min most (reach_of (item_of self.now)) }
    {
        match self {
            Operand::Held(_) => 0,
            Operand::Named { rel: _, tip } => if *tip < most { *tip + 1 } else { most },
        }
    }

    /// The value to be put in the operand's place, where it names a relation.
    fn rows(
        &self,
        alloc: Global,
        changes: &Changes,
        stored: &Stored<'_>,
    ) -> Result<Option<Datum>, AllocError>
        ensures { let s = stored.now.state in IfOk result (λ r. MatchOption r (collected s changes.now.layers (item_of self.now) ≡ item_of self.now) (λ v. collected s changes.now.layers (item_of self.now) ≡ held (plain_of v))) }
    {
        match self {
            Operand::Held(_) => Ok(None),
            Operand::Named { rel, tip } => {
                Ok(Some(named_rows(alloc, changes, stored, *rel, *tip)?))
            }
        }
    }
}

/// Collects the rows of the operands from a place on that name a relation.
fn hold_from(
    alloc: Global,
    items: &mut Vec<Operand>,
    from: usize,
    changes: &Changes,
    stored: &Stored<'_>,
) -> Result<(), AllocError>
    requires { from ≤ vec_len items.old }
    ensures held { OnOk result (AreHeld (take (vec_len items.old - from) (newest item_of items.new.items))) }
    ensures older { take from items.new.items ≡ take from items.old.items }
    ensures same { let s = stored.now.state in map (collected s changes.now.layers) (newest item_of items.new.items) ≡ map (collected s changes.now.layers) (newest item_of items.old.items) }
    ensures reach { reach (newest item_of items.new.items) ≤ reach (newest item_of items.old.items) }
    ensures len { vec_len items.new ≡ vec_len items.old }
    ensures capacity { vec_capacity items.new ≡ vec_capacity items.old }
{
    for i in from..items.len() {
        if let Some(v) = items[i].rows(alloc, changes, stored)? {
            let_go(replace(&mut items[i], Operand::Held(v)));
        }
    }
    Ok(())
}

//! Operations that read relations where they stand: no row of them is collected.
ghost use Rattle.std.specs.Prelude.{◌≡◌, ◌≢◌, ◌+◌, ◌<◌, ◌^◌, [], ◌∷◌, ◌⊎◌, ℕ, true, false, drop, IfOk, IsOk, OnOk, MatchOption};
ghost use Rattle.hera_meaning.specs.Deltas.{State};
ghost use Rattle.hera_meaning.specs.Values.{table};
ghost use Rattle.hera_meaning.specs.Fits.{arity};
ghost use Rattle.hera_code.specs.Machine.{ends, stuck, on_some, answers};
ghost use Rattle.hera_fits.specs.Tables.{is_relational, takes_memory, takes_relations, tables};
ghost use Rattle.hera_values.specs.Little.{plain_of};
ghost use Rattle.hera_frames.specs.Items.{held};
ghost use Rattle.hera_reads.specs.Seeing.{rows_seen};
ghost use Rattle.hera_steps.specs.Finding.{IsFound, found_step, is_measure};
ghost use Rattle.hera_steps.specs.Telling.{step_at};
ghost use Rattle.hera_steps.specs.Working.{machine_at};

use super::{Running, stuck};
use crate::events::{End, Told};
use delta_atoms::Delta;
use hera_fits::arity;
use hera_frames::fits_seen;
use hera_meaning::{Op, TrapName};
use hera_prims::{PrimEnd, prim_rel};
use hera_reads::Seen;
use hera_rows::Sorted;
use hera_values::{Datum, let_go};
use std::alloc::{AllocError, Global};
use when_overlay::Stored;

/// What an operation finds of its operands.
#[derive(Drop)]
pub enum RelationAnswer {
    /// They do not fit it.
    Misfit,
    /// It traps.
    Trap(TrapName),
    /// What it gives.
    Answer(Datum),
}

/// What the operation gives of relations, of which one that takes a single operand has the first.
fn found_of(
    alloc: Global,
    op: &Op,
    a: &Seen<'_>,
    b: &Seen<'_>,
) -> Result<RelationAnswer, AllocError>
    requires op { takes_relations op.now ≡ is_relational op.now }
    requires some { 0 < arity op.now }
    ensures found { IfOk result (IsFound op.now (tables op.now (rows_seen a.now) (rows_seen b.now))) }
    ensures spared { takes_memory op.now ≡ false → IsOk result }
{
    if !fits_seen(op, a, b) {
        return Ok(RelationAnswer::Misfit);
    }
    match prim_rel(alloc, op, a, b) {
        Ok(v) => Ok(RelationAnswer::Answer(Datum::new(alloc, v)?)),
        Err(PrimEnd::Trap(name)) => Ok(RelationAnswer::Trap(name)),
        Err(PrimEnd::Memory) => Err(AllocError),
    }
}

/// How many rows a relation has. It takes no memory.
fn counted(rows: &Seen<'_>) -> RelationAnswer
    ensures { IsFound Op.Count (table (rows_seen rows.now) ∷ []) result }
{
    match rows.count() {
        Some(count) => RelationAnswer::Answer(Datum::Int(count as i64)),
        None => RelationAnswer::Trap(TrapName::Overflow),
    }
}

/// What a count, or a test for no tuples, gives of a relation. It takes no memory.
fn measured(alloc: Global, op: &Op, rows: &Seen<'_>) -> Result<RelationAnswer, AllocError>
    requires { is_measure op.now ≡ true }
    ensures found { IfOk result (IsFound op.now (table (rows_seen rows.now) ∷ [])) }
    ensures spared { IsOk result }
{
    match op {
        Op::Count => Ok(counted(rows)),
        _ => found_of(alloc, op, rows, &Seen::Nothing),
    }
}

impl Running<'_> {
    /// Counts the tuples of the newest operand, or tells whether it has none. It takes no memory.
    pub(super) fn measure(
        &mut self,
        stored: &Stored<'_>,
        op: &Op,
        at: u32,
    ) -> Result<Told, AllocError>
        requires next { self.old.at + 1 < 2 ^ 64 }
        requires op { is_measure op.now ≡ true }
        ensures step { let s = stored.now.state in IfOk result (λ told. step_at s told self.new ≡ on_some 1 (machine_at s self.old).operands (λ args vs. answers at op.now args vs (machine_at s self.old))) }
        ensures no_copy { IsOk result }
        ensures relations { self.new.relations ≡ self.old.relations }
    {
        match self.measured_here(stored, op)? {
            None => Ok(Told::Ended(End::Stuck)),
            Some(found) => self.answer(1, found, at),
        }
    }

    /// What a count, or a test for no tuples, gives of the newest operand; nothing where that is no relation.
    /// It takes no memory.
    fn measured_here(
        &self,
        stored: &Stored<'_>,
        op: &Op,
    ) -> Result<Option<RelationAnswer>, AllocError>
        requires { is_measure op.now ≡ true }
        ensures found { let s = stored.now.state in IfOk result (λ r. MatchOption r ((at : ℕ) → ends stuck ≡ on_some 1 (machine_at s self.now).operands (λ args vs. answers at op.now args vs (machine_at s self.now))) (λ found. (self.now.operands ≢ []) × ((at : ℕ) → found_step at (drop 1 (machine_at s self.now).operands) (machine_at s self.now) found ≡ on_some 1 (machine_at s self.now).operands (λ args vs. answers at op.now args vs (machine_at s self.now))))) }
        ensures spared { IsOk result }
    {
        let Some(newest) = self.operands.newest(0) else {
            return Ok(None);
        };
        let Some(rows) = newest.seen(&self.changes, stored) else {
            return Ok(None);
        };
        Ok(Some(measured(self.alloc, op, &rows)?))
    }

    /// Tells whether the tuple before the newest operand is one of this relation's. It takes no memory.
    pub(super) fn ask(&mut self, stored: &Stored<'_>, at: u32) -> Result<Told, AllocError>
        requires { self.old.at + 1 < 2 ^ 64 }
        ensures step { let s = stored.now.state in IfOk result (λ told. step_at s told self.new ≡ on_some 2 (machine_at s self.old).operands (λ args vs. answers at Op.In args vs (machine_at s self.old))) }
        ensures no_copy { IsOk result }
        ensures relations { self.new.relations ≡ self.old.relations }
    {
        let Some(relation) = self.operands.pop() else {
            return stuck();
        };
        let Some(tuple) = self.operands.pop() else {
            return stuck();
        };
        let Some(row) = tuple.tuple() else {
            return stuck();
        };
        match relation.seen(&self.changes, stored) {
            None => stuck(),
            Some(rows) => {
                self.operands.push(Datum::Bool(rows.has(row)))?;
                self.at += 1;
                Ok(Told::Quiet)
            }
        }
    }

    /// An operation other than a count, a test for no tuples, `in` and one that makes a delta of tuples.
    pub(super) fn relate(
        &mut self,
        stored: &Stored<'_>,
        op: &Op,
        at: u32,
    ) -> Result<Told, AllocError>
        requires next { self.old.at + 1 < 2 ^ 64 }
        requires op { takes_relations op.now ≡ is_relational op.now }
        ensures step { let s = stored.now.state in IfOk result (λ told. step_at s told self.new ≡ on_some (arity op.now) (machine_at s self.old).operands (λ args vs. answers at op.now args vs (machine_at s self.old))) }
        ensures relations { self.new.relations ≡ self.old.relations }
    {
        match self.related(stored, op)? {
            None => self.compute(stored, op, at),
            Some(found) => self.answer(arity(op), found, at),
        }
    }

    /// What an operation with one operand, or two, finds of relations; nothing of other operands.
    fn related(&self, stored: &Stored<'_>, op: &Op) -> Result<Option<RelationAnswer>, AllocError>
        requires op { takes_relations op.now ≡ is_relational op.now }
        ensures { let s = stored.now.state in IfOk result (λ r. MatchOption r (Unit {0}) (λ found. ((arity op.now ≡ 1) ⊎ (arity op.now ≡ 2)) × (self.now.operands ≢ []) × ((at : ℕ) → found_step at (drop (arity op.now) (machine_at s self.now).operands) (machine_at s self.now) found ≡ on_some (arity op.now) (machine_at s self.now).operands (λ args vs. answers at op.now args vs (machine_at s self.now))))) }
    {
        let Some(newest) = self.operands.newest(0) else {
            return Ok(None);
        };
        let Some(right) = newest.seen(&self.changes, stored) else {
            return Ok(None);
        };
        if arity(op) == 1 {
            return Ok(Some(found_of(self.alloc, op, &right, &Seen::Nothing)?));
        }
        let Some(before) = self.operands.newest(1) else {
            return Ok(None);
        };
        let Some(left) = before.seen(&self.changes, stored) else {
            return Ok(None);
        };
        if arity(op) != 2 {
            return Ok(None);
        }
        Ok(Some(found_of(self.alloc, op, &left, &right)?))
    }

    /// Puts what an operation found in the place of its operands, one or two. It takes no memory.
    pub fn answer(
        &mut self,
        count: usize,
        found: RelationAnswer,
        at: u32,
    ) -> Result<Told, AllocError>
        requires next { self.old.at + 1 < 2 ^ 64 }
        requires count { (count ≡ 1) ⊎ (count ≡ 2) }
        requires some { self.old.operands ≢ [] }
        ensures step { (s : State) → IfOk result (λ told. step_at s told self.new ≡ found_step at (drop count (machine_at s self.old).operands) (machine_at s self.old) found) }
        ensures layers { self.new.layers ≡ self.old.layers }
        ensures no_copy { IsOk result }
        ensures relations { self.new.relations ≡ self.old.relations }
    {
        match found {
            RelationAnswer::Misfit => stuck(),
            RelationAnswer::Trap(name) => Ok(Told::Ended(End::Trap(name, at))),
            RelationAnswer::Answer(v) => {
                self.put(count, v)?;
                self.at += 1;
                Ok(Told::Quiet)
            }
        }
    }

    /// Puts a value in the place of the newest operand, or of two. It takes no memory.
    fn put(&mut self, count: usize, v: Datum) -> Result<(), AllocError>
        requires count { (count ≡ 1) ⊎ (count ≡ 2) }
        requires some { self.old.operands ≢ [] }
        ensures items { OnOk result (self.new ≡ record self.old { operands = held (plain_of v) ∷ drop count self.old.operands; spare = self.new.spare }) }
        ensures no_copy { IsOk result }
        ensures relations { self.new.relations ≡ self.old.relations }
    {
        if count == 2 {
            let_go(self.operands.pop());
        }
        let_go(self.operands.pop());
        self.operands.push(v)
    }
}

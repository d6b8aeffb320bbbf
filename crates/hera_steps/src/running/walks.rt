//! Walks over the tuples of a relation, with the tuples kept or gathered on them.
ghost use Rattle.std.specs.Prelude.{◌≡◌, ◌+◌, ◌<◌, ◌^◌, ◌∷◌, true, false, length, IfOk, IfSome, OnErr};
ghost use Rattle.hera_meaning.specs.Values.{table};
ghost use Rattle.hera_meaning.specs.Deltas.{State};
ghost use Rattle.hera_code.specs.Machine.{quiet, on_top, on_walk, needs_slot, needs_address, opens_walk, next_row, keeps, gathers};
ghost use Rattle.hera_steps.specs.Telling.{ending_at, step_at};
ghost use Rattle.hera_steps.specs.Working.{machine_at};

use super::{Running, stuck};
use crate::events::{End, Told};
use delta_atoms::{Delta, Value};
use hera_code::{Code, Instr};
use hera_frames::Operand;
use hera_reads::Walk;
use hera_values::{Datum, into_rel, let_go};
use std::alloc::AllocError;
use when_overlay::Stored;

/// Whether the walk that is opened at this address is that of a loop of statements: such a one is dropped
/// where no tuple is left.
fn is_of_loop(code: &Code, at: usize) -> bool
    requires { at + 1 < 2 ^ 64 }
{
    match code.instrs.get(at + 1) {
        Some(Instr::Next(_, end)) => matches!(code.instrs.get(*end as usize), Some(Instr::Drop)),
        _ => false,
    }
}

impl Running<'_> {
    /// Opens a walk over the newest operand. A relation that is named stays so, but in a loop of
    /// statements.
    pub(super) fn open_walk(&mut self, code: &Code, stored: &Stored<'_>) -> Result<Told, AllocError>
        requires { self.old.at + 1 < 2 ^ 64 }
        ensures step { let s = stored.now.state in IfOk result (λ told. step_at s told self.new ≡ on_top (machine_at s self.old).operands (λ v vs. opens_walk v vs (machine_at s self.old))) }
        ensures relations { self.new.relations ≡ self.old.relations }
    {
        match self.operands.pop() {
            None => stuck(),
            Some(Operand::Named { rel, tip }) if !is_of_loop(code, self.at) => {
                self.walks.push(Walk::over(self.alloc, rel, tip))?;
                self.at += 1;
                Ok(Told::Quiet)
            }
            Some(operand) => {
                let v = operand.collect(self.alloc, &self.changes, stored)?;
                let Some(rows) = into_rel(v)? else {
                    return stuck();
                };
                self.walks.push(Walk::new(self.alloc, rows))?;
                self.at += 1;
                Ok(Told::Quiet)
            }
        }
    }

    /// Goes on to the next tuple of the newest walk, which is put into a slot, or to an address where none is left.
    pub(super) fn next(
        &mut self,
        code: &Code,
        stored: &Stored<'_>,
        i: u32,
        a: u32,
    ) -> Result<Told, AllocError>
        requires { self.old.at + 1 < 2 ^ 64 }
        ensures step { let s = stored.now.state in IfOk result (λ told. step_at s told self.new ≡ on_walk (machine_at s self.old).walks (λ w ws. needs_slot i (machine_at s self.old) (needs_address code.now a (next_row i a w.rows w ws (machine_at s self.old))))) }
        ensures relations { self.new.relations ≡ self.old.relations }
    {
        if self.walks.len() == 0 {
            return stuck();
        }
        if !self.locals.has(i as usize) {
            return stuck();
        }
        if (a as usize) >= code.instrs.len() {
            return stuck();
        }
        self.walks.next(self.alloc, &self.changes, stored)?;
        match self.walks.current() {
            None => {
                self.at = a as usize;
                Ok(Told::Quiet)
            }
            Some(row) => {
                self.locals.put_tuple(self.alloc, i as usize, row)?;
                self.at += 1;
                Ok(Told::Quiet)
            }
        }
    }

    /// Goes on to the next tuple, where the walk has it, and a slot has one whose buffer has the room.
    #[inline(always)]
    pub(super) fn try_next(&mut self, code: &Code, stored: &Stored<'_>, i: u32, a: u32) -> bool
        requires { self.old.at + 1 < 2 ^ 64 }
        ensures done { let s = stored.now.state in result ≡ true → quiet (machine_at s self.new) ≡ on_walk (machine_at s self.old).walks (λ w ws. needs_slot i (machine_at s self.old) (needs_address code.now a (next_row i a w.rows w ws (machine_at s self.old)))) }
        ensures kept { result ≡ false → self.new ≡ self.old }
        ensures layers { self.new.layers ≡ self.old.layers }
        ensures relations { self.new.relations ≡ self.old.relations }
    {
        // named for the contract alone: the walk has the row
        let _stored = stored;
        if (a as usize) >= code.instrs.len() {
            return false;
        }
        let Some(row) = self.walks.coming() else {
            return false;
        };
        if !self.locals.fit_tuple(i as usize, row) {
            return false;
        }
        self.walks.pass();
        self.at += 1;
        true
    }

    /// Takes a bool off the operands, and keeps the newest walk's tuple where it is true. It answers how the run ends, if it
    /// does, and then nothing has changed; nor where memory is refused.
    #[inline]
    #[tactic(auto, using(crate::proofs::Parting::parts))]
    pub(super) fn keep(&mut self) -> Result<Option<End>, AllocError>
        requires { self.old.at + 1 < 2 ^ 64 }
        ensures step { (s : State) → IfOk result (λ end. ending_at s end self.new ≡ on_walk (machine_at s self.old).walks (λ w ws. on_top (machine_at s self.old).operands (λ v vs. keeps v vs w ws (machine_at s self.old)))) }
        ensures kept { IfOk result (λ end. IfSome end (λ _. self.new ≡ self.old)) }
        ensures err { OnErr result (self.new ≡ self.old) }
        ensures layers { self.new.layers ≡ self.old.layers }
        ensures relations { self.new.relations ≡ self.old.relations }
    {
        if self.walks.len() == 0 {
            return Ok(Some(End::Stuck));
        }
        let Some(b) = self.operands.newest_bool() else {
            return Ok(Some(End::Stuck));
        };
        if !b {
            self.operands.drop_newest();
            self.at += 1;
            return Ok(None);
        }
        self.walks.keep()?;
        self.operands.drop_newest();
        self.at += 1;
        Ok(None)
    }

    /// Takes a tuple off the operands, and gathers it on the newest walk.
    pub(super) fn gather(&mut self) -> Result<Told, AllocError>
        requires { self.old.at + 1 < 2 ^ 64 }
        ensures step { (s : State) → IfOk result (λ told. step_at s told self.new ≡ on_walk (machine_at s self.old).walks (λ w ws. on_top (machine_at s self.old).operands (λ v vs. gathers v vs w ws (machine_at s self.old)))) }
        ensures relations { self.new.relations ≡ self.old.relations }
    {
        if self.walks.len() == 0 {
            return stuck();
        }
        let Some(v) = self.operands.pop() else {
            return stuck();
        };
        let Some(row) = v.into_row()? else {
            return stuck();
        };
        self.walks.gather(row.bytes())?;
        self.at += 1;
        Ok(Told::Quiet)
    }

    /// Closes the newest walk, and puts the tuples that it gathered upon the operands.
    pub(super) fn yield_set(&mut self) -> Result<Told, AllocError>
        requires { self.old.at + 1 < 2 ^ 64 }
        ensures step { (s : State) → IfOk result (λ told. step_at s told self.new ≡ on_walk (machine_at s self.old).walks (λ w ws. quiet (record (machine_at s self.old) { at = (machine_at s self.old).at + 1; operands = table w.gathered ∷ (machine_at s self.old).operands; walks = ws }))) }
        ensures relations { self.new.relations ≡ self.old.relations }
    {
        let Some(walk) = self.walks.pop() else {
            return stuck();
        };
        let v = Datum::new(self.alloc, Value::Rel(walk.into_gathered()))?;
        self.operands.push(v)?;
        self.at += 1;
        Ok(Told::Quiet)
    }

    /// Closes the newest walk.
    pub(super) fn drop_walk(&mut self) -> Result<Told, AllocError>
        requires { self.old.at + 1 < 2 ^ 64 }
        ensures step { (s : State) → IfOk result (λ told. step_at s told self.new ≡ on_walk (machine_at s self.old).walks (λ w ws. quiet (record (machine_at s self.old) { at = (machine_at s self.old).at + 1; walks = ws }))) }
        ensures relations { self.new.relations ≡ self.old.relations }
    {
        let Some(walk) = self.walks.pop() else {
            return stuck();
        };
        let_go(walk);
        self.at += 1;
        Ok(Told::Quiet)
    }
}

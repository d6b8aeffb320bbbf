//! Operations. Those on ints and bools, and the fields of tuples, are tried first, in place and without memory; where
//! such a try does not answer true nothing has changed.
ghost use Rattle.std.specs.Prelude.{◌≡◌, ◌+◌, ◌<◌, ◌^◌, true, false, IfOk, IsOk};
ghost use Rattle.hera_meaning.specs.Deltas.{State};
ghost use Rattle.hera_meaning.specs.Fits.{arity};
ghost use Rattle.hera_code.specs.Machine.{quiet, on_some, answers};
ghost use Rattle.hera_fits.specs.Tables.{takes_memory};
ghost use Rattle.hera_steps.specs.Telling.{step_at};
ghost use Rattle.hera_steps.specs.Working.{machine_at};

use super::{Running, stuck};
use crate::events::{End, Told};
use delta_atoms::Delta;
use hera_fits::{Args, arity, fits};
use hera_flat::{Flat, flat_one, flat_two};
use hera_meaning::{Op, Schema};
use hera_prims::{PrimEnd, prim};
use hera_values::Datum;
use std::alloc::AllocError;
use when_overlay::Stored;

impl Running<'_> {
    /// An operation. Relations are read where they stand, but by one that makes a delta of them.
    pub(super) fn prim(&mut self, stored: &Stored<'_>, op: &Op, at: u32) -> Result<Told, AllocError>
        requires { self.old.at + 1 < 2 ^ 64 }
        ensures step { let s = stored.now.state in IfOk result (λ told. step_at s told self.new ≡ on_some (arity op.now) (machine_at s self.old).operands (λ args vs. answers at op.now args vs (machine_at s self.old))) }
        ensures no_copy { takes_memory op.now ≡ false → IsOk result }
        ensures relations { self.new.relations ≡ self.old.relations }
    {
        match op {
            Op::Count => self.measure(stored, op, at),
            Op::Empty => self.measure(stored, op, at),
            Op::In => self.ask(stored, at),
            Op::Bulk(_, _) => self.compute(stored, op, at),
            _ => self.relate(stored, op, at),
        }
    }

    /// An operation, whose operands are taken off as values.
    pub fn compute(&mut self, stored: &Stored<'_>, op: &Op, at: u32) -> Result<Told, AllocError>
        requires { self.old.at + 1 < 2 ^ 64 }
        ensures step { let s = stored.now.state in IfOk result (λ told. step_at s told self.new ≡ on_some (arity op.now) (machine_at s self.old).operands (λ args vs. answers at op.now args vs (machine_at s self.old))) }
        ensures layers { self.new.layers ≡ self.old.layers }
        ensures relations { self.new.relations ≡ self.old.relations }
    {
        let count = arity(op);
        match self
            .operands
            .take(self.alloc, &self.changes, stored, count)?
        {
            None => Ok(Told::Ended(End::Stuck)),
            Some(args) => self.operate(op, at, args),
        }
    }

    /// An operation on values that were taken off the operands.
    fn operate(&mut self, op: &Op, at: u32, args: Args) -> Result<Told, AllocError>
        requires { self.old.at + 1 < 2 ^ 64 }
        ensures step { (s : State) → IfOk result (λ told. step_at s told self.new ≡ answers at op.now args (machine_at s self.old).operands (machine_at s self.old)) }
        ensures layers { self.new.layers ≡ self.old.layers }
        ensures relations { self.new.relations ≡ self.old.relations }
    {
        if !fits(op, &args) {
            return stuck();
        }
        match prim(self.alloc, op, args) {
            Ok(v) => {
                self.operands.push(Datum::new(self.alloc, v)?)?;
                self.at += 1;
                Ok(Told::Quiet)
            }
            Err(PrimEnd::Trap(name)) => Ok(Told::Ended(End::Trap(name, at))),
            Err(PrimEnd::Memory) => Err(AllocError),
        }
    }

    /// Does an operation on ints and bools.
    #[inline(always)]
    pub(super) fn try_prim(&mut self, op: &Op, at: u32) -> bool
        requires { self.old.at + 1 < 2 ^ 64 }
        ensures done { (s : State) → result ≡ true → quiet (machine_at s self.new) ≡ on_some (arity op.now) (machine_at s self.old).operands (λ args vs. answers at op.now args vs (machine_at s self.old)) }
        ensures kept { result ≡ false → self.new ≡ self.old }
        ensures layers { self.new.layers ≡ self.old.layers }
        ensures relations { self.new.relations ≡ self.old.relations }
    {
        let Some((left, right)) = self.operands.newest_ints() else {
            return self.prim_of_flats(op, at);
        };
        let Some(v) = flat_two(op, Flat::Int(left), Flat::Int(right)) else {
            return self.prim_of_one(op, at);
        };
        self.operands.replace_two(v);
        self.at += 1;
        true
    }

    /// Does an operation on two operands that are not both ints, or on one.
    #[inline(never)]
    fn prim_of_flats(&mut self, op: &Op, at: u32) -> bool
        requires { self.old.at + 1 < 2 ^ 64 }
        ensures done { (s : State) → result ≡ true → quiet (machine_at s self.new) ≡ on_some (arity op.now) (machine_at s self.old).operands (λ args vs. answers at op.now args vs (machine_at s self.old)) }
        ensures kept { result ≡ false → self.new ≡ self.old }
        ensures layers { self.new.layers ≡ self.old.layers }
        ensures relations { self.new.relations ≡ self.old.relations }
    {
        match self.operands.newest_two() {
            None => self.prim_of_one(op, at),
            Some((left, right)) => match flat_two(op, left, right) {
                None => self.prim_of_one(op, at),
                Some(v) => {
                    self.operands.replace_two(v);
                    self.at += 1;
                    true
                }
            },
        }
    }

    /// Does an operation on one operand, where that is an int or a bool.
    #[inline(never)]
    fn prim_of_one(&mut self, op: &Op, at: u32) -> bool
        requires { self.old.at + 1 < 2 ^ 64 }
        ensures done { (s : State) → result ≡ true → quiet (machine_at s self.new) ≡ on_some (arity op.now) (machine_at s self.old).operands (λ args vs. answers at op.now args vs (machine_at s self.old)) }
        ensures kept { result ≡ false → self.new ≡ self.old }
        ensures layers { self.new.layers ≡ self.old.layers }
        ensures relations { self.new.relations ≡ self.old.relations }
    {
        // named for the contract alone: the operation does not trap here
        let _at = at;
        let Some(operand) = self.operands.newest_flat() else {
            return false;
        };
        let Some(v) = flat_one(op, operand) else {
            return false;
        };
        self.operands.replace_newest(v);
        self.at += 1;
        true
    }

    /// Takes a field of a tuple, where that is an int or a bool.
    #[inline(always)]
    pub(super) fn try_field(&mut self, schema: &Schema, i: usize, at: u32) -> bool
        requires { self.old.at + 1 < 2 ^ 64 }
        ensures done { (s : State) → result ≡ true → quiet (machine_at s self.new) ≡ on_some 1 (machine_at s self.old).operands (λ args vs. answers at (Op.Field schema.now i) args vs (machine_at s self.old)) }
        ensures kept { result ≡ false → self.new ≡ self.old }
        ensures layers { self.new.layers ≡ self.old.layers }
        ensures relations { self.new.relations ≡ self.old.relations }
    {
        // named for the contract alone: the operation does not trap
        let _at = at;
        let Some(v) = self.operands.newest_field(schema, i) else {
            return false;
        };
        self.operands.replace_tuple(v);
        self.at += 1;
        true
    }
}

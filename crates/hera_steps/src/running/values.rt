//! Instructions on operands and slots: they push values, store, assert and print. What is tried first takes no memory but
//! for a tuple's buffer; where it does not answer true nothing has changed.
ghost use Rattle.std.specs.Prelude.{◌≡◌, ◌+◌, ◌<◌, ◌^◌, Some, true, false, IfOk, IsOk, slice_get};
ghost use Rattle.hera_meaning.specs.Deltas.{State};
ghost use Rattle.hera_meaning.specs.Hosts.{host_at};
ghost use Rattle.hera_meaning.specs.Worlds.{set_local};
ghost use Rattle.hera_meaning.specs.Expressions.{const_value};
ghost use Rattle.hera_meaning.specs.Run.{stopped};
ghost use Rattle.hera_flat.specs.Flats.{flat_value};
ghost use Rattle.hera_host.specs.Tables.{specs_of};
ghost use Rattle.hera_code.specs.Machine.{quiet, ends, ended, on_with, on_top, pushes, needs_slot, by_bool, prints, asks_host, rows_value, current_state};
ghost use Rattle.hera_steps.specs.Telling.{step_at};
ghost use Rattle.hera_steps.specs.Working.{machine_at};

use super::hosts::{answer_for, datum_of};
use super::{Running, stuck};
use crate::events::{End, Told};
use delta_atoms::Delta;
use hera_fits::has_shape;
use hera_flat::Flat;
use hera_frames::Operand;
use hera_host::HostTable;
use hera_meaning::{Const, RelDecl, RelId, Shape, TrapName};
use hera_print::value_line;
use hera_values::{const_of, let_go};
use std::alloc::AllocError;
use when_overlay::Stored;

impl Running<'_> {
    /// Puts a constant's value upon the operands.
    pub(super) fn push(&mut self, constant: &Const) -> Result<Told, AllocError>
        requires { self.old.at + 1 < 2 ^ 64 }
        ensures step { (s : State) → IfOk result (λ told. step_at s told self.new ≡ pushes (Some (const_value constant.now)) (machine_at s self.old)) }
        ensures relations { self.new.relations ≡ self.old.relations }
    {
        self.operands.push(const_of(self.alloc, constant)?)?;
        self.at += 1;
        Ok(Told::Quiet)
    }

    /// Puts a slot's value upon the operands.
    pub(super) fn load(&mut self, i: u32) -> Result<Told, AllocError>
        requires { self.old.at + 1 < 2 ^ 64 }
        ensures step { (s : State) → IfOk result (λ told. step_at s told self.new ≡ pushes (slice_get (machine_at s self.old).locals i) (machine_at s self.old)) }
        ensures relations { self.new.relations ≡ self.old.relations }
    {
        let Some(v) = self.locals.again(self.alloc, i as usize)? else {
            return stuck();
        };
        self.operands.push(v)?;
        self.at += 1;
        Ok(Told::Quiet)
    }

    /// Takes the newest operand off, and puts it into a slot. A relation that it names is collected.
    pub fn store(&mut self, stored: &Stored<'_>, i: u32) -> Result<Told, AllocError>
        requires { self.old.at + 1 < 2 ^ 64 }
        ensures step { let s = stored.now.state in IfOk result (λ told. step_at s told self.new ≡ on_top (machine_at s self.old).operands (λ v vs. needs_slot i (machine_at s self.old) (quiet (record (machine_at s self.old) { at = (machine_at s self.old).at + 1; operands = vs; locals = set_local (machine_at s self.old).locals i v })))) }
        ensures layers { self.new.layers ≡ self.old.layers }
        ensures relations { self.new.relations ≡ self.old.relations }
    {
        let Some(v) = self.operands.pop_value(self.alloc, &self.changes, stored)? else {
            return stuck();
        };
        if !self.locals.put(i as usize, v) {
            return stuck();
        }
        self.at += 1;
        Ok(Told::Quiet)
    }

    /// Names a relation as it is in the state that the machine reads. It takes no memory where there is
    /// the place for one more operand.
    pub(super) fn rel(&mut self, stored: &Stored<'_>, r: RelId) -> Result<Told, AllocError>
        requires { self.old.at + 1 < 2 ^ 64 }
        ensures step { let s = stored.now.state in IfOk result (λ told. step_at s told self.new ≡ pushes (rows_value (slice_get (current_state s (machine_at s self.old)) r.0)) (machine_at s self.old)) }
        ensures no_copy { 0 < self.old.spare → IsOk result }
        ensures relations { self.new.relations ≡ self.old.relations }
    {
        // for the contract alone: which relations there are, commits do not change
        let _stored = stored;
        if usize::from(r.0) >= stored.len() {
            return stuck();
        }
        self.operands.push_named(r, self.changes.tip())?;
        self.at += 1;
        Ok(Told::Quiet)
    }

    /// Asks a host function for the newest operand.
    pub(super) fn host(&mut self, hosts: &HostTable, h: u32) -> Result<Told, AllocError>
        requires { self.old.at + 1 < 2 ^ 64 }
        ensures step { (s : State) → IfOk result (λ told. step_at s told self.new ≡ on_top (machine_at s self.old).operands (λ v vs. asks_host (host_at (specs_of hosts.now.names) h) v vs (machine_at s self.old))) }
        ensures relations { self.new.relations ≡ self.old.relations }
    {
        match self.operands.pop() {
            None => stuck(),
            Some(Operand::Named { .. }) => stuck(),
            Some(Operand::Held(v)) => {
                let v = v.into_value()?;
                let answer = answer_for(hosts, h, &v);
                let_go(v);
                match answer {
                    None => stuck(),
                    Some(answer) => {
                        self.operands.push(datum_of(answer))?;
                        self.at += 1;
                        Ok(Told::Quiet)
                    }
                }
            }
        }
    }

    /// Takes a bool off the operands, which has to be true.
    pub(super) fn assert(&mut self, at: u32) -> Result<Told, AllocError>
        requires { self.old.at + 1 < 2 ^ 64 }
        ensures step { (s : State) → IfOk result (λ told. step_at s told self.new ≡ on_top (machine_at s self.old).operands (λ v vs. by_bool v (quiet (on_with vs (machine_at s self.old))) (ends (ended (stopped TrapName.Assert at))))) }
        ensures relations { self.new.relations ≡ self.old.relations }
    {
        let Some(v) = self.operands.pop() else {
            return stuck();
        };
        match v.bool_of() {
            None => stuck(),
            Some(true) => {
                self.at += 1;
                Ok(Told::Quiet)
            }
            Some(false) => Ok(Told::Ended(End::Trap(TrapName::Assert, at))),
        }
    }

    /// Takes a value off the operands, and tells its text.
    pub(super) fn print(&mut self, stored: &Stored<'_>, shape: &Shape) -> Result<Told, AllocError>
        requires { self.old.at + 1 < 2 ^ 64 }
        ensures step { let s = stored.now.state in IfOk result (λ told. step_at s told self.new ≡ on_top (machine_at s self.old).operands (λ v vs. prints self.old.relations v vs (machine_at s self.old) shape.now)) }
        ensures relations { self.new.relations ≡ self.old.relations }
    {
        let Some(v) = self.operands.pop_value(self.alloc, &self.changes, stored)? else {
            return stuck();
        };
        let v = v.into_value()?;
        if !has_shape(shape, &v, self.changes.catalogue()) {
            return stuck();
        }
        let line = value_line(self.alloc, shape, &v, self.changes.catalogue())?;
        self.at += 1;
        Ok(Told::Out(line))
    }

    /// Puts an int or a bool upon the operands, if its place is there.
    #[inline(always)]
    pub(super) fn try_push(&mut self, v: Flat) -> bool
        requires { self.old.at + 1 < 2 ^ 64 }
        ensures done { (s : State) → result ≡ true → quiet (machine_at s self.new) ≡ pushes (Some (flat_value v)) (machine_at s self.old) }
        ensures kept { result ≡ false → self.new ≡ self.old }
        ensures layers { self.new.layers ≡ self.old.layers }
        ensures relations { self.new.relations ≡ self.old.relations }
    {
        if !self.operands.push_flat(v) {
            return false;
        }
        self.at += 1;
        true
    }

    /// Loads a slot that has an int, a bool or a tuple.
    #[inline(always)]
    pub(super) fn try_load(&mut self, i: u32) -> bool
        requires { self.old.at + 1 < 2 ^ 64 }
        ensures done { (s : State) → result ≡ true → quiet (machine_at s self.new) ≡ pushes (slice_get (machine_at s self.old).locals i) (machine_at s self.old) }
        ensures kept { result ≡ false → self.new ≡ self.old }
        ensures layers { self.new.layers ≡ self.old.layers }
        ensures relations { self.new.relations ≡ self.old.relations }
    {
        match self.locals.int_at(i as usize) {
            Some(n) => self.try_push(Flat::Int(n)),
            None => self.load_other(i),
        }
    }

    /// Loads a slot that has a bool or a tuple.
    #[inline(never)]
    fn load_other(&mut self, i: u32) -> bool
        requires { self.old.at + 1 < 2 ^ 64 }
        ensures done { (s : State) → result ≡ true → quiet (machine_at s self.new) ≡ pushes (slice_get (machine_at s self.old).locals i) (machine_at s self.old) }
        ensures kept { result ≡ false → self.new ≡ self.old }
        ensures layers { self.new.layers ≡ self.old.layers }
        ensures relations { self.new.relations ≡ self.old.relations }
    {
        match self.locals.flat_at(i as usize) {
            Some(v) => self.try_push(v),
            None => self.load_tuple(i),
        }
    }

    /// Loads a slot that has a tuple.
    #[inline]
    fn load_tuple(&mut self, i: u32) -> bool
        requires { self.old.at + 1 < 2 ^ 64 }
        ensures done { (s : State) → result ≡ true → quiet (machine_at s self.new) ≡ pushes (slice_get (machine_at s self.old).locals i) (machine_at s self.old) }
        ensures kept { result ≡ false → self.new ≡ self.old }
        ensures layers { self.new.layers ≡ self.old.layers }
        ensures relations { self.new.relations ≡ self.old.relations }
    {
        let Some(row) = self.locals.row_at(i as usize) else {
            return false;
        };
        if !self.operands.push_tuple(row) {
            return false;
        }
        self.at += 1;
        true
    }

    /// Stores an int or a bool in a slot.
    #[inline(always)]
    pub(super) fn try_store(&mut self, i: u32) -> bool
        requires { self.old.at + 1 < 2 ^ 64 }
        ensures done { (s : State) → result ≡ true → quiet (machine_at s self.new) ≡ on_top (machine_at s self.old).operands (λ v vs. needs_slot i (machine_at s self.old) (quiet (record (machine_at s self.old) { at = (machine_at s self.old).at + 1; operands = vs; locals = set_local (machine_at s self.old).locals i v }))) }
        ensures kept { result ≡ false → self.new ≡ self.old }
        ensures layers { self.new.layers ≡ self.old.layers }
        ensures relations { self.new.relations ≡ self.old.relations }
    {
        let Some(n) = self.operands.newest_int() else {
            return self.store_bool(i);
        };
        if !self.locals.has(i as usize) {
            return false;
        }
        self.operands.drop_newest();
        let _ = self.locals.put_flat(i as usize, Flat::Int(n));
        self.at += 1;
        true
    }

    /// Stores a bool in a slot.
    #[inline(never)]
    fn store_bool(&mut self, i: u32) -> bool
        requires { self.old.at + 1 < 2 ^ 64 }
        ensures done { (s : State) → result ≡ true → quiet (machine_at s self.new) ≡ on_top (machine_at s self.old).operands (λ v vs. needs_slot i (machine_at s self.old) (quiet (record (machine_at s self.old) { at = (machine_at s self.old).at + 1; operands = vs; locals = set_local (machine_at s self.old).locals i v }))) }
        ensures kept { result ≡ false → self.new ≡ self.old }
        ensures layers { self.new.layers ≡ self.old.layers }
        ensures relations { self.new.relations ≡ self.old.relations }
    {
        let Some(v) = self.operands.newest_flat() else {
            return false;
        };
        if !self.locals.has(i as usize) {
            return false;
        }
        self.operands.drop_newest();
        let _ = self.locals.put_flat(i as usize, v);
        self.at += 1;
        true
    }
}

//! Calls of bodies, and the ways back to the frame that waits.
ghost use Rattle.std.specs.Prelude.{◌≡◌, ◌+◌, ◌<◌, ◌≤◌, ◌^◌, [], ◌∷◌, Some, None, true, false, IfOk, IfSome, OnOk, OnErr, length, slice_get, take};
ghost use Rattle.hera_meaning.specs.Deltas.{State};
ghost use Rattle.hera_code.specs.Machine.{quiet, on_top, calls_body, goes_back};
ghost use Rattle.hera_reads.specs.Walking.{AreGiven};
ghost use Rattle.hera_frames.specs.Items.{AreHeld};
ghost use Rattle.hera_frames.specs.Calling.{answer_values};
ghost use Rattle.hera_steps.specs.Telling.{ending_at, step_at};
ghost use Rattle.hera_steps.specs.Working.{machine_at};

use super::{Running, stuck};
use crate::events::{End, Told};
use delta_atoms::Delta;
use hera_code::{BodyInfo, Code};
use hera_flat::Flat;
use hera_frames::{Operands, Point, any_named};
use hera_reads::{Stack, Walk};
use std::alloc::AllocError;
use when_overlay::Stored;

/// Whether a frame may name a relation, with these operands and walks, or one below it.
#[inline]
fn any_names(below: bool, operands: &Operands, walks: &Stack<Walk>) -> bool
    ensures below { result ≡ false → below ≡ false }
    ensures operands { result ≡ false → AreHeld operands.now.items }
    ensures walks { result ≡ false → AreGiven walks.now }
{
    if below || operands.has_names() {
        return true;
    }
    any_named(walks)
}

impl Running<'_> {
    /// Calls the body of this number. What its arguments name is collected.
    pub(super) fn call(
        &mut self,
        code: &Code,
        stored: &Stored<'_>,
        k: u32,
    ) -> Result<Told, AllocError>
        requires { self.old.at + 1 < 2 ^ 64 }
        ensures step { let s = stored.now.state in IfOk result (λ told. step_at s told self.new ≡ calls_body (slice_get code.now.bodies k) (machine_at s self.old)) }
        ensures relations { self.new.relations ≡ self.old.relations }
    {
        let Some(body) = code.bodies.get(k as usize) else {
            return stuck();
        };
        if body.params > body.slots {
            return stuck();
        }
        if self.operands.len() < body.params as usize {
            return Ok(Told::Ended(End::Stuck));
        }
        if self.turns == 0 {
            return Ok(Told::Ended(End::Spent));
        }
        self.hold(body.params as usize, stored)?;
        self.begin(&body)?;
        Ok(Told::Quiet)
    }

    /// Collects what the newest `n` operands name, which are there.
    fn hold(&mut self, n: usize, stored: &Stored<'_>) -> Result<(), AllocError>
        requires { n ≤ length self.old.operands }
        ensures same { let s = stored.now.state in machine_at s self.new ≡ machine_at s self.old }
        ensures at { self.new.at ≡ self.old.at }
        ensures turns { self.new.turns ≡ self.old.turns }
        ensures held { OnOk result (AreHeld (take n self.new.operands)) }
        ensures relations { self.new.relations ≡ self.old.relations }
    {
        self.operands
            .hold_newest(n, self.alloc, &self.changes, stored)
    }

    /// Calls the body of this number, where its arguments name nothing.
    #[inline(never)]
    pub(super) fn try_call(&mut self, code: &Code, k: u32) -> bool
        requires { self.old.at + 1 < 2 ^ 64 }
        ensures done { (s : State) → result ≡ true → quiet (machine_at s self.new) ≡ calls_body (slice_get code.now.bodies k) (machine_at s self.old) }
        ensures kept { result ≡ false → self.new ≡ self.old }
        ensures layers { self.new.layers ≡ self.old.layers }
        ensures relations { self.new.relations ≡ self.old.relations }
    {
        let Some(body) = code.bodies.get(k as usize) else {
            return false;
        };
        if body.params > body.slots || self.turns == 0 {
            return false;
        }
        if !self.operands.are_held(body.params as usize) {
            return false;
        }
        match self.begin(&body) {
            Ok(()) => true,
            Err(_) => false,
        }
    }

    /// Calls a body whose arguments are there and name nothing, where a turn is left. Frames, slots and operands stand
    /// where those of earlier calls stood; memory is made where it is missing, and nothing has changed where it is refused.
    #[inline]
    fn begin(&mut self, body: &BodyInfo) -> Result<(), AllocError>
        requires next { self.old.at + 1 < 2 ^ 64 }
        requires fit { body.now.params ≤ body.now.slots }
        requires there { body.now.params ≤ length self.old.operands }
        requires held { AreHeld (take body.now.params self.old.operands) }
        requires turn { 1 ≤ self.old.turns }
        ensures step { (s : State) → OnOk result (quiet (machine_at s self.new) ≡ calls_body (Some body.now) (machine_at s self.old)) }
        ensures err { OnErr result (self.new ≡ self.old) }
        ensures layers { self.new.layers ≡ self.old.layers }
        ensures relations { self.new.relations ≡ self.old.relations }
    {
        let names = any_names(self.names_below, &self.operands, &self.walks);
        let point = Point {
            at: self.at + 1,
            tip: self.changes.tip(),
            own: self.own,
            floor: self.floor,
            names_below: self.names_below,
        };
        self.callers.call(
            self.alloc,
            body,
            point,
            &mut self.operands,
            &mut self.locals,
            &mut self.walks,
        )?;
        self.at = body.at as usize;
        self.turns -= 1;
        self.own = 0;
        self.floor = self.changes.len();
        self.names_below = names;
        Ok(())
    }

    /// Goes back to the frame that waits, if there is one. It takes no memory.
    #[inline]
    pub(super) fn ret(&mut self) -> Option<End>
        ensures step { (s : State) → ending_at s result self.new ≡ goes_back (machine_at s self.old).callers [] (machine_at s self.old) }
        ensures kept { IfSome result (λ end. self.new ≡ self.old) }
        ensures layers { self.new.layers ≡ self.old.layers }
        ensures relations { self.new.relations ≡ self.old.relations }
    {
        if self.resume(None) {
            None
        } else {
            Some(End::Stuck)
        }
    }

    /// Goes back to the frame that waits with the newest operand.
    pub(super) fn ret_val(&mut self, stored: &Stored<'_>) -> Result<Told, AllocError>
        ensures step { let s = stored.now.state in IfOk result (λ told. step_at s told self.new ≡ on_top (machine_at s self.old).operands (λ v vs. goes_back (machine_at s self.old).callers (v ∷ []) (machine_at s self.old))) }
        ensures relations { self.new.relations ≡ self.old.relations }
    {
        let Some(v) = self.operands.pop_value(self.alloc, &self.changes, stored)? else {
            return stuck();
        };
        if !self.resume(None) {
            return stuck();
        }
        self.operands.push(v)?;
        Ok(Told::Quiet)
    }

    /// Goes back to the frame that waits with the newest operand, if that is an int or a bool.
    #[inline(never)]
    pub(super) fn try_ret_val(&mut self) -> bool
        ensures done { (s : State) → result ≡ true → quiet (machine_at s self.new) ≡ on_top (machine_at s self.old).operands (λ v vs. goes_back (machine_at s self.old).callers (v ∷ []) (machine_at s self.old)) }
        ensures kept { result ≡ false → self.new ≡ self.old }
        ensures layers { self.new.layers ≡ self.old.layers }
        ensures relations { self.new.relations ≡ self.old.relations }
    {
        match self.operands.newest_flat() {
            None => false,
            Some(v) => self.resume(Some(v)),
        }
    }

    /// Goes back to the frame that waits, if there is one, with the answer upon its operands, if there is the
    /// place for it.
    #[inline]
    fn resume(&mut self, answer: Option<Flat>) -> bool
        ensures done { (s : State) → result ≡ true → quiet (machine_at s self.new) ≡ goes_back (machine_at s self.old).callers (answer_values answer) (machine_at s self.old) }
        ensures kept { result ≡ false → self.new ≡ self.old }
        ensures none { answer ≡ None → result ≡ false → self.old.callers ≡ [] }
        ensures layers { self.new.layers ≡ self.old.layers }
        ensures relations { self.new.relations ≡ self.old.relations }
    {
        let Some(point) = self.callers.resume(
            answer,
            &mut self.operands,
            &mut self.locals,
            &mut self.walks,
        )
        else {
            return false;
        };
        self.at = point.at;
        self.changes.go_to(point.tip);
        self.own = point.own;
        self.floor = point.floor;
        self.names_below = point.names_below;
        true
    }
}

//! Jumps: an address past the code's end leaves the run stuck, and a jump back spends a turn. Each function answers how the
//! run ends, if it does, and then nothing has changed.
ghost use Rattle.std.specs.Prelude.{◌≡◌, ◌+◌, ◌<◌, ◌^◌, IfSome};
ghost use Rattle.hera_meaning.specs.Deltas.{State};
ghost use Rattle.hera_code.specs.Machine.{quiet, on_with, on_top, needs_address, goes_to, spends, by_bool};
ghost use Rattle.hera_steps.specs.Telling.{ending_at};
ghost use Rattle.hera_steps.specs.Working.{machine_at};

use super::Running;
use crate::events::End;
use hera_code::Code;

impl Running<'_> {
    /// Goes to an address.
    #[inline(always)]
    pub(super) fn jump(&mut self, code: &Code, a: u32) -> Option<End>
        ensures step { (s : State) → ending_at s result self.new ≡ goes_to code.now a (machine_at s self.old) }
        ensures kept { IfSome result (λ end. self.new ≡ self.old) }
        ensures layers { self.new.layers ≡ self.old.layers }
        ensures relations { self.new.relations ≡ self.old.relations }
    {
        if (a as usize) >= code.instrs.len() {
            return Some(End::Stuck);
        }
        self.at = a as usize;
        None
    }

    /// Takes a bool off the operands, and goes to an address where it is false.
    #[inline(always)]
    #[tactic(auto, using(crate::proofs::Parting::parts))]
    pub(super) fn unless(&mut self, code: &Code, a: u32) -> Option<End>
        requires { self.old.at + 1 < 2 ^ 64 }
        ensures step { (s : State) → ending_at s result self.new ≡ on_top (machine_at s self.old).operands (λ v vs. needs_address code.now a (by_bool v (quiet (on_with vs (machine_at s self.old))) (quiet (record (machine_at s self.old) { at = a; operands = vs })))) }
        ensures kept { IfSome result (λ end. self.new ≡ self.old) }
        ensures layers { self.new.layers ≡ self.old.layers }
        ensures relations { self.new.relations ≡ self.old.relations }
    {
        let Some(b) = self.operands.newest_bool() else {
            return Some(End::Stuck);
        };
        if (a as usize) >= code.instrs.len() {
            return Some(End::Stuck);
        }
        self.operands.drop_newest();
        if b {
            self.at += 1;
        } else {
            self.at = a as usize;
        }
        None
    }

    /// Spends a turn, and goes to an address.
    #[inline(always)]
    pub(super) fn back(&mut self, code: &Code, a: u32) -> Option<End>
        ensures step { (s : State) → ending_at s result self.new ≡ needs_address code.now a (spends (machine_at s self.old).turns (λ n. quiet (record (machine_at s self.old) { at = a; turns = n }))) }
        ensures kept { IfSome result (λ end. self.new ≡ self.old) }
        ensures layers { self.new.layers ≡ self.old.layers }
        ensures relations { self.new.relations ≡ self.old.relations }
    {
        if (a as usize) >= code.instrs.len() {
            return Some(End::Stuck);
        }
        if self.turns == 0 {
            return Some(End::Spent);
        }
        self.turns -= 1;
        self.at = a as usize;
        None
    }
}

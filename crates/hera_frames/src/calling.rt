//! Operands at calls: arguments that are moved to slots, and operands that wait until the frame goes on. None
//! of this takes memory.
ghost use Rattle.std.specs.Prelude.{◌≡◌, ◌≤◌, ◌+◌, ◌++◌, ◌∷◌, [], true, false, None, length, map, take, drop};
ghost use Rattle.std.specs.Vec.{vec_len, vec_capacity};
ghost use Rattle.hera_values.specs.Little.{plain_of};
ghost use Rattle.hera_frames.specs.Items.{held, held_in, AreHeld};
ghost use Rattle.hera_frames.specs.Calling.{IsNewestHeld, answered};

use crate::{Operand, Operands};
use hera_flat::Flat;
use hera_values::Datum;
use std::mem::swap;

impl Operands {
    /// How many operands there are.
    #[inline]
    #[tactic(auto, using(hera_fits::proofs::Stacks::newest_length))]
    pub fn len(&self) -> usize
        ensures { result ≡ length self.now.items }
    {
        self.items.len()
    }

    /// Whether the newest `n` operands are there, and none of them names a relation.
    #[inline]
    pub fn are_held(&self, n: usize) -> bool
        ensures there { result ≡ true → n ≤ length self.now.items }
        ensures held { result ≡ true → AreHeld (take n self.now.items) }
    {
        for i in 0..n {
            let Some(operand) = self.newest(i) else {
                return false;
            };
            if operand.is_named() {
                return false;
            }
        }
        true
    }

    /// Takes the newest operand off, which names no relation.
    #[inline]
    fn pop_held(&mut self) -> Datum
        requires { IsNewestHeld self.old.items }
        ensures { self.old.items ≡ held (plain_of result) ∷ self.new.items }
    {
        match self.pop() {
            Some(Operand::Held(v)) => v,
            Some(Operand::Named { .. }) => unreachable!(),
            None => unreachable!(),
        }
    }

    /// Moves the newest `n` operands to the end of a list, the newest one first.
    #[inline]
    pub(crate) fn move_newest(&mut self, to: &mut Vec<Datum>, n: usize)
        requires there { n ≤ length self.old.items }
        requires held { AreHeld (take n self.old.items) }
        requires place { vec_len to.old + n ≤ vec_capacity to.old }
        ensures moved { map plain_of to.new.items ≡ map plain_of to.old.items ++ map held_in (take n self.old.items) }
        ensures rest { self.new.items ≡ drop n self.old.items }
    {
        for _ in 0..n {
            to.push_reserved(self.pop_held());
        }
    }

    /// Leaves the operands to a frame that waits, whose own ones are dropped. Where there are none, the memory
    /// for further ones stays.
    #[inline]
    pub(crate) fn wait(&mut self, waiting: &mut Operands)
        ensures all { waiting.new.items ≡ self.old.items }
        ensures none { self.new.items ≡ [] }
    {
        if waiting.items.len() > 0 {
            waiting.items.clear();
        }
        if self.items.len() > 0 {
            swap(self, waiting);
        }
    }

    /// Goes on with operands that waited, and the answer upon them, in place of these, which are dropped. False,
    /// with all as before, where there is no place for the answer.
    #[inline]
    pub(crate) fn resume(&mut self, waiting: &mut Operands, answer: Option<Flat>) -> bool
        ensures back { result ≡ true → self.new.items ≡ answered answer ++ waiting.old.items }
        ensures kept { result ≡ false → self.new ≡ self.old }
        ensures kept_waiting { result ≡ false → waiting.new ≡ waiting.old }
        ensures none { answer ≡ None → result ≡ true }
    {
        if waiting.items.len() == 0 {
            return self.restart(answer);
        }
        if !waiting.push_answer(answer) {
            return false;
        }
        self.items.clear();
        swap(self, waiting);
        true
    }

    /// Drops the operands, and has the answer in place of them. False, with all as before, where there is no
    /// place for it.
    #[inline]
    fn restart(&mut self, answer: Option<Flat>) -> bool
        ensures done { result ≡ true → self.new.items ≡ answered answer }
        ensures kept { result ≡ false → self.new ≡ self.old }
        ensures none { answer ≡ None → result ≡ true }
    {
        match answer {
            None => {
                self.items.clear();
                true
            }
            Some(v) => {
                if self.items.capacity() == 0 {
                    return false;
                }
                self.items.clear();
                self.items.push_reserved(Operand::Held(Datum::of_flat(v)));
                true
            }
        }
    }

    /// Puts the answer upon the others. False, with all as before, where there is no place for it.
    #[inline]
    fn push_answer(&mut self, answer: Option<Flat>) -> bool
        ensures done { result ≡ true → self.new.items ≡ answered answer ++ self.old.items }
        ensures kept { result ≡ false → self.new ≡ self.old }
        ensures none { answer ≡ None → result ≡ true }
    {
        match answer {
            None => true,
            Some(v) => self.push_flat(v),
        }
    }
}

//! Frames that wait.
ghost use Rattle.std.specs.Prelude.{◌≡◌, ◌≢◌, ◌≤◌, ◌++◌, None, [], length, take, OnOk, OnErr, MatchOption};
ghost use Rattle.hera_frames.specs.Items.{AreHeld};
ghost use Rattle.hera_frames.specs.Calling.{IsBegun, answered};

use crate::Operands;
use crate::slots::begin;
use hera_code::BodyInfo;
use hera_flat::Flat;
use hera_reads::{Stack, Walk};
use hera_values::Locals;
use std::alloc::{AllocError, Global};
use std::mem::swap;

/// Where a frame goes on, and the layers under which it reads.
#[derive(Clone, Copy)]
pub struct Point {
    /// The address at which it goes on.
    pub at: usize,
    /// The number of the layer under which it reads.
    pub tip: usize,
    /// How many of the layers under which it reads it has pushed itself.
    pub own: usize,
    /// The number of the first layer that no frame below names.
    pub floor: usize,
    /// Whether a frame below may name a relation.
    pub names_below: bool,
}

/// A frame that waits: where it goes on, its operands, slots and walks.
#[derive(Drop)]
pub struct Frame {
    /// Where it goes on.
    pub point: Point,
    /// Its operands.
    pub operands: Operands,
    /// Its slots.
    pub locals: Locals,
    /// Its open walks.
    pub walks: Stack<Walk>,
}

impl Frame {
    /// A frame without operands, slots and walks. It takes no memory.
    pub(crate) fn idle(alloc: Global) -> Frame {
        Frame {
            point: Point {
                at: 0,
                tip: 0,
                own: 0,
                floor: 0,
                names_below: false,
            },
            operands: Operands::new(alloc),
            locals: Locals::new(alloc),
            walks: Stack::new(alloc),
        }
    }

    /// Becomes the frame that calls a body, with what is passed, and leaves there what the body starts with:
    /// its slots, no operands and no walks. It takes memory where this frame has less than the slots need. Without it
    /// what is passed is as before.
    pub(crate) fn call(
        &mut self,
        body: &BodyInfo,
        point: Point,
        operands: &mut Operands,
        locals: &mut Locals,
        walks: &mut Stack<Walk>,
    ) -> Result<(), AllocError>
        requires fit { body.now.params ≤ body.now.slots }
        requires there { body.now.params ≤ length operands.old.items }
        requires held { AreHeld (take body.now.params operands.old.items) }
        ensures begun { OnOk result (IsBegun body.now.params body.now.slots operands.old.items self.new.operands.items locals.new) }
        ensures point { OnOk result (self.new.point ≡ point) }
        ensures locals { OnOk result (self.new.locals ≡ locals.old) }
        ensures walks { OnOk result (self.new.walks ≡ walks.old) }
        ensures no_operands { OnOk result (operands.new.items ≡ []) }
        ensures no_walks { OnOk result (walks.new ≡ []) }
        ensures kept_operands { OnErr result (operands.new ≡ operands.old) }
        ensures kept_locals { OnErr result (locals.new ≡ locals.old) }
        ensures kept_walks { OnErr result (walks.new ≡ walks.old) }
    {
        begin(
            &mut self.locals,
            operands,
            body.params as usize,
            body.slots as usize,
        )?;
        self.wait(point, operands, locals, walks);
        Ok(())
    }

    /// Waits from now on, with what is passed. What it had is left there, but for operands and walks, which
    /// are dropped.
    #[inline]
    fn wait(
        &mut self,
        point: Point,
        operands: &mut Operands,
        locals: &mut Locals,
        walks: &mut Stack<Walk>,
    )
        ensures point { self.new.point ≡ point }
        ensures operands { self.new.operands.items ≡ operands.old.items }
        ensures locals { self.new.locals ≡ locals.old }
        ensures walks { self.new.walks ≡ walks.old }
        ensures no_operands { operands.new.items ≡ [] }
        ensures left { locals.new ≡ self.old.locals }
        ensures no_walks { walks.new ≡ [] }
    {
        operands.wait(&mut self.operands);
        swap(&mut self.locals, locals);
        self.walks.clear();
        swap(&mut self.walks, walks);
        self.point = point;
    }

    /// Goes on, in place of the frame that it has called, whose operands, slots and walks are passed: they
    /// are dropped, and its own ones are there from then on, with the answer upon the operands. None where
    /// there is no place for the answer; all is then as before. It takes no memory.
    #[inline]
    pub(crate) fn resume(
        &mut self,
        answer: Option<Flat>,
        operands: &mut Operands,
        locals: &mut Locals,
        walks: &mut Stack<Walk>,
    ) -> Option<Point>
        ensures point { MatchOption result (self.new ≡ self.old) (λ p. self.old.point ≡ p) }
        ensures operands { MatchOption result (operands.new ≡ operands.old) (λ p. operands.new.items ≡ answered answer ++ self.old.operands.items) }
        ensures locals { MatchOption result (locals.new ≡ locals.old) (λ p. locals.new ≡ self.old.locals) }
        ensures walks { MatchOption result (walks.new ≡ walks.old) (λ p. walks.new ≡ self.old.walks) }
        ensures refused { result ≡ None → answer ≢ None }
    {
        if !operands.resume(&mut self.operands, answer) {
            return None;
        }
        locals.clear();
        swap(&mut self.locals, locals);
        walks.clear();
        swap(&mut self.walks, walks);
        Some(self.point)
    }
}

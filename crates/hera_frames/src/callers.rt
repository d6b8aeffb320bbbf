//! Frames that wait, and the memory of those that have gone on.
ghost use Rattle.std.specs.Prelude.{◌≡◌, ◌≤◌, None, [], length, take, OnOk, OnErr, MatchOption};
ghost use Rattle.hera_frames.specs.Items.{AreHeld};
ghost use Rattle.hera_fits.specs.Newest.{newest};
ghost use Rattle.hera_frames.specs.Calling.{IsCalled, IsResumed, answered};

use crate::{Frame, Operands, Point};
use hera_code::BodyInfo;
use hera_flat::Flat;
use hera_reads::{Stack, Walk};
use hera_values::Locals;
use std::alloc::{AllocError, Global};
use std::marker::Model;

/// Frames that wait, seen with the newest first.
///
/// Behind them stand frames that don't wait any more. Their memory serves for later calls.
#[derive(Drop)]
pub struct Callers {
    frames: Vec<Frame>,
    /// How many of the frames wait, the first ones.
    count: usize,
}

impl Model for Callers {
    ghost use Rattle.std.specs.Prelude.{◌≤◌, List, take};
    ghost use Rattle.std.specs.Vec.{vec_len};
    ghost use Rattle.hera_fits.specs.Newest.{newest};
    ghost use Rattle.hera_frames.specs.declared.frames.Frame.{Frame};

    ghost Value = { List Frame };

    ghost view = { λ c. newest (λ f. f) (take c.count c.frames.items) };

    ghost invariant = { λ c. c.count ≤ vec_len c.frames };
}

impl Callers {
    /// No frames. It takes no memory.
    pub fn new(alloc: Global) -> Callers
        ensures { result ≡ [] }
    {
        Callers {
            frames: Vec::new(alloc),
            count: 0,
        }
    }

    /// Calls a body: the running frame, whose operands, slots and walks are passed, waits from now on at this
    /// point, and what the body starts with is left in their place. It takes memory where no earlier call left enough.
    /// Without it all is as before.
    #[tactic(auto, using(crate::proofs::Resting::rests))]
    #[inline]
    pub fn call(
        &mut self,
        alloc: Global,
        body: &BodyInfo,
        point: Point,
        operands: &mut Operands,
        locals: &mut Locals,
        walks: &mut Stack<Walk>,
    ) -> Result<(), AllocError>
        requires fit { body.now.params ≤ body.now.slots }
        requires there { body.now.params ≤ length operands.old.items }
        requires held { AreHeld (take body.now.params operands.old.items) }
        ensures called { OnOk result (IsCalled body.now point operands.old.items locals.old walks.old locals.new self.old self.new) }
        ensures no_operands { OnOk result (operands.new.items ≡ []) }
        ensures no_walks { OnOk result (walks.new ≡ []) }
        ensures kept { OnErr result (self.new ≡ self.old) }
        ensures kept_operands { OnErr result (operands.new ≡ operands.old) }
        ensures kept_locals { OnErr result (locals.new ≡ locals.old) }
        ensures kept_walks { OnErr result (walks.new ≡ walks.old) }
    {
        if self.count == self.frames.len() {
            self.frames.push(Frame::idle(alloc))?;
        }
        self.frames[self.count].call(body, point, operands, locals, walks)?;
        self.count += 1;
        Ok(())
    }

    /// Goes back: the newest frame that waits goes on at the point that is given, and what it had is there in
    /// place of the operands, slots and walks that are passed, which are dropped, with the answer upon the
    /// operands. None, with all as before, where no frame waits, or where there is no place for the answer.
    /// It takes no memory.
    #[tactic(auto, using(crate::proofs::Resting::rests))]
    #[inline]
    pub fn resume(
        &mut self,
        answer: Option<Flat>,
        operands: &mut Operands,
        locals: &mut Locals,
        walks: &mut Stack<Walk>,
    ) -> Option<Point>
        ensures resumed { MatchOption result (self.new ≡ self.old) (λ p. IsResumed (answered answer) p operands.new.items locals.new walks.new self.old self.new) }
        ensures kept_operands { result ≡ None → operands.new ≡ operands.old }
        ensures kept_locals { result ≡ None → locals.new ≡ locals.old }
        ensures kept_walks { result ≡ None → walks.new ≡ walks.old }
        ensures none { answer ≡ None → result ≡ None → self.old ≡ [] }
    {
        if self.count == 0 {
            return None;
        }
        let newest = self.count - 1;
        let point = self.frames[newest].resume(answer, operands, locals, walks)?;
        self.count = newest;
        Some(point)
    }

    /// The frames on a stack. It takes no memory.
    pub(crate) fn into_frames(self) -> Stack<Frame>
        ensures { result ≡ self }
    {
        let Callers { mut frames, count } = self;
        frames.truncate(count);
        Stack::of(frames)
    }

    /// The frames of a stack. It takes no memory.
    #[tactic(auto, using(crate::proofs::Resting::rests))]
    pub(crate) fn of(frames: Stack<Frame>) -> Callers
        ensures { result ≡ frames }
    {
        let frames = frames.into_items();
        let count = frames.len();
        Callers { frames, count }
    }
}

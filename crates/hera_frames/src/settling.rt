//! Names that are given up: what is named is collected before the pending delta changes, and layers that
//! nothing names are dropped.
ghost use Rattle.std.specs.Prelude.{◌≡◌, [], false, suc, min, max, map, OnOk, IfOk};
ghost use Rattle.when_overlay.specs.Changed.{after_all};
ghost use Rattle.hera_reads.specs.Branched.{lowest};
ghost use Rattle.hera_frames.specs.Items.{reach};
ghost use Rattle.hera_reads.specs.Walking.{settled, AreGiven, walks_reach};
ghost use Rattle.hera_frames.specs.Waiting.{poured, frame_settled};

use crate::{Callers, Frame, Operands};
use delta_atoms::Delta;
use hera_reads::{Changes, Stack, Walk};
use std::alloc::{AllocError, Global};
use when_overlay::Stored;

/// Puts all items of a stack upon another one, so that the newest comes first.
fn pour<T: Drop>(from: &mut Stack<T>, to: &mut Stack<T>) -> Result<(), AllocError>
    ensures poured { OnOk result (to.new ≡ poured from.old to.old) }
    ensures none { OnOk result (from.new ≡ []) }
{
    while let Some(item) = from.pop() {
        to.push(item)?;
    }
    Ok(())
}

/// Moves all walks to another stack, with the rows that are left of them.
fn settle_into(
    alloc: Global,
    walks: &mut Stack<Walk>,
    done: &mut Stack<Walk>,
    changes: &Changes,
    stored: &Stored<'_>,
) -> Result<(), AllocError>
    ensures done { OnOk result (done.new ≡ poured (map (settled stored.now.state changes.now.layers) walks.old) done.old) }
    ensures none { OnOk result (walks.new ≡ []) }
{
    while let Some(walk) = walks.pop() {
        done.push(walk.settle(alloc, changes, stored)?)?;
    }
    Ok(())
}

/// The walks with the rows that are left of them, collected where they name a relation.
pub fn settle_walks(
    alloc: Global,
    mut walks: Stack<Walk>,
    changes: &Changes,
    stored: &Stored<'_>,
) -> Result<Stack<Walk>, AllocError>
    ensures { IfOk result (λ ws. ws ≡ map (settled stored.now.state changes.now.layers) walks) }
{
    let mut done = Stack::new(alloc);
    settle_into(alloc, &mut walks, &mut done, changes, stored)?;
    pour(&mut done, &mut walks)?;
    Ok(walks)
}

/// The frame with rows in the place of all names.
fn settle_frame(
    alloc: Global,
    frame: Frame,
    changes: &Changes,
    stored: &Stored<'_>,
) -> Result<Frame, AllocError>
    ensures { IfOk result (λ f. f ≡ frame_settled stored.now.state changes.now.layers frame) }
{
    let Frame {
        mut point,
        operands,
        locals,
        walks,
    } = frame;
    point.names_below = false;
    Ok(Frame {
        point,
        operands: operands.settle(alloc, changes, stored)?,
        locals,
        walks: settle_walks(alloc, walks, changes, stored)?,
    })
}

/// Moves all frames to another stack, with rows in the place of all names.
fn settle_frames_into(
    alloc: Global,
    frames: &mut Stack<Frame>,
    done: &mut Stack<Frame>,
    changes: &Changes,
    stored: &Stored<'_>,
) -> Result<(), AllocError>
    ensures done { OnOk result (done.new ≡ poured (map (frame_settled stored.now.state changes.now.layers) frames.old) done.old) }
    ensures none { OnOk result (frames.new ≡ []) }
{
    while let Some(frame) = frames.pop() {
        done.push(settle_frame(alloc, frame, changes, stored)?)?;
    }
    Ok(())
}

/// The frames with rows in the place of all names.
pub fn settle_frames(
    alloc: Global,
    callers: Callers,
    changes: &Changes,
    stored: &Stored<'_>,
) -> Result<Callers, AllocError>
    ensures { IfOk result (λ fs. fs ≡ map (frame_settled stored.now.state changes.now.layers) callers) }
{
    let mut frames = callers.into_frames();
    let mut done = Stack::new(alloc);
    settle_frames_into(alloc, &mut frames, &mut done, changes, stored)?;
    pour(&mut done, &mut frames)?;
    Ok(Callers::of(frames))
}

/// Whether some walk names a relation.
#[inline]
pub fn any_named(walks: &Stack<Walk>) -> bool
    ensures { result ≡ false → AreGiven walks.now }
{
    for walk in walks.oldest_first() {
        if walk.is_named() {
            return true;
        }
    }
    false
}

/// How many of `most` layers have to be there, the oldest ones, for what the walks name.
fn reach_of(walks: &Stack<Walk>, most: usize) -> usize
    ensures { result ≡ min most (walks_reach walks.now) }
{
    let mut count: usize = 0;
    for walk in walks.oldest_first() {
        count = count.max(walk.reach(most));
    }
    count
}

/// Drops the newest layers that nothing names any more: neither the operands, nor the walks, nor a frame
/// that waits, all of whose layers are below the floor. The machine doesn't read under them. It takes no
/// memory.
pub fn release(changes: &mut Changes, floor: usize, operands: &Operands, walks: &Stack<Walk>)
    ensures { changes.new ≡ record changes.old { layers = lowest (max (max floor (suc changes.old.tip)) (max (reach operands.now.items) (walks_reach walks.now))) changes.old.layers } }
{
    let count = changes.len();
    if count <= floor || count == changes.tip() + 1 {
        return;
    }
    let named = operands.reach(count).max(reach_of(walks, count));
    changes.keep_lowest(named.max(floor));
}

//! A smash or a merge that is stored in a slot: both instructions at once. The slot's value goes before the operands are
//! joined, so that a delta which it lent to an operand is changed where it stands and not copied.
ghost use Rattle.std.specs.Prelude.{◌≡◌, ◌+◌, ◌<◌, ◌^◌, List, true, slice_get, IfSome, OnOk};
ghost use Rattle.std.specs.Option.{is_some};
ghost use Rattle.hera_meaning.specs.Fits.{arity};
ghost use Rattle.hera_meaning.specs.Hosts.{Hosts};
ghost use Rattle.hera_meaning.specs.declared.schemas.RelDecl.{RelDecl as PlainDecl};
ghost use Rattle.hera_code.specs.Machine.{quiet, on_some, answers};
ghost use Rattle.hera_frames.specs.Items.{are_deltas};
ghost use Rattle.hera_machine.specs.Pairs.{IsJoinAt, joins, behind, stored_in};
ghost use Rattle.hera_machine.specs.Standing.{GoesOn};
ghost use Rattle.hera_steps.specs.Working.{machine_at};

use hera_code::{Code, Instr};
use hera_meaning::Op;
use hera_steps::Running;
use hera_values::{Datum, let_go};
use std::alloc::AllocError;
use when_overlay::Stored;

/// Whether the operation is one that joins two deltas.
fn joins(op: &Op) -> bool
    ensures { result ≡ joins op.now }
{
    match op {
        Op::Smash => true,
        Op::Merge => true,
        _ => false,
    }
}

/// The smash or merge at hand, with its offset and the slot that the next instruction stores what it gives in, where the
/// two newest operands are deltas and the slot is there.
fn joined_at<'k>(work: &Running<'_>, code: &'k Code) -> Option<(&'k Op, u32, u32)>
    ensures { IfSome result (λ p. IsJoinAt code.entry.now work.now p.0.now p.1 p.2) }
{
    // for the proof alone: addresses of code are below 2^64 - 1
    let _len = code.instrs.len();
    let Some(Instr::Prim(op, at)) = code.instrs.get(work.at) else {
        return None;
    };
    let Some(Instr::Store(i)) = code.instrs.get(work.at + 1) else {
        return None;
    };
    if !joins(op) || !work.operands.are_deltas() || !work.locals.has(*i as usize) {
        return None;
    }
    Some((op, *at, *i))
}

/// Executes the instruction at hand and the next one, if these join two deltas and store what they give. Without memory
/// the machine is given up.
pub(crate) fn join(
    work: &mut Running<'_>,
    code: &Code,
    stored: &Stored<'_>,
) -> Result<(), AllocError>
    ensures goes { (rels : List PlainDecl) → (hosts : Hosts) → let s = stored.now.state in OnOk result (GoesOn 0 code.now rels hosts s (machine_at s work.old) (machine_at s work.new)) }
    ensures layers { work.new.layers ≡ work.old.layers }
    ensures relations { work.new.relations ≡ work.old.relations }
{
    // for the proof alone: addresses of code are below 2^64 - 1
    let _len = code.instrs.len();
    match joined_at(work, code) {
        None => Ok(()),
        Some((op, at, i)) => {
            join_into(work, stored, op, at, i)?;
            Ok(())
        }
    }
}

/// Joins the two newest operands, and puts what they give into a slot.
fn join_into(
    work: &mut Running<'_>,
    stored: &Stored<'_>,
    op: &Op,
    at: u32,
    i: u32,
) -> Result<(), AllocError>
    requires next { work.old.at + 2 < 2 ^ 64 }
    requires op { joins op.now ≡ true }
    requires deltas { are_deltas work.old.operands ≡ true }
    requires slot { is_some (slice_get work.old.locals i) ≡ true }
    ensures done { let s = stored.now.state in OnOk result (quiet (machine_at s work.new) ≡ behind (stored_in i) (on_some (arity op.now) (machine_at s work.old).operands (λ args vs. answers at op.now args vs (machine_at s work.old)))) }
    ensures layers { work.new.layers ≡ work.old.layers }
    ensures relations { work.new.relations ≡ work.old.relations }
{
    let _ = work.locals.put(i as usize, Datum::Int(0));
    let_go(work.compute(stored, op, at)?);
    let_go(work.store(stored, i)?);
    Ok(())
}

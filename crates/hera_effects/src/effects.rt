//! What each instruction makes of what is known.
ghost use Rattle.std.specs.Prelude.{◌≡◌, ◌+◌, ◌<◌, ◌^◌, ℕ, [], IfOk, Some, true, take, slice_get};
ghost use Rattle.std.specs.Option.{option_map, option_copied};
ghost use Rattle.hera_meaning.specs.Forms.{kinds_of};
ghost use Rattle.hera_meaning.specs.Shapes.{form_if, kinds_if};
ghost use Rattle.hera_meaning.specs.Fits.{arity as plain_arity};
ghost use Rattle.hera_typed.specs.Points.{Point, Cut as PlainCut, cut as plain_cut, with, when, all_agree as plain_all_agree};
ghost use Rattle.hera_typed.specs.Notes.{body_note, notes_of};
ghost use Rattle.hera_typed.specs.Effects.{Slot_note, slot, slot_forms, goes, pushed_result, with_operands as plain_with_operands, gathered_by, effect};
ghost use Rattle.hera_host.specs.Tables.{specs_of};
ghost use Rattle.hera_stacks.specs.Flat.{flat_form, flat_kinds};
ghost use Rattle.hera_stacks.specs.Stacked.{Grows};
ghost use Rattle.hera_effects.specs.Spots.{IsSpot};
ghost use Rattle.hera_effects.specs.Ways.{Both, AreWays};
ghost use Rattle.hera_effects.specs.Plain.{is_plain};
ghost use Rattle.hera_effects.specs.Operations.{IsCut};

use crate::cuts::{Cut, call_off, cut_off};
use crate::moves::{move_on, push_if};
use crate::plain::{Around, plain_of, slot_of};
use crate::prims::seen_by;
use crate::spots::{Spot, Ways};
use crate::walks::{drop_walk, enter, gather, keep, leave, next_tuple, on, open_walk, yield_walk};
use hera_code::Instr;
use hera_fits::{arity, is_good_op};
use hera_meaning::{Op, Schema};
use hera_stacks::{FlatForm, Kinds, Node, Stacks, form_of, kinds_of, no_kinds};
use hera_typed::{BodyNote, Notes, SlotNote};
use std::alloc::{AllocError, Global};

/// The operands of the spot replaced.
fn with_operands(spot: Spot, operands: u32) -> Spot
    ensures operands { result.operands ≡ operands }
    ensures walks { result.walks ≡ spot.walks }
    ensures layers { result.layers ≡ spot.layers }
{
    Spot {
        operands,
        walks: spot.walks,
        layers: spot.layers,
    }
}

/// An operation on operands that were taken.
fn prim_on(
    alloc: Global,
    around: &Around,
    stacks: &mut Stacks,
    op: &Op,
    spot: Spot,
    next: u32,
    taken: &Cut,
) -> Result<Option<Ways>, AllocError>
    ensures grows { Grows stacks.old stacks.new }
    ensures effect { (k a at : ℕ) → (p : Point) → next ≡ a + 1 → IsSpot stacks.old spot p → Both (IsCut stacks.old) (Some taken.now) (plain_cut (plain_arity op.now) [] p.operands) → IfOk result (λ r. Both (AreWays stacks.new) r (effect around.now.code.now around.now.relations.now (specs_of around.now.hosts.now.names) (notes_of around.now.notes.now) k a (Instr.Prim op.now at) p)) }
{
    if !is_good_op(op) {
        return Ok(None);
    }
    let Some(seen) = seen_by(alloc, around.relations, op, &taken.args)? else {
        return Ok(None);
    };
    let operands = stacks.with(Node {
        seen,
        gathers: no_kinds(),
        below: taken.rest,
    })?;
    Ok(Some(on(next, with_operands(spot, operands))))
}

/// An operation.
fn prim(
    alloc: Global,
    around: &Around,
    stacks: &mut Stacks,
    op: &Op,
    spot: Spot,
    next: u32,
) -> Result<Option<Ways>, AllocError>
    ensures grows { Grows stacks.old stacks.new }
    ensures effect { (k a at : ℕ) → (p : Point) → next ≡ a + 1 → IsSpot stacks.old spot p → IfOk result (λ r. Both (AreWays stacks.new) r (effect around.now.code.now around.now.relations.now (specs_of around.now.hosts.now.names) (notes_of around.now.notes.now) k a (Instr.Prim op.now at) p)) }
{
    let Some(taken) = cut_off(alloc, stacks, spot.operands, arity(op))? else {
        return Ok(None);
    };
    prim_on(alloc, around, stacks, op, spot, next, &taken)
}

/// The form of a body's result, where it has one.
fn result_form(note: &BodyNote) -> Result<Option<FlatForm>, AllocError>
    ensures { IfOk result (λ form. form ≡ option_map flat_form (form_if note.now.result)) }
{
    match &note.result {
        Some(shape) => Ok(Some(form_of(shape)?)),
        None => Ok(None),
    }
}

/// A call of a body that is not main, with as many parameters as there are operands.
fn call_with(
    stacks: &mut Stacks,
    note: &BodyNote,
    params: usize,
    spot: Spot,
    next: u32,
) -> Result<Option<Ways>, AllocError>
    ensures grows { Grows stacks.old stacks.new }
    ensures goes { (p : Point) → IsSpot stacks.old spot p → IfOk result (λ r. Both (AreWays stacks.new) r (with (plain_cut params [] p.operands) (λ c. when (plain_all_agree c.args (take params (slot_forms (body_note note.now).slots))) (goes next (plain_with_operands (pushed_result (body_note note.now).result c.rest) p))))) }
{
    let Some(rest) = call_off(stacks, note, spot.operands, params)? else {
        return Ok(None);
    };
    let operands = push_if(stacks, rest, result_form(note)?)?;
    Ok(Some(on(next, with_operands(spot, operands))))
}

/// A call.
fn call(
    around: &Around,
    stacks: &mut Stacks,
    j: u32,
    spot: Spot,
    next: u32,
) -> Result<Option<Ways>, AllocError>
    ensures grows { Grows stacks.old stacks.new }
    ensures effect { (k a : ℕ) → (p : Point) → next ≡ a + 1 → IsSpot stacks.old spot p → IfOk result (λ r. Both (AreWays stacks.new) r (effect around.now.code.now around.now.relations.now (specs_of around.now.hosts.now.names) (notes_of around.now.notes.now) k a (Instr.Call j) p)) }
{
    if j == 0 {
        return Ok(None);
    }
    let Some(body) = around.code.bodies.get(j as usize) else {
        return Ok(None);
    };
    match around.notes.bodies.get(j as usize) {
        Some(note) => call_with(stacks, note, body.params as usize, spot, next),
        None => Ok(None),
    }
}

/// The form of a slot of a body.
fn slot_form(notes: &Notes, k: usize, i: u32) -> Result<Option<FlatForm>, AllocError>
    ensures { IfOk result (λ form. form ≡ option_map flat_form (option_map (λ (n : Slot_note). n.form) (slot (notes_of notes.now) k i))) }
{
    match slot_of(notes, k, i) {
        Some(note) => Ok(Some(form_of(&note.shape)?)),
        None => Ok(None),
    }
}

/// The next tuple of a walk.
fn next_of(
    around: &Around,
    stacks: &Stacks,
    k: usize,
    i: u32,
    to: u32,
    spot: Spot,
    next: u32,
) -> Result<Option<Ways>, AllocError>
    ensures { (a : ℕ) → (p : Point) → next ≡ a + 1 → IsSpot stacks.now spot p → IfOk result (λ r. Both (AreWays stacks.now) r (effect around.now.code.now around.now.relations.now (specs_of around.now.hosts.now.names) (notes_of around.now.notes.now) k a (Instr.Next i to) p)) }
{
    let form = slot_form(around.notes, k, i)?;
    Ok(next_tuple(stacks, spot, form, next, to))
}

/// The schema of what a walk into a slot gathers.
fn schema_of(note: &SlotNote) -> Option<&Schema>
    ensures { option_map kinds_of (option_copied result) ≡ kinds_if note.now.gathers }
{
    match &note.gathers {
        Some(schema) => Some(schema),
        None => None,
    }
}

/// The schema of what the walk gathers whose next tuple the instruction takes.
fn gathered_in<'a>(notes: &'a Notes, k: usize, instr: &Instr) -> Option<&'a Schema>
    ensures { option_map kinds_of (option_copied result) ≡ gathered_by (notes_of notes.now) k (Some instr.now) }
{
    match instr {
        Instr::Next(i, _) => match slot_of(notes, k, *i) {
            Some(note) => schema_of(note),
            None => None,
        },
        _ => None,
    }
}

/// The schema of what the walk gathers whose next tuple the instruction at an address of a body takes.
pub fn gathered_at<'a>(around: &Around<'a>, k: usize, at: usize) -> Option<&'a Schema>
    ensures { option_map kinds_of (option_copied result) ≡ gathered_by (notes_of around.now.notes.now) k (slice_get around.now.code.now.instrs at) }
{
    match around.code.instrs.get(at) {
        Some(instr) => gathered_in(around.notes, k, instr),
        None => None,
    }
}

/// The kinds that the walk gathers whose next tuple the instruction at an address of a body takes.
fn gathered_kinds(around: &Around, k: usize, at: usize) -> Result<Option<Kinds>, AllocError>
    ensures { IfOk result (λ kinds. kinds ≡ option_map flat_kinds (gathered_by (notes_of around.now.notes.now) k (slice_get around.now.code.now.instrs at))) }
{
    match gathered_at(around, k, at) {
        Some(schema) => Ok(Some(kinds_of(schema)?)),
        None => Ok(None),
    }
}

/// A walk opened.
fn walk(
    around: &Around,
    stacks: &mut Stacks,
    k: usize,
    a: usize,
    spot: Spot,
    next: u32,
) -> Result<Option<Ways>, AllocError>
    requires { next ≡ a + 1 }
    ensures grows { Grows stacks.old stacks.new }
    ensures effect { (p : Point) → IsSpot stacks.old spot p → IfOk result (λ r. Both (AreWays stacks.new) r (effect around.now.code.now around.now.relations.now (specs_of around.now.hosts.now.names) (notes_of around.now.notes.now) k a Instr.Walk p)) }
{
    let gathers = gathered_kinds(around, k, next as usize)?;
    open_walk(stacks, spot, gathers, next)
}

/// A plain instruction.
fn plainly(
    around: &Around,
    stacks: &mut Stacks,
    k: usize,
    a: usize,
    instr: &Instr,
    spot: Spot,
) -> Result<Option<Ways>, AllocError>
    requires { a + 1 < 2 ^ 32 }
    ensures grows { Grows stacks.old stacks.new }
    ensures effect { (p : Point) → is_plain instr.now ≡ true → IsSpot stacks.old spot p → IfOk result (λ r. Both (AreWays stacks.new) r (effect around.now.code.now around.now.relations.now (specs_of around.now.hosts.now.names) (notes_of around.now.notes.now) k a instr.now p)) }
{
    match plain_of(around, k, a, instr)? {
        Some(plain) => move_on(stacks, spot, plain),
        None => Ok(None),
    }
}

/// Where the instruction at an address of body k goes on from what is known there, and what is known then. None where
/// it doesn't find what it needs.
pub fn effect(
    alloc: Global,
    around: &Around,
    stacks: &mut Stacks,
    k: usize,
    a: usize,
    instr: &Instr,
    spot: Spot,
) -> Result<Option<Ways>, AllocError>
    requires { a + 1 < 2 ^ 32 }
    ensures grows { Grows stacks.old stacks.new }
    ensures effect { (p : Point) → IsSpot stacks.old spot p → IfOk result (λ r. Both (AreWays stacks.new) r (effect around.now.code.now around.now.relations.now (specs_of around.now.hosts.now.names) (notes_of around.now.notes.now) k a instr.now p)) }
{
    let next = a as u32 + 1;
    match instr {
        Instr::Prim(op, _) => prim(alloc, around, stacks, op, spot, next),
        Instr::Call(j) => call(around, stacks, *j, spot, next),
        Instr::Walk => walk(around, stacks, k, a, spot, next),
        Instr::Next(i, to) => next_of(around, stacks, k, *i, *to, spot, next),
        Instr::Enter(_) => enter(stacks, spot, next),
        Instr::Leave => Ok(leave(spot, next)),
        Instr::Keep => Ok(keep(stacks, spot, next)),
        Instr::Gather => Ok(gather(stacks, spot, next)),
        Instr::Yield => yield_walk(stacks, spot, next),
        Instr::Drop => Ok(drop_walk(stacks, spot, next)),
        _ => plainly(around, stacks, k, a, instr, spot),
    }
}

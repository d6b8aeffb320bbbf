//! Operands of operations and calls, as lists.
ghost use Rattle.std.specs.Prelude.{◌≡◌, ◌∷◌, [], List, IfOk, map};
ghost use Rattle.hera_meaning.specs.Forms.{kinds_of, of_scalar};
ghost use Rattle.hera_typed.specs.Points.{Seen, cut};
ghost use Rattle.hera_typed.specs.Effects.{slot_forms};
ghost use Rattle.hera_typed.specs.Notes.{body_note};
ghost use Rattle.hera_stacks.specs.Flat.{flat_form};
ghost use Rattle.hera_stacks.specs.Stacked.{AreOperands};
ghost use Rattle.hera_effects.specs.Ways.{Both};
ghost use Rattle.hera_effects.specs.Operations.{IsCut, called_off, flat_agrees, flat_all_agree, flat_tuples, one_of, two_of};

use crate::moves::{agrees, take};
use hera_meaning::Schema;
use hera_stacks::{FlatForm, FlatSeen, Stacks, form_of};
use hera_typed::BodyNote;
use std::alloc::{AllocError, Global};

/// Operands that were taken, the oldest first, and the number of the others.
#[derive(Drop)]
pub(crate) struct Cut {
    pub args: Vec<FlatSeen>,
    pub rest: u32,
}

/// So many operands, where there are as many.
pub(crate) fn cut_off(
    alloc: Global,
    stacks: &Stacks,
    operands: u32,
    count: usize,
) -> Result<Option<Cut>, AllocError>
    ensures { (ss : List Seen) → AreOperands stacks.now operands ss → IfOk result (λ r. Both (IsCut stacks.now) r (cut count [] ss)) }
{
    let mut args = Vec::new(alloc);
    let mut rest = operands;
    for i in 0..count {
        let Some(node) = stacks.first(rest) else {
            return Ok(None);
        };
        args.push(node.seen)?;
        rest = node.below;
    }
    args.reverse();
    Ok(Some(Cut { args, rest }))
}

/// Whether there are as many operands as forms, each agreeing with its own.
pub(crate) fn all_agree(args: &[FlatSeen], forms: &[FlatForm]) -> bool
    ensures { result ≡ flat_all_agree args.now forms.now }
{
    if args.len() != forms.len() {
        return false;
    }
    for i in 0..args.len() {
        if !agrees(args[i], forms[i]) {
            return false;
        }
    }
    true
}

/// Whether each operand agrees with the form.
pub(crate) fn all_of(args: &[FlatSeen], form: FlatForm) -> bool
    ensures { result ≡ flat_tuples args.now form }
{
    args.iter().all(|seen| agrees(*seen, form))
}

/// The only operand.
pub(crate) fn one(args: &[FlatSeen]) -> Option<FlatSeen>
    ensures { result ≡ one_of args.now }
{
    if args.len() == 1 { Some(args[0]) } else { None }
}

/// The only two operands.
pub(crate) fn two(args: &[FlatSeen]) -> Option<(FlatSeen, FlatSeen)>
    ensures { result ≡ two_of args.now }
{
    if args.len() == 2 {
        Some((args[0], args[1]))
    } else {
        None
    }
}

/// The forms of a schema's attributes.
pub(crate) fn attr_forms(alloc: Global, schema: &Schema) -> Result<Vec<FlatForm>, AllocError>
    ensures { IfOk result (λ forms. forms.items ≡ map flat_form (map of_scalar (kinds_of schema.now))) }
{
    let mut forms = Vec::new(alloc);
    for i in 0..schema.len() {
        forms.push(FlatForm::Scalar(schema.attr(i).kind))?;
    }
    Ok(forms)
}

/// The operands without a body's arguments, of which the newest is the last, where each agrees with the form of its own
/// slot. It takes no memory.
pub(crate) fn call_off(
    stacks: &Stacks,
    note: &BodyNote,
    operands: u32,
    count: usize,
) -> Result<Option<u32>, AllocError>
    ensures { (ss : List Seen) → AreOperands stacks.now operands ss → IfOk result (λ r. Both (AreOperands stacks.now) r (called_off count (slot_forms (body_note note.now).slots) ss)) }
{
    if note.slots.len() < count {
        return Ok(None);
    }
    let mut rest = operands;
    for i in 0..count {
        let form = form_of(&note.slots[count - 1 - i].shape)?;
        let Some(below) = take(stacks, rest, form) else {
            return Ok(None);
        };
        rest = below;
    }
    Ok(Some(rest))
}

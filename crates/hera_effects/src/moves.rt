//! Operands taken and pushed, and what plain instructions make of what is known.
ghost use Rattle.std.specs.Prelude.{◌≡◌, List, Option, IfOk, IsTrue, Some};
ghost use Rattle.std.specs.Option.{option_map};
ghost use Rattle.hera_meaning.specs.Forms.{Form};
ghost use Rattle.hera_typed.specs.Points.{Seen, Point, is_table, agrees};
ghost use Rattle.hera_typed.specs.Effects.{pushed_result};
ghost use Rattle.hera_stacks.specs.Flat.{flat_form, flat_seen};
ghost use Rattle.hera_stacks.specs.Stacked.{AreOperands, Grows};
ghost use Rattle.hera_effects.specs.Spots.{IsSpot};
ghost use Rattle.hera_effects.specs.Ways.{Both, AreWays};
ghost use Rattle.hera_effects.specs.Plain.{Plain_effect, IsPlain, taken, moved};
ghost use Rattle.hera_effects.specs.Operations.{is_flat_table, flat_agrees};

use crate::plain::Plain;
use crate::spots::{Spot, Ways};
use hera_stacks::{FlatForm, FlatSeen, Node, Stacks, no_kinds, same_form};
use std::alloc::AllocError;

/// Whether the form is that of relations.
pub(crate) fn is_table(form: FlatForm) -> bool
    ensures plain { (f : Form) → form ≡ flat_form f → result ≡ is_table f }
    ensures flat { result ≡ is_flat_table form }
{
    match form {
        FlatForm::Table(_) => true,
        _ => false,
    }
}

/// Whether what is known agrees with the form.
pub(crate) fn agrees(seen: FlatSeen, form: FlatForm) -> bool
    ensures plain { (s : Seen) → (f : Form) → seen ≡ flat_seen s → form ≡ flat_form f → result ≡ agrees s f }
    ensures flat { result ≡ flat_agrees seen form }
{
    match seen {
        FlatSeen::Known(own) => same_form(own, form),
        FlatSeen::NoRows => is_table(form),
    }
}

/// The operands without the newest, which is of this form.
pub(crate) fn take(stacks: &Stacks, operands: u32, form: FlatForm) -> Option<u32>
    ensures { (ss : List Seen) → (f : Form) → AreOperands stacks.now operands ss → form ≡ flat_form f → Both (AreOperands stacks.now) result (taken (Some f) ss) }
{
    let Some(node) = stacks.first(operands) else {
        return None;
    };
    if agrees(node.seen, form) {
        Some(node.below)
    } else {
        None
    }
}

/// The operands without the newest, which is of this form, or all where none is asked for.
fn take_if(stacks: &Stacks, operands: u32, form: Option<FlatForm>) -> Option<u32>
    ensures { (ss : List Seen) → (f : Option Form) → AreOperands stacks.now operands ss → form ≡ option_map flat_form f → Both (AreOperands stacks.now) result (taken f ss) }
{
    match form {
        Some(form) => take(stacks, operands, form),
        None => Some(operands),
    }
}

/// The operands with one of this form, or as they are.
pub(crate) fn push_if(
    stacks: &mut Stacks,
    operands: u32,
    form: Option<FlatForm>,
) -> Result<u32, AllocError>
    ensures grows { Grows stacks.old stacks.new }
    ensures pushed { (ss : List Seen) → (f : Option Form) → AreOperands stacks.old operands ss → form ≡ option_map flat_form f → IfOk result (λ list. AreOperands stacks.new list (pushed_result f ss)) }
{
    match form {
        None => Ok(operands),
        Some(form) => stacks.with(Node {
            seen: FlatSeen::Known(form),
            gathers: no_kinds(),
            below: operands,
        }),
    }
}

/// What a plain instruction makes of what is known.
pub(crate) fn move_on(
    stacks: &mut Stacks,
    spot: Spot,
    plain: Plain,
) -> Result<Option<Ways>, AllocError>
    ensures grows { Grows stacks.old stacks.new }
    ensures moved { (p : Point) → (e : Plain_effect) → IsSpot stacks.old spot p → IsPlain plain e → IfOk result (λ r. Both (AreWays stacks.new) r (moved p e)) }
{
    let Some(rest) = take_if(stacks, spot.operands, plain.takes) else {
        return Ok(None);
    };
    let operands = push_if(stacks, rest, plain.gives)?;
    Ok(Some(Ways {
        first: plain.first,
        second: plain.second,
        point: Some(Spot {
            operands,
            walks: spot.walks,
            layers: spot.layers,
        }),
    }))
}

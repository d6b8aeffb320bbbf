//! Instructions that look at open walks, or at layers.
ghost use Rattle.std.specs.Prelude.{◌≡◌, ◌+◌, ◌∷◌, [], List, Option, ℕ, IfOk, Some};
ghost use Rattle.std.specs.Option.{option_map};
ghost use Rattle.hera_meaning.specs.declared.scalars.Kind.{Kind as PlainKind};
ghost use Rattle.hera_meaning.specs.declared.schemas.RelDecl.{RelDecl};
ghost use Rattle.hera_meaning.specs.Forms.{Form};
ghost use Rattle.hera_meaning.specs.Hosts.{Hosts};
ghost use Rattle.hera_code.specs.declared.instrs.Code.{Code};
ghost use Rattle.hera_typed.specs.Points.{Seen, Point, with, when, first};
ghost use Rattle.hera_typed.specs.Effects.{Body_note, effect, is_relation, walks_into, goes_or, opened_point};
ghost use Rattle.hera_stacks.specs.declared.stacks.Node.{Node as PlainNode};
ghost use Rattle.hera_stacks.specs.Flat.{flat_form, flat_kinds, flat_seen};
ghost use Rattle.hera_stacks.specs.Stacked.{Grows};
ghost use Rattle.hera_effects.specs.Spots.{IsSpot};
ghost use Rattle.hera_effects.specs.Ways.{Both, AreWays};

use crate::moves::{agrees, take};
use crate::spots::{Spot, Ways};
use hera_code::Instr;
use hera_meaning::Kind;
use hera_stacks::{FlatForm, FlatSeen, Kinds, Node, Stacks, no_kinds};
use std::alloc::AllocError;

/// On to one address.
pub(crate) fn on(next: u32, spot: Spot) -> Ways
    ensures first { result.first ≡ Some next }
    ensures second { result.second ≡ None }
    ensures point { result.point ≡ Some spot }
{
    Ways {
        first: Some(next),
        second: None,
        point: Some(spot),
    }
}

/// A layer more, of the newest operand.
pub(crate) fn enter(stacks: &Stacks, spot: Spot, next: u32) -> Result<Option<Ways>, AllocError>
    ensures { (code : Code) → (rels : List RelDecl) → (hosts : Hosts) → (notes : List Body_note) → (k a at : ℕ) → (p : Point) → next ≡ a + 1 → IsSpot stacks.now spot p → IfOk result (λ r. Both (AreWays stacks.now) r (effect code rels hosts notes k a (Instr.Enter at) p)) }
{
    let Some(operands) = take(stacks, spot.operands, FlatForm::Delta) else {
        return Ok(None);
    };
    let Some(layers) = spot.layers.checked_add(1) else {
        return Err(AllocError);
    };
    Ok(Some(on(
        next,
        Spot {
            operands,
            walks: spot.walks,
            layers,
        },
    )))
}

/// A layer less.
pub(crate) fn leave(spot: Spot, next: u32) -> Option<Ways>
    ensures { (nodes : List PlainNode) → (code : Code) → (rels : List RelDecl) → (hosts : Hosts) → (notes : List Body_note) → (k a : ℕ) → (p : Point) → next ≡ a + 1 → IsSpot nodes spot p → Both (AreWays nodes) result (effect code rels hosts notes k a Instr.Leave p) }
{
    if spot.layers == 0 {
        return None;
    }
    Some(on(
        next,
        Spot {
            operands: spot.operands,
            walks: spot.walks,
            layers: spot.layers - 1,
        },
    ))
}

/// The newest walk closed.
pub(crate) fn drop_walk(stacks: &Stacks, spot: Spot, next: u32) -> Option<Ways>
    ensures { (code : Code) → (rels : List RelDecl) → (hosts : Hosts) → (notes : List Body_note) → (k a : ℕ) → (p : Point) → next ≡ a + 1 → IsSpot stacks.now spot p → Both (AreWays stacks.now) result (effect code rels hosts notes k a Instr.Drop p) }
{
    let Some(walk) = stacks.first(spot.walks) else {
        return None;
    };
    Some(on(
        next,
        Spot {
            operands: spot.operands,
            walks: walk.below,
            layers: spot.layers,
        },
    ))
}

/// Whether a tuple of what is walked may be written where values of this form stand.
fn walks_into(over: FlatSeen, form: FlatForm) -> bool
    ensures { (s : Seen) → (f : Form) → over ≡ flat_seen s → form ≡ flat_form f → result ≡ walks_into s f }
{
    match form {
        FlatForm::Tuple(kinds) => agrees(over, FlatForm::Table(kinds)),
        _ => false,
    }
}

/// The next tuple of the newest walk goes into a slot of this form, or there is none left.
pub(crate) fn next_tuple(
    stacks: &Stacks,
    spot: Spot,
    form: Option<FlatForm>,
    next: u32,
    to: u32,
) -> Option<Ways>
    ensures { (p : Point) → (f : Option Form) → IsSpot stacks.now spot p → form ≡ option_map flat_form f → Both (AreWays stacks.now) result (first p.walks (λ w ws. with f (λ g. when (walks_into w.over g) (goes_or next to p)))) }
{
    let Some(walk) = stacks.first(spot.walks) else {
        return None;
    };
    match form {
        Some(form) => {
            if walks_into(walk.seen, form) {
                Some(Ways {
                    first: Some(next),
                    second: Some(to),
                    point: Some(spot),
                })
            } else {
                None
            }
        }
        None => None,
    }
}

/// The newest operand, a bool, tells whether the walk's tuple is gathered.
pub(crate) fn keep(stacks: &Stacks, spot: Spot, next: u32) -> Option<Ways>
    ensures { (code : Code) → (rels : List RelDecl) → (hosts : Hosts) → (notes : List Body_note) → (k a : ℕ) → (p : Point) → next ≡ a + 1 → IsSpot stacks.now spot p → Both (AreWays stacks.now) result (effect code rels hosts notes k a Instr.Keep p) }
{
    let Some(walk) = stacks.first(spot.walks) else {
        return None;
    };
    let Some(operands) = take(stacks, spot.operands, FlatForm::Scalar(Kind::Bool)) else {
        return None;
    };
    if !agrees(walk.seen, FlatForm::Table(walk.gathers)) {
        return None;
    }
    Some(on(
        next,
        Spot {
            operands,
            walks: spot.walks,
            layers: spot.layers,
        },
    ))
}

/// The newest operand, a tuple, is gathered.
pub(crate) fn gather(stacks: &Stacks, spot: Spot, next: u32) -> Option<Ways>
    ensures { (code : Code) → (rels : List RelDecl) → (hosts : Hosts) → (notes : List Body_note) → (k a : ℕ) → (p : Point) → next ≡ a + 1 → IsSpot stacks.now spot p → Both (AreWays stacks.now) result (effect code rels hosts notes k a Instr.Gather p) }
{
    let Some(walk) = stacks.first(spot.walks) else {
        return None;
    };
    let Some(operands) = take(stacks, spot.operands, FlatForm::Tuple(walk.gathers)) else {
        return None;
    };
    Some(on(
        next,
        Spot {
            operands,
            walks: spot.walks,
            layers: spot.layers,
        },
    ))
}

/// The newest walk closed, and what it gathered pushed.
pub(crate) fn yield_walk(
    stacks: &mut Stacks,
    spot: Spot,
    next: u32,
) -> Result<Option<Ways>, AllocError>
    ensures grows { Grows stacks.old stacks.new }
    ensures effect { (code : Code) → (rels : List RelDecl) → (hosts : Hosts) → (notes : List Body_note) → (k a : ℕ) → (p : Point) → next ≡ a + 1 → IsSpot stacks.old spot p → IfOk result (λ r. Both (AreWays stacks.new) r (effect code rels hosts notes k a Instr.Yield p)) }
{
    let Some(walk) = stacks.first(spot.walks) else {
        return Ok(None);
    };
    let operands = stacks.with(Node {
        seen: FlatSeen::Known(FlatForm::Table(walk.gathers)),
        gathers: no_kinds(),
        below: spot.operands,
    })?;
    Ok(Some(on(
        next,
        Spot {
            operands,
            walks: walk.below,
            layers: spot.layers,
        },
    )))
}

/// Whether it is known to be a relation.
fn is_relation(seen: FlatSeen) -> bool
    ensures { (s : Seen) → seen ≡ flat_seen s → result ≡ is_relation s }
{
    match seen {
        FlatSeen::Known(FlatForm::Table(_)) => true,
        FlatSeen::Known(_) => false,
        FlatSeen::NoRows => true,
    }
}

/// A walk over the newest operand, which gathers tuples of these kinds. No point will do where nothing says which.
pub(crate) fn open_walk(
    stacks: &mut Stacks,
    spot: Spot,
    gathers: Option<Kinds>,
    next: u32,
) -> Result<Option<Ways>, AllocError>
    ensures grows { Grows stacks.old stacks.new }
    ensures opened { (p : Point) → (ks : Option (List PlainKind)) → IsSpot stacks.old spot p → gathers ≡ option_map flat_kinds ks → IfOk result (λ r. Both (AreWays stacks.new) r (first p.operands (λ s ss. when (is_relation s) (Some (record { to = next; point = opened_point s ss p ks } ∷ []))))) }
{
    let Some(node) = stacks.first(spot.operands) else {
        return Ok(None);
    };
    if !is_relation(node.seen) {
        return Ok(None);
    }
    let Some(kinds) = gathers else {
        return Ok(Some(Ways {
            first: Some(next),
            second: None,
            point: None,
        }));
    };
    let walks = stacks.with(Node {
        seen: node.seen,
        gathers: kinds,
        below: spot.walks,
    })?;
    Ok(Some(on(
        next,
        Spot {
            operands: node.below,
            walks,
            layers: spot.layers,
        },
    )))
}

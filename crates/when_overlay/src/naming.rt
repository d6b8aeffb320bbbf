//! Which layers and commits say something of a relation: the others are passed over.
ghost use Rattle.std.specs.Prelude.{◌≡◌, false, [], List, ℕ, None, length};
ghost use Rattle.hera_meaning.specs.declared.scalars.Sign.TheVariants.{Plus};
ghost use Rattle.when_overlay.specs.Layered.{IsTip, path};
ghost use Rattle.when_overlay.specs.Seeking.{named, named_in, sign_in, sign_over};

use crate::Layers;
use delta_atoms::Delta;
use hera_meaning::{RelId, Sign};

/// Whether the delta names a row of the relation.
fn names(delta: &Delta, rel: RelId) -> bool
    ensures signs { result ≡ false → (q : List ℕ) → sign_in rel.0 delta.now q ≡ None }
    ensures puts { result ≡ false → named_in rel.0 Plus delta.now ≡ [] }
{
    if delta.is_fail() {
        return false;
    }
    if delta.part(rel, Sign::Plus).len() > 0 {
        return true;
    }
    delta.part(rel, Sign::Minus).len() > 0
}

/// The newest of the layers from the tip down to the root that names a row of the relation, if one does: those above it
/// say nothing.
pub(crate) fn newest_naming(layers: &Layers, tip: Option<usize>, rel: RelId) -> Option<usize>
    requires { IsTip layers.now.layers tip }
    ensures tip { IsTip layers.now.layers result }
    ensures signs { (q : List ℕ) → sign_over rel.0 (path layers.now.layers result) q ≡ sign_over rel.0 (path layers.now.layers tip) q }
    ensures puts { named rel.0 Plus (path layers.now.layers result) ≡ named rel.0 Plus (path layers.now.layers tip) }
{
    let mut at = tip;
    while let Some(i) = at {
        let layer = layers.layer(i);
        if names(&layer.delta, rel) {
            return at;
        }
        at = layer.parent;
    }
    at
}

/// The deltas up to the last one that names a row of the relation: those behind it say nothing.
pub(crate) fn up_to_naming(deltas: &[Delta], rel: RelId) -> &[Delta]
    ensures signs { (q : List ℕ) → sign_over rel.0 result.now q ≡ sign_over rel.0 deltas.entry.now q }
    ensures puts { named rel.0 Plus result.now ≡ named rel.0 Plus deltas.entry.now }
{
    let mut rest = deltas;
    while let Some((last, below)) = rest.split_last() {
        if names(last, rel) {
            return rest;
        }
        rest = below;
    }
    rest
}

//! What deltas and layers say of one row: the last one that names it decides.
ghost use Rattle.std.specs.Prelude.{◌≡◌, ◌++◌};
ghost use Rattle.when_overlay.specs.Layered.{IsTip, path};
ghost use Rattle.when_overlay.specs.Seeking.{sign_in, sign_over, stands};

use crate::Layers;
use delta_atoms::Delta;
use hera_meaning::{RelId, Sign};
use hera_rows::Sorted;

/// What a delta says of a row: that it is put in, or taken out, or nothing.
pub(crate) fn sign_in(delta: &Delta, rel: RelId, row: &[u8]) -> Option<Sign>
    ensures { result ≡ sign_in rel.0 delta.now row.now }
{
    if delta.is_fail() {
        return None;
    }
    if delta.part(rel, Sign::Minus).has(row) {
        return Some(Sign::Minus);
    }
    if delta.part(rel, Sign::Plus).has(row) {
        return Some(Sign::Plus);
    }
    None
}

/// What the last of the deltas that says something of the row says.
fn sign_over(deltas: &[Delta], rel: RelId, row: &[u8]) -> Option<Sign>
    ensures { result ≡ sign_over rel.0 deltas.now row.now }
{
    let mut i = deltas.len();
    while i > 0 {
        i -= 1;
        if let Some(sign) = sign_in(&deltas[i], rel, row) {
            return Some(sign);
        }
    }
    None
}

/// What the newest of the layers from the tip down to the root that says something of the row says.
fn sign_up_to(layers: &Layers, tip: Option<usize>, rel: RelId, row: &[u8]) -> Option<Sign>
    requires { IsTip layers.now.layers tip }
    ensures { result ≡ sign_over rel.0 (path layers.now.layers tip) row.now }
{
    let mut at = tip;
    while let Some(i) = at {
        let layer = layers.layer(i);
        if let Some(sign) = sign_in(&layer.delta, rel, row) {
            return Some(sign);
        }
        at = layer.parent;
    }
    None
}

/// What the commits and then the layers say of a row.
pub(crate) fn sign_of(
    commits: &[Delta],
    layers: &Layers,
    tip: Option<usize>,
    rel: RelId,
    row: &[u8],
) -> Option<Sign>
    requires { IsTip layers.now.layers tip }
    ensures { result ≡ sign_over rel.0 (commits.now ++ path layers.now.layers tip) row.now }
{
    match sign_up_to(layers, tip, rel, row) {
        Some(sign) => Some(sign),
        None => sign_over(commits, rel, row),
    }
}

//! The smash and the merge of deltas.
//!
//! In a smash the second delta wins. A merge is `fail` where some relation and row stand in both
//! deltas with different signs.
#![tactic(auto)]

ghost use Rattle.std.specs.Prelude.{◌≡◌, ◌&&◌, cond, not, true, false, ◌∷◌, IfOk, OnOk, OnErr};
ghost use Rattle.hera_sets.specs.Rows.{is_below};
ghost use Rattle.hera_meaning.specs.Commits.{smash_all, smashed};
ghost use Rattle.hera_meaning.specs.Deltas.{fail, atoms, is_fail, key_of, smash_of, merge_of, joint_atoms, clash};
ghost use Rattle.hera_meaning.specs.Values.{same_sign};
ghost use Rattle.delta_atoms.specs.Atoms.{atoms_in};
ghost use Rattle.delta_atoms.specs.Edits.{gives, turned};
ghost use Rattle.delta_atoms.specs.Refs.{atom_in};

use delta_atoms::{AtomMark, AtomRef, Delta};
use hera_meaning::Sign;
use hera_sets::is_below;
use std::alloc::{AllocError, Global};

/// The smash of two deltas: each atom of the second with its sign, and each atom of the first whose
/// relation and row the second does not hold. It is `fail` where either is.
pub fn smash(alloc: Global, a: &Delta, b: &Delta) -> Result<Delta, AllocError>
    ensures { IfOk result (λ both. both ≡ smash_of a.now b.now) }
{
    if a.is_fail() {
        return Ok(Delta::fail(alloc));
    }
    if b.is_fail() {
        return Ok(Delta::fail(alloc));
    }
    joint(alloc, a, b, false)
}

/// The merge of two deltas: all atoms of both. It is `fail` where either is, or where some relation
/// and row stand in both with different signs.
pub fn merge(alloc: Global, a: &Delta, b: &Delta) -> Result<Delta, AllocError>
    ensures { IfOk result (λ both. both ≡ merge_of a.now b.now) }
{
    if a.is_fail() {
        return Ok(Delta::fail(alloc));
    }
    if b.is_fail() {
        return Ok(Delta::fail(alloc));
    }
    joint(alloc, a, b, true)
}

/// Makes the first delta the smash of both. Without memory the first delta is as before.
pub fn smash_into(a: &mut Delta, b: &Delta) -> Result<(), AllocError>
    ensures ok { OnOk result (a.new ≡ smash_of a.old b.now) }
    ensures err { OnErr result (a.new ≡ a.old) }
{
    a.smash_with(b)
}

/// The smash of deltas, in order: the empty one where there is none.
pub fn smash_all(alloc: Global, deltas: &[Delta]) -> Result<Delta, AllocError>
    ensures { IfOk result (λ all. all ≡ smash_all deltas.now) }
{
    match deltas.split_first() {
        None => Ok(Delta::empty(alloc)),
        Some((first, rest)) => smash_on(first.copy()?, rest),
    }
}

/// The smash of a delta and those behind it.
fn smash_on(first: Delta, rest: &[Delta]) -> Result<Delta, AllocError>
    ensures { IfOk result (λ all. all ≡ smashed first rest.now) }
{
    let mut all = first;
    for delta in rest {
        smash_into(&mut all, delta)?;
    }
    Ok(all)
}

/// Makes the second delta the smash of both. It costs a search in the second delta for each atom of the first. Without
/// memory the second delta is as before.
pub fn smash_under(b: &mut Delta, a: &Delta) -> Result<(), AllocError>
    ensures ok { OnOk result (b.new ≡ smash_of a.now b.old) }
    ensures err { OnErr result (b.new ≡ b.old) }
{
    b.smash_under(a)
}

/// Makes the first delta the merge of both, which does not ask in what order they come. It costs a search in the first
/// delta for each atom of the second. Without memory the first delta is as before.
pub fn merge_into(a: &mut Delta, b: &Delta) -> Result<(), AllocError>
    ensures ok { OnOk result (a.new ≡ merge_of a.old b.now) }
    ensures either { OnOk result (a.new ≡ merge_of b.now a.old) }
    ensures err { OnErr result (a.new ≡ a.old) }
{
    if a.is_fail() {
        return Ok(());
    }
    if b.is_fail() {
        a.make_fail();
        return Ok(());
    }
    if clash(a, b) {
        a.make_fail();
        return Ok(());
    }
    smash_into(a, b)
}

/// Whether some relation and row stand in both with different signs. It searches the first for each atom of the second.
fn clash(a: &Delta, b: &Delta) -> bool
    requires { is_fail a.now ≡ false }
    ensures { result ≡ clash (atoms_in a.now) (atoms_in b.now) }
{
    // for the proof alone: the atoms of the first ascend
    let _fails = a.is_fail();
    let mut last: Option<AtomRef<'_>> = None;
    let mut mark = AtomMark::start();
    while let Some(atom) = b.above_from(last, &mut mark) {
        if crosses(a.sign(atom.rel, atom.row), atom.sign) {
            return true;
        }
        last = Some(atom);
    }
    false
}

/// Whether it is the other sign that is there.
fn crosses(there: Option<Sign>, sign: Sign) -> bool
    ensures { result ≡ gives there (turned true sign) }
{
    match (there, sign) {
        (Some(Sign::Plus), Sign::Minus) | (Some(Sign::Minus), Sign::Plus) => true,
        _ => false,
    }
}

/// The atoms of both deltas, in a joint walk in which the second one's win. It stops where two clash,
/// if that makes it `fail`.
fn joint(alloc: Global, a: &Delta, b: &Delta, clash_fails: bool) -> Result<Delta, AllocError>
    ensures { IfOk result (λ both. both ≡ cond (clash_fails && clash (atoms_in a.now) (atoms_in b.now)) fail (atoms (joint_atoms (atoms_in a.now) (atoms_in b.now)))) }
{
    let mut both = Delta::empty(alloc);
    let mut left: Option<AtomRef<'_>> = None;
    let mut right: Option<AtomRef<'_>> = None;
    let mut ours = AtomMark::start();
    let mut theirs = AtomMark::start();
    loop {
        match (
            a.above_from(left, &mut ours),
            b.above_from(right, &mut theirs),
        ) {
            (None, None) => return Ok(both),
            (Some(x), None) => {
                both.push_last(x.sign, x.rel, x.row)?;
                left = Some(x);
            }
            (None, Some(y)) => {
                both.push_last(y.sign, y.rel, y.row)?;
                right = Some(y);
            }
            (Some(x), Some(y)) => {
                if is_before(x, y) {
                    both.push_last(x.sign, x.rel, x.row)?;
                    left = Some(x);
                } else if is_before(y, x) {
                    both.push_last(y.sign, y.rel, y.row)?;
                    right = Some(y);
                } else if clashes(clash_fails, x.sign, y.sign) {
                    return Ok(Delta::fail(alloc));
                } else {
                    both.push_last(y.sign, y.rel, y.row)?;
                    left = Some(x);
                    right = Some(y);
                }
            }
        }
    }
}

/// Whether the first atom stands before the second, by relation and then row.
#[tactic(auto, unfolding(hera_sets::specs::Rows::is_below))]
fn is_before(x: AtomRef<'_>, y: AtomRef<'_>) -> bool
    ensures { result ≡ is_below (key_of (atom_in x.entry)) (key_of (atom_in y.entry)) }
{
    if x.rel.0 == y.rel.0 {
        is_below(x.row, y.row)
    } else {
        x.rel.0 < y.rel.0
    }
}

/// Whether two atoms of one relation and row clash, and that makes the whole fail.
fn clashes(clash_fails: bool, first: Sign, second: Sign) -> bool
    ensures { result ≡ (clash_fails && not (same_sign first second)) }
{
    match (first, second) {
        (Sign::Plus, Sign::Plus) | (Sign::Minus, Sign::Minus) => false,
        _ => clash_fails,
    }
}

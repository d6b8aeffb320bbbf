//! Changes of the parts of a delta, by the atoms of another.
ghost use Rattle.std.specs.Prelude.{◌≡◌, false, cond, [], ◌∷◌, ◌++◌, IfOk, OnOk, OnErr, IfSome};
ghost use Rattle.hera_meaning.specs.Deltas.{atoms, is_fail, IsDelta, keys_of, joint_atoms, key_of, unnamed};
ghost use Rattle.hera_sets.specs.Rows.{IsAscending, holds};
ghost use Rattle.delta_atoms.specs.Atoms.{atom_of, atoms_in, sign_at, with_last};
ghost use Rattle.delta_atoms.specs.Parts.{atoms_of, AreOrdered, ArePacked};
ghost use Rattle.delta_atoms.specs.Refs.{atom_in};
ghost use Rattle.delta_atoms.specs.Edits.{gives, turned, PutsAll, PutsSome, TakesAll, news};

use super::parts::{DeltaPart, put_row, search, take_row};
use super::{AtomMark, AtomRef, Delta};
use hera_meaning::{RelId, Sign};
use hera_rows::Sorted;
use std::alloc::{AllocError, Global};

/// Puts in an atom that is greater than all others. Without memory the atoms are as before.
pub(crate) fn push_last(
    parts: &mut Vec<DeltaPart>,
    alloc: Global,
    sign: Sign,
    rel: RelId,
    row: &[u8],
) -> Result<(), AllocError>
    requires packed { ArePacked parts.old.items }
    requires last { IsAscending (keys_of (atoms_of parts.old.items ++ atom_of sign rel.0 row.now ∷ [])) }
    ensures packed { ArePacked parts.new.items }
    ensures ok { OnOk result (atoms_of parts.new.items ≡ atoms_of parts.old.items ++ atom_of sign rel.0 row.now ∷ []) }
    ensures err { OnErr result (atoms_of parts.new.items ≡ atoms_of parts.old.items) }
{
    put_row(parts, alloc, sign, rel, row)?;
    Ok(())
}

/// Puts the second delta over the atoms of the parts. Without memory the atoms are as before. One atom takes no list of its
/// own.
pub(crate) fn put_over(
    parts: &mut Vec<DeltaPart>,
    alloc: Global,
    second: &Delta,
) -> Result<(), AllocError>
    requires { ArePacked parts.old.items }
    ensures packed { ArePacked parts.new.items }
    ensures ok { OnOk result (atoms_of parts.new.items ≡ joint_atoms (atoms_of parts.old.items) (atoms_in second.now)) }
    ensures err { OnErr result (atoms_of parts.new.items ≡ atoms_of parts.old.items) }
{
    match only_atom(second) {
        Some(atom) => put_one_over(parts, alloc, atom),
        None => put_all_over(parts, alloc, second),
    }
}

/// The atom of a delta that has no other.
fn only_atom(delta: &Delta) -> Option<AtomRef<'_>>
    ensures { IfSome result (λ atom. atoms_in delta.now ≡ atom_in atom ∷ []) }
{
    if delta.is_fail() || delta.count() != 1 {
        return None;
    }
    delta.above(None)
}

/// Puts one atom over those of the parts. Without memory the atoms are as before.
fn put_one_over(
    parts: &mut Vec<DeltaPart>,
    alloc: Global,
    atom: AtomRef<'_>,
) -> Result<(), AllocError>
    requires { ArePacked parts.old.items }
    ensures packed { ArePacked parts.new.items }
    ensures ok { OnOk result (atoms_of parts.new.items ≡ joint_atoms (atoms_of parts.old.items) (atom_in atom.entry ∷ [])) }
    ensures err { OnErr result (atoms_of parts.new.items ≡ atoms_of parts.old.items) }
{
    if has(parts, atom) {
        return Ok(());
    }
    put_row(parts, alloc, atom.sign, atom.rel, atom.row)?;
    take_row(parts, turned(true, atom.sign), atom.rel, atom.row);
    Ok(())
}

/// Puts the second delta over the atoms of the parts. Without memory the atoms are as before.
///
/// All rows are put in first, and then the same rows taken out where they stand with the other
/// sign, which takes no memory. Where a row can't be put in, those put in are taken out again.
fn put_all_over(parts: &mut Vec<DeltaPart>, alloc: Global, second: &Delta) -> Result<(), AllocError>
    requires { ArePacked parts.old.items }
    ensures packed { ArePacked parts.new.items }
    ensures ok { OnOk result (atoms_of parts.new.items ≡ joint_atoms (atoms_of parts.old.items) (atoms_in second.now)) }
    ensures err { OnErr result (atoms_of parts.new.items ≡ atoms_of parts.old.items) }
{
    let fresh = news(parts, alloc, second)?;
    match put_all(parts, alloc, &fresh) {
        Ok(()) => {
            take_all(parts, true, &fresh);
            Ok(())
        }
        Err(e) => {
            take_all(parts, false, &fresh);
            Err(e)
        }
    }
}

/// Puts the first delta under the atoms of the parts, which win. Without memory the atoms are as before.
///
/// The rows whose relation and row the parts do not have are put in. Where one can't be put in, those
/// put in are taken out again.
pub(crate) fn put_under(
    parts: &mut Vec<DeltaPart>,
    alloc: Global,
    first: &Delta,
) -> Result<(), AllocError>
    requires { ArePacked parts.old.items }
    ensures packed { ArePacked parts.new.items }
    ensures ok { OnOk result (atoms_of parts.new.items ≡ joint_atoms (atoms_in first.now) (atoms_of parts.old.items)) }
    ensures err { OnErr result (atoms_of parts.new.items ≡ atoms_of parts.old.items) }
{
    let absent = missing(parts, alloc, first)?;
    match put_all(parts, alloc, &absent) {
        Ok(()) => Ok(()),
        Err(e) => {
            take_all(parts, false, &absent);
            Err(e)
        }
    }
}

/// The atoms of the first delta whose relation and row the parts do not have.
fn missing(parts: &[DeltaPart], alloc: Global, first: &Delta) -> Result<Delta, AllocError>
    requires { ArePacked parts.now }
    ensures fresh { IfOk result (λ fresh. fresh ≡ atoms (unnamed (atoms_in first.now) (atoms_of parts.now))) }
    ensures valid { IsDelta first.now }
{
    let mut fresh = Delta::empty(alloc);
    let mut last: Option<AtomRef<'_>> = None;
    let mut mark = AtomMark::start();
    while let Some(atom) = first.above_from(last, &mut mark) {
        push_missing(&mut fresh, parts, atom)?;
        last = Some(atom);
    }
    Ok(fresh)
}

/// Puts the atom behind all others, unless the parts have its relation and row.
fn push_missing(fresh: &mut Delta, parts: &[DeltaPart], atom: AtomRef<'_>) -> Result<(), AllocError>
    requires packed { ArePacked parts.now }
    requires known { is_fail fresh.old ≡ false }
    requires last { IsDelta (with_last fresh.old (atom_in atom)) }
    ensures { OnOk result (fresh.new ≡ cond (holds (keys_of (atoms_of parts.now)) (key_of (atom_in atom.entry))) fresh.old (with_last fresh.old (atom_in atom.entry))) }
{
    if is_named(parts, atom) {
        Ok(())
    } else {
        fresh.push_last(atom.sign, atom.rel, atom.row)?;
        Ok(())
    }
}

/// Whether the parts have the atom's relation and row, with whatever sign.
fn is_named(parts: &[DeltaPart], atom: AtomRef<'_>) -> bool
    requires { ArePacked parts.now }
    ensures { result ≡ holds (keys_of (atoms_of parts.now)) (key_of (atom_in atom.entry)) }
{
    let put_in = AtomRef {
        sign: Sign::Plus,
        ..atom
    };
    if has(parts, put_in) {
        return true;
    }
    let taken_out = AtomRef {
        sign: Sign::Minus,
        ..atom
    };
    has(parts, taken_out)
}

/// The atoms of the second delta that the parts do not have with their sign.
fn news(parts: &[DeltaPart], alloc: Global, second: &Delta) -> Result<Delta, AllocError>
    requires { ArePacked parts.now }
    ensures fresh { IfOk result (λ fresh. fresh ≡ atoms (news (atoms_of parts.now) (atoms_in second.now))) }
    ensures valid { IsDelta second.now }
{
    let mut fresh = Delta::empty(alloc);
    let mut last: Option<AtomRef<'_>> = None;
    let mut mark = AtomMark::start();
    while let Some(atom) = second.above_from(last, &mut mark) {
        push_new(&mut fresh, parts, atom)?;
        last = Some(atom);
    }
    Ok(fresh)
}

/// Puts the atom behind all others, unless the parts have it with its sign.
fn push_new(fresh: &mut Delta, parts: &[DeltaPart], atom: AtomRef<'_>) -> Result<(), AllocError>
    requires packed { ArePacked parts.now }
    requires known { is_fail fresh.old ≡ false }
    requires last { IsDelta (with_last fresh.old (atom_in atom)) }
    ensures { OnOk result (fresh.new ≡ cond (gives (sign_at (atoms_of parts.now) (key_of (atom_in atom.entry))) atom.entry.sign) fresh.old (with_last fresh.old (atom_in atom.entry))) }
{
    if has(parts, atom) {
        Ok(())
    } else {
        fresh.push_last(atom.sign, atom.rel, atom.row)?;
        Ok(())
    }
}

/// Whether the parts have the atom with its sign.
fn has(parts: &[DeltaPart], atom: AtomRef<'_>) -> bool
    requires { ArePacked parts.now }
    ensures { result ≡ gives (sign_at (atoms_of parts.now) (key_of (atom_in atom.entry))) atom.entry.sign }
{
    match search(parts, atom.rel) {
        Ok(i) => parts[i].side(atom.sign).has(atom.row),
        Err(_) => false,
    }
}

/// Puts all atoms in. Without memory, some of them.
fn put_all(parts: &mut Vec<DeltaPart>, alloc: Global, fresh: &Delta) -> Result<(), AllocError>
    requires { AreOrdered parts.old.items }
    ensures ordered { AreOrdered parts.new.items }
    ensures ok { OnOk result (PutsAll (atoms_in fresh.now) parts.old.items parts.new.items) }
    ensures err { OnErr result (PutsSome (atoms_in fresh.now) parts.old.items parts.new.items) }
{
    let mut last: Option<AtomRef<'_>> = None;
    let mut mark = AtomMark::start();
    while let Some(atom) = fresh.above_from(last, &mut mark) {
        put_row(parts, alloc, atom.sign, atom.rel, atom.row)?;
        last = Some(atom);
    }
    Ok(())
}

/// Takes the rows of all atoms out where they stand with their sign, or with the other one.
fn take_all(parts: &mut Vec<DeltaPart>, turn: bool, fresh: &Delta)
    requires { AreOrdered parts.old.items }
    ensures ordered { AreOrdered parts.new.items }
    ensures taken { TakesAll turn (atoms_in fresh.now) parts.old.items parts.new.items }
{
    let mut last: Option<AtomRef<'_>> = None;
    let mut mark = AtomMark::start();
    while let Some(atom) = fresh.above_from(last, &mut mark) {
        take_row(parts, turned(turn, atom.sign), atom.rel, atom.row);
        last = Some(atom);
    }
}

/// The sign, or the other one.
fn turned(turn: bool, sign: Sign) -> Sign
    ensures { result ≡ turned turn sign }
{
    match (turn, sign) {
        (true, Sign::Plus) => Sign::Minus,
        (true, Sign::Minus) => Sign::Plus,
        (false, _) => sign,
    }
}

//! Records of deltas, written.
ghost use Rattle.std.specs.Prelude.{◌≡◌, ◌≤◌, ◌<◌, ◌+◌, ◌++◌, false, length, IfOk, IfSome, OnOk};
ghost use Rattle.std.specs.List.{flat_map};
ghost use Rattle.hera_meaning.specs.Deltas.{is_fail};
ghost use Rattle.delta_atoms.specs.Atoms.{atoms_in};
ghost use Rattle.delta_atoms.specs.Refs.{atom_in};
ghost use Rattle.rel_format.specs.Journal.{sign_byte, atom_bytes, record_of};

use delta_atoms::{AtomMark, AtomRef, Delta};
use hera_meaning::Sign;
use std::alloc::{AllocError, Global};

/// How many bytes the delta's record has, unless they are past counting.
pub(crate) fn record_len(delta: &Delta) -> Option<u128>
    ensures { IfSome result (λ n. n ≡ length (record_of (atoms_in delta.now))) }
{
    let mut len: u128 = 4;
    let mut last: Option<AtomRef<'_>> = None;
    let mut mark = AtomMark::start();
    while let Some(atom) = delta.above_from(last, &mut mark) {
        len = len.checked_add(3 + atom.row.len() as u128)?;
        last = Some(atom);
    }
    Some(len)
}

/// The delta's record, with room for so many bytes.
pub(crate) fn record_bytes(alloc: Global, delta: &Delta, room: usize) -> Result<Vec<u8>, AllocError>
    requires known { is_fail delta.now ≡ false }
    requires few { length (record_of (atoms_in delta.now)) ≤ 4294967295 }
    ensures { IfOk result (λ bytes. bytes.items ≡ record_of (atoms_in delta.now)) }
{
    let mut bytes = Vec::with_capacity(alloc, room)?;
    let count = delta.count() as u32;
    bytes.extend_from_slice(&count.to_be_bytes())?;
    put_atoms(&mut bytes, delta)?;
    Ok(bytes)
}

/// Puts each atom, in order of relation and then row.
fn put_atoms(out: &mut Vec<u8>, delta: &Delta) -> Result<(), AllocError>
    ensures { OnOk result (out.new.items ≡ out.old.items ++ flat_map atom_bytes (atoms_in delta.now)) }
{
    let mut last: Option<AtomRef<'_>> = None;
    let mut mark = AtomMark::start();
    while let Some(atom) = delta.above_from(last, &mut mark) {
        put_atom(out, atom)?;
        last = Some(atom);
    }
    Ok(())
}

/// Puts an atom: its sign, its relation and its row.
fn put_atom(out: &mut Vec<u8>, atom: AtomRef<'_>) -> Result<(), AllocError>
    ensures { OnOk result (out.new.items ≡ out.old.items ++ atom_bytes (atom_in atom.entry)) }
{
    out.push(sign_byte(atom.sign))?;
    out.extend_from_slice(&atom.rel.0.to_be_bytes())?;
    out.extend_from_slice(atom.row)?;
    Ok(())
}

/// The byte of a sign.
fn sign_byte(sign: Sign) -> u8
    ensures { result ≡ sign_byte sign }
{
    match sign {
        Sign::Plus => 1,
        Sign::Minus => 2,
    }
}

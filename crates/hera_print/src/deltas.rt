//! Deltas and their atoms.
ghost use Rattle.std.specs.Prelude.{◌≡◌, ◌<◌, ◌++◌, length, true, OnOk};
ghost use Rattle.hera_meaning.specs.Deltas.{schema_of};
ghost use Rattle.hera_meaning.specs.Fits.{is_atom_of, is_delta_of};
ghost use Rattle.hera_meaning.specs.Printed.{sign_text, name_of, atom_text, atoms_text, delta_text};
ghost use Rattle.delta_atoms.specs.Atoms.{atoms_in};
ghost use Rattle.delta_atoms.specs.Refs.{atom_in};

use super::tuples::put_row;
use delta_atoms::{AtomMark, AtomRef, Delta};
use hera_meaning::writing::{put, put_number};
use hera_meaning::{RelDecl, RelId, Sign};
use std::alloc::AllocError;

/// Puts `+` or `-`.
fn put_sign(out: &mut Vec<u8>, sign: Sign) -> Result<(), AllocError>
    ensures { OnOk result (out.new.items ≡ out.old.items ++ sign_text sign) }
{
    match sign {
        Sign::Plus => put(out, b"+"),
        Sign::Minus => put(out, b"-"),
    }
}

/// The declaration of a relation of the catalogue.
fn decl_of(catalogue: &[RelDecl], rel: RelId) -> &RelDecl
    requires { rel.0 < length catalogue.now }
    ensures name { result.now.name ≡ name_of catalogue.now rel.0 }
    ensures schema { result.now.schema ≡ schema_of catalogue.now rel.0 }
{
    &catalogue[usize::from(rel.0)]
}

/// Puts an atom on a line: its sign, its relation's name and its tuple.
#[tactic(auto, unfolding(hera_meaning::specs::Printed::atom_text))]
fn put_atom(out: &mut Vec<u8>, catalogue: &[RelDecl], atom: AtomRef<'_>) -> Result<(), AllocError>
    requires { is_atom_of catalogue.now (atom_in atom) ≡ true }
    ensures { OnOk result (out.new.items ≡ out.old.items ++ atom_text catalogue.now (atom_in atom.entry)) }
{
    let decl = decl_of(catalogue, atom.rel);
    put_sign(out, atom.sign)?;
    put(out, decl.name.bytes())?;
    put_row(out, &decl.schema, atom.row)
}

/// Puts each atom on a line, in order of relation and then tuple.
fn put_atoms(out: &mut Vec<u8>, catalogue: &[RelDecl], delta: &Delta) -> Result<(), AllocError>
    requires { is_delta_of catalogue.now delta.now ≡ true }
    ensures { OnOk result (out.new.items ≡ out.old.items ++ atoms_text catalogue.now (atoms_in delta.now)) }
{
    let mut last: Option<AtomRef<'_>> = None;
    let mut mark = AtomMark::start();
    while let Some(atom) = delta.above_from(last, &mut mark) {
        put_atom(out, catalogue, atom)?;
        last = Some(atom);
    }
    Ok(())
}

/// Puts a delta: a line with the number of its atoms, and then each atom on a line; or `fail`.
#[tactic(auto, unfolding(hera_meaning::specs::Printed::delta_text))]
pub(crate) fn put_delta(
    out: &mut Vec<u8>,
    catalogue: &[RelDecl],
    delta: &Delta,
) -> Result<(), AllocError>
    requires { is_delta_of catalogue.now delta.now ≡ true }
    ensures { OnOk result (out.new.items ≡ out.old.items ++ delta_text catalogue.now delta.now) }
{
    if delta.is_fail() {
        return put(out, b"fail\n");
    }
    put(out, b"delta ")?;
    put_number(out, delta.count())?;
    put(out, b"\n")?;
    put_atoms(out, catalogue, delta)
}

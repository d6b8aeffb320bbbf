//! Which values have a shape, and which deltas are of a catalogue.
ghost use Rattle.std.specs.Prelude.{◌≡◌, slice_get};
ghost use Rattle.std.specs.Option.{option_copied};
ghost use Rattle.std.specs.List.{list_all};
ghost use Rattle.hera_meaning.specs.Rows.{is_row};
ghost use Rattle.hera_meaning.specs.Fits.{is_atom_of, is_delta_of, has_shape};
ghost use Rattle.delta_atoms.specs.Plain.{value_of};
ghost use Rattle.delta_atoms.specs.Refs.{atom_in};

use delta_atoms::{AtomMark, AtomRef, Delta, Value};
use hera_meaning::{RelDecl, RelId, Scalar, Schema, Shape};
use hera_row::check_row;
use hera_rows::{RowMark, RowSet, Sorted};

/// Whether the bytes are a row of the schema.
pub(crate) fn is_row(schema: &Schema, bytes: &[u8]) -> bool
    ensures { result ≡ is_row schema.now bytes.now }
{
    check_row(schema, bytes)
}

/// Whether each row is a row of the schema.
pub(crate) fn are_rows(schema: &Schema, rows: &RowSet) -> bool
    ensures { result ≡ list_all (is_row schema.now) rows.now }
{
    for i in 0..rows.len() {
        if !is_row(schema, rows.row(i)) {
            return false;
        }
    }
    true
}

/// Whether each row of a sorted set is a row of the schema.
pub(crate) fn has_kinds<A: Sorted>(schema: &Schema, a: &A) -> bool
    ensures { result ≡ list_all (is_row schema.now) (A.rows a.now) }
{
    let mut last: Option<&[u8]> = None;
    let mut mark = RowMark::start();
    while let Some(row) = a.above_from(last, &mut mark) {
        if !is_row(schema, row) {
            return false;
        }
        last = Some(row);
    }
    true
}

/// The declaration of a relation, if the catalogue has it.
fn decl_at(catalogue: &[RelDecl], rel: RelId) -> Option<&RelDecl>
    ensures { option_copied result ≡ slice_get catalogue.now rel.0 }
{
    catalogue.get(rel.0 as usize)
}

/// Whether the atom names a relation of the catalogue and holds a row of it.
#[tactic(auto, using(crate::proofs::Tested::of_catalogue))]
fn is_atom_of(catalogue: &[RelDecl], atom: AtomRef<'_>) -> bool
    ensures { result ≡ is_atom_of catalogue.now (atom_in atom.entry) }
{
    match decl_at(catalogue, atom.rel) {
        None => false,
        Some(decl) => is_row(&decl.schema, atom.row),
    }
}

/// Whether each atom of the delta names a relation of the catalogue and holds a row of it. `fail` has
/// no atom. It takes no memory.
pub fn is_delta_of(catalogue: &[RelDecl], delta: &Delta) -> bool
    ensures { result ≡ is_delta_of catalogue.now delta.now }
{
    let mut last: Option<AtomRef<'_>> = None;
    let mut mark = AtomMark::start();
    while let Some(atom) = delta.above_from(last, &mut mark) {
        if !is_atom_of(catalogue, atom) {
            return false;
        }
        last = Some(atom);
    }
    true
}

/// Whether the value is of the shape's case, its rows are rows of the shape's schema and its atoms of
/// the catalogue. It takes no memory.
pub fn has_shape(shape: &Shape, v: &Value, catalogue: &[RelDecl]) -> bool
    ensures { result ≡ has_shape catalogue.now shape.now (value_of v.now) }
{
    match (shape, v) {
        (Shape::Int, Value::Scalar(Scalar::Int(_))) => true,
        (Shape::Bool, Value::Scalar(Scalar::Bool(_))) => true,
        (Shape::Text, Value::Scalar(Scalar::Text(_))) => true,
        (Shape::Tuple(schema), Value::Row(row)) => is_row(schema, row.bytes()),
        (Shape::Rel(schema), Value::Rel(rows)) => are_rows(schema, rows),
        (Shape::Delta, Value::Delta(delta)) => is_delta_of(catalogue, delta),
        _ => false,
    }
}

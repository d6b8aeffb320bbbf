//! Rows of schemas that begin as an older schema does.
ghost use Rattle.std.specs.Prelude.{◌≡◌, ◌++◌, ℕ, List, [], map, slice_get, Some, None, true, false, OnOk, IfOk};
ghost use Rattle.hera_meaning.specs.declared.schemas.Attr.{Attr};
ghost use Rattle.hera_meaning.specs.declared.schemas.RelDecl.{RelDecl};
ghost use Rattle.hera_meaning.specs.Scalars.{is_same_kind};
ghost use Rattle.hera_meaning.specs.Rows.{IsRow, field_bytes};
ghost use Rattle.hera_meaning.specs.Deltas.{State};
ghost use Rattle.hera_meaning.specs.Wider.{same_attr, is_prefix, blank, widened_row, schema_named, keeps, widened_rows};
ghost use Rattle.hera_row.specs.Numbers.{number_named};

use crate::encoding::push_int;
use hera_meaning::{Attr, Kind, Schema};
use hera_rows::RowBuf;
use hera_sets::is_same;
use std::alloc::{AllocError, Global};

/// Whether the attributes of the old schema are the first ones of the new schema. It takes no memory.
pub fn is_prefix(old: &Schema, new: &Schema) -> bool
    ensures { result ≡ is_prefix old.now new.now }
{
    if old.len() > new.len() {
        return false;
    }
    for i in 0..old.len() {
        if !same_attr(old.attr(i), new.attr(i)) {
            return false;
        }
    }
    true
}

/// Whether both have one name and one kind.
fn same_attr(a: &Attr, b: &Attr) -> bool
    ensures { result ≡ same_attr a.now b.now }
{
    is_same(a.name.bytes(), b.name.bytes()) && same_kind(a.kind, b.kind)
}

/// Whether the kinds are one.
fn same_kind(a: Kind, b: Kind) -> bool
    ensures { result ≡ is_same_kind a b }
{
    a == b
}

/// The row of the old schema as a row of the new one, which begins as the old one does: behind the old
/// fields each added int is 0, each added bool `false` and each added text empty.
pub fn widen_row(
    alloc: Global,
    old: &Schema,
    new: &Schema,
    row: &[u8],
) -> Result<RowBuf, AllocError>
    requires prefix { is_prefix old.now new.now ≡ true }
    requires row { IsRow old.now row.now }
    ensures row { IfOk result (λ wide. wide ≡ widened_row old.now new.now row.now) }
    ensures valid { IfOk result (λ wide. IsRow new.now wide) }
{
    let mut bytes = Vec::from_slice(alloc, row)?;
    for place in old.len()..new.len() {
        push_blank(&mut bytes, new.attr(place).kind)?;
    }
    Ok(RowBuf::from_vec(bytes))
}

/// Puts the bytes of an added field behind the others.
fn push_blank(row: &mut Vec<u8>, kind: Kind) -> Result<(), AllocError>
    ensures { OnOk result (row.new.items ≡ row.old.items ++ field_bytes (blank kind)) }
{
    match kind {
        Kind::Int => push_int(row, 0)?,
        Kind::Bool => row.push(0)?,
        Kind::Text => row.push(0)?,
    }
    Ok(())
}

/// What stands under a name in a catalogue and a state is found by the number that the catalogue has for
/// it: its schema, whether the catalogue keeps a declared relation, and its widened rows.
pub fn a_widened_relation_is_found_by_number()
    ensures there { (name : List ℕ) (schema : List Attr) (old : List RelDecl) (s : State) (number : ℕ) (d : RelDecl) (rows : List (List ℕ)) →
        number_named name old ≡ Some number → slice_get old number ≡ Some d → slice_get s number ≡ Some rows →
        widened_rows name schema old s ≡ map (widened_row d.schema schema) rows }
    ensures not_there { (name : List ℕ) (schema : List Attr) (old : List RelDecl) (s : State) → number_named name old ≡ None → widened_rows name schema old s ≡ [] }
    ensures kept { (new : List RelDecl) (d : RelDecl) (number : ℕ) (e : RelDecl) →
        number_named d.name new ≡ Some number → slice_get new number ≡ Some e → keeps new d ≡ is_prefix d.schema e.schema }
    ensures not_kept { (new : List RelDecl) (d : RelDecl) → number_named d.name new ≡ None → keeps new d ≡ false }
{}

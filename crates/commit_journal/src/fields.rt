//! The fields of a journal at their places.
ghost use Rattle.std.specs.Prelude.{◌≡◌, ◌≤◌, ◌<◌, ◌+◌, true, length, drop, IfSome};
ghost use Rattle.std.specs.Int.{w16, w32};
ghost use Rattle.std.specs.Option.{option_copied, option_map};
ghost use Rattle.hera_row.specs.Reading.{row_len_of};
ghost use Rattle.delta_atoms.specs.Refs.{atom_in};
ghost use Rattle.rel_format.specs.Fields.{number, first_byte};
ghost use Rattle.commit_journal.specs.Table.{sign_field, follows, rel_field, row_keeps, row_field};

use delta_atoms::AtomRef;
use hera_meaning::{Schema, Sign};
use hera_sets::is_below;
use rel_format::{first_len, number16, number32, rest_at};

/// The first byte.
fn first_byte(bytes: &[u8]) -> Option<u8>
    ensures value { result ≡ first_byte bytes.now }
    ensures within { IfSome result (λ b. 1 ≤ length bytes.now) }
{
    match bytes {
        [b, ..] => Some(*b),
        _ => None,
    }
}

/// The first byte, a sign.
fn sign_field(bytes: &[u8]) -> Option<Sign>
    ensures value { result ≡ sign_field bytes.now }
    ensures within { IfSome result (λ s. 1 ≤ length bytes.now) }
{
    match bytes {
        [1, ..] => Some(Sign::Plus),
        [2, ..] => Some(Sign::Minus),
        _ => None,
    }
}

/// Whether an atom of this relation may come behind the one before.
fn follows(before: Option<AtomRef<'_>>, rel: u16) -> bool
    ensures { result ≡ follows (option_map atom_in before.entry) rel }
{
    match before {
        None => true,
        Some(atom) => atom.rel.0 <= rel,
    }
}

/// The first two bytes, an atom's relation of so many.
fn rel_field(bytes: &[u8], count: usize, before: Option<AtomRef<'_>>) -> Option<u16>
    ensures value { result ≡ rel_field count (option_map atom_in before.entry) bytes.now }
    ensures within { IfSome result (λ rel. 2 ≤ length bytes.now) }
    ensures known { IfSome result (λ rel. rel < count) }
    ensures follows { IfSome result (λ rel. follows (option_map atom_in before.entry) rel ≡ true) }
{
    match number16(bytes) {
        Some(rel) if (rel as usize) < count && follows(before, rel) => Some(rel),
        _ => None,
    }
}

/// Whether an atom of this relation and row may come behind the one before.
fn row_keeps(before: Option<AtomRef<'_>>, rel: u16, row: &[u8]) -> bool
    ensures { result ≡ row_keeps (option_map atom_in before.entry) rel row.now }
{
    match before {
        None => true,
        Some(atom) => {
            if atom.rel.0 == rel {
                is_below(atom.row, row)
            } else {
                true
            }
        }
    }
}

/// The row with which the bytes begin.
fn row_field<'a>(
    schema: &Schema,
    bytes: &'a [u8],
    before: Option<AtomRef<'_>>,
    rel: u16,
) -> Option<&'a [u8]>
    ensures row { option_copied result ≡ row_field schema.now (option_map atom_in before.entry) rel bytes.entry.now }
    ensures within { IfSome result (λ row. length row.now ≤ length bytes.entry.now) }
    ensures keeps { IfSome result (λ row. row_keeps (option_map atom_in before.entry) rel row.now ≡ true) }
{
    let len = first_len(schema, bytes)?;
    let row = bytes.split_at(len).0;
    if row_keeps(before, rel, row) {
        Some(row)
    } else {
        None
    }
}

/// The gate at a place.
pub(crate) fn gate_at(bytes: &[u8], at: usize) -> Option<u8>
    requires { at ≤ length bytes.now }
    ensures value { result ≡ first_byte (drop at bytes.now) }
    ensures within { IfSome result (λ b. at + 1 ≤ length bytes.now) }
{
    first_byte(rest_at(bytes, at))
}

/// The number of atoms at a place.
pub(crate) fn atom_count_at(bytes: &[u8], at: usize) -> Option<u32>
    requires { at ≤ length bytes.now }
    ensures value { result ≡ number w32 (drop at bytes.now) }
    ensures within { IfSome result (λ n. at + 4 ≤ length bytes.now) }
{
    number32(rest_at(bytes, at))
}

/// The sign at a place.
pub(crate) fn sign_at(bytes: &[u8], at: usize) -> Option<Sign>
    requires { at ≤ length bytes.now }
    ensures value { result ≡ sign_field (drop at bytes.now) }
    ensures within { IfSome result (λ s. at + 1 ≤ length bytes.now) }
{
    sign_field(rest_at(bytes, at))
}

/// The relation at a place of an atom.
pub(crate) fn rel_at(
    bytes: &[u8],
    at: usize,
    count: usize,
    before: Option<AtomRef<'_>>,
) -> Option<u16>
    requires { at ≤ length bytes.now }
    ensures value { result ≡ rel_field count (option_map atom_in before.entry) (drop at bytes.now) }
    ensures within { IfSome result (λ rel. at + 2 ≤ length bytes.now) }
    ensures known { IfSome result (λ rel. rel < count) }
    ensures follows { IfSome result (λ rel. follows (option_map atom_in before.entry) rel ≡ true) }
{
    rel_field(rest_at(bytes, at), count, before)
}

/// The row at a place of an atom.
pub(crate) fn row_at<'a>(
    schema: &Schema,
    bytes: &'a [u8],
    at: usize,
    before: Option<AtomRef<'_>>,
    rel: u16,
) -> Option<&'a [u8]>
    requires { at ≤ length bytes.now }
    ensures row { option_copied result ≡ row_field schema.now (option_map atom_in before.entry) rel (drop at bytes.entry.now) }
    ensures within { IfSome result (λ row. at + length row.now ≤ length bytes.entry.now) }
    ensures keeps { IfSome result (λ row. row_keeps (option_map atom_in before.entry) rel row.now ≡ true) }
{
    row_field(schema, rest_at(bytes, at), before, rel)
}

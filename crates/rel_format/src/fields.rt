//! The values of single fields.
ghost use Rattle.std.specs.Prelude.{◌≡◌, ◌≤◌, ◌+◌, ℕ, Some, None, IsFalse, drop, false, ◌↔◌, IsTrue, map, take, length, IfSome};
ghost use Rattle.hera_meaning.specs.declared.schemas.TheConstants.{RELATIONS_LIMIT};
ghost use Rattle.hera_meaning.specs.Identifiers.{IsIdentifier};
ghost use Rattle.std.specs.List.{list_any};
ghost use Rattle.std.specs.Option.{option_copied};
ghost use Rattle.hera_sets.specs.Rows.{holds, is_same};
ghost use Rattle.hera_meaning.specs.Schemas.{names_of};
ghost use Rattle.hera_meaning.specs.Catalogues.{decl_name};
ghost use Rattle.rel_format.specs.Fields.{piece, is_identifier, new_name, count_field, length_field, width_field, name_field, kind_field, magic_field};

use crate::small::{number16, rest_at};
use hera_meaning::{ATTRS_LIMIT, Attr, Kind, RELATIONS_LIMIT};
use hera_row::{Catalogue, is_name};
use hera_sets::is_same;

/// The first bytes, where there are so many.
fn piece(bytes: &[u8], len: usize) -> Option<&[u8]>
    ensures piece { option_copied result ≡ piece len bytes.now }
    ensures value { IfSome result (λ front. front.now ≡ take len bytes.now) }
    ensures within { IfSome result (λ front. len ≤ length bytes.now) }
{
    if len <= bytes.len() {
        Some(&bytes[..len])
    } else {
        None
    }
}

/// The first two bytes, a number of relations.
fn count_field(bytes: &[u8]) -> Option<u16>
    ensures value { result ≡ count_field bytes.now }
    ensures within { IfSome result (λ n. 2 ≤ length bytes.now) }
    ensures few { IfSome result (λ n. n ≤ RELATIONS_LIMIT) }
{
    match number16(bytes) {
        Some(count) if count as usize <= RELATIONS_LIMIT => Some(count),
        _ => None,
    }
}

/// The first byte, a name's length.
fn length_field(bytes: &[u8]) -> Option<u8>
    ensures value { result ≡ length_field bytes.now }
    ensures within { IfSome result (λ n. 1 ≤ length bytes.now) }
{
    match bytes {
        [n, ..] if *n > 0 => Some(*n),
        _ => None,
    }
}

/// The first byte, a number of attributes.
fn width_field(bytes: &[u8]) -> Option<u8>
    ensures value { result ≡ width_field bytes.now }
    ensures within { IfSome result (λ n. 1 ≤ length bytes.now) }
{
    match bytes {
        [n, ..] if *n > 0 && *n as usize <= ATTRS_LIMIT => Some(*n),
        _ => None,
    }
}

/// The first byte, a kind.
fn kind_field(bytes: &[u8]) -> Option<Kind>
    ensures value { result ≡ kind_field bytes.now }
    ensures within { IfSome result (λ n. 1 ≤ length bytes.now) }
{
    match bytes {
        [1, ..] => Some(Kind::Int),
        [2, ..] => Some(Kind::Bool),
        [3, ..] => Some(Kind::Text),
        _ => None,
    }
}

/// The first bytes, a name.
fn name_field(bytes: &[u8], len: usize) -> Option<&[u8]>
    ensures name { option_copied result ≡ name_field len bytes.now }
    ensures piece { IfSome result (λ name. name.now ≡ take len bytes.now) }
    ensures within { IfSome result (λ name. len ≤ length bytes.now) }
    ensures identifier { IfSome result (λ name. IsIdentifier name.now) }
{
    match piece(bytes, len) {
        Some(name) if is_identifier(name) => Some(name),
        _ => None,
    }
}

/// Whether the bytes have an identifier's shape.
fn is_identifier(name: &[u8]) -> bool
    ensures test { result ≡ is_identifier name.now }
    ensures shape { IsTrue result ↔ IsIdentifier name.now }
{
    is_name(name)
}

/// The first bytes, a name that no attribute has.
fn new_attr_name<'a>(bytes: &'a [u8], len: usize, attrs: &[Attr]) -> Option<&'a [u8]>
    ensures name { option_copied result ≡ new_name (names_of attrs.now) len bytes.entry.now }
    ensures piece { IfSome result (λ name. name.now ≡ take len bytes.entry.now) }
    ensures within { IfSome result (λ name. len ≤ length bytes.entry.now) }
    ensures identifier { IfSome result (λ name. IsIdentifier name.now) }
    ensures new { IfSome result (λ name. holds (names_of attrs.now) name.now ≡ false) }
{
    match name_field(bytes, len) {
        Some(name) if !has_attr(attrs, name) => Some(name),
        _ => None,
    }
}

/// The first bytes, a name that no relation has.
fn new_rel_name<'a>(bytes: &'a [u8], len: usize, rels: &Catalogue) -> Option<&'a [u8]>
    ensures name { option_copied result ≡ new_name (map decl_name rels.now) len bytes.entry.now }
    ensures piece { IfSome result (λ name. name.now ≡ take len bytes.entry.now) }
    ensures within { IfSome result (λ name. len ≤ length bytes.entry.now) }
    ensures identifier { IfSome result (λ name. IsIdentifier name.now) }
    ensures new { IfSome result (λ name. holds (map decl_name rels.now) name.now ≡ false) }
{
    match name_field(bytes, len) {
        Some(name) if !has_rel(rels, name) => Some(name),
        _ => None,
    }
}

/// Whether a relation has this name.
fn has_rel(rels: &Catalogue, name: &[u8]) -> bool
    ensures { result ≡ holds (map decl_name rels.now) name.now }
{
    rels.find(name).is_some()
}

/// Whether the bytes begin with these eight.
fn magic_field<'a>(bytes: &'a [u8], magic: &[u8]) -> Option<&'a [u8]>
    ensures { option_copied result ≡ magic_field magic.now bytes.now }
{
    match piece(bytes, 8) {
        Some(front) if is_same(front, magic) => Some(front),
        _ => None,
    }
}

/// Whether an attribute has this name.
fn has_attr(attrs: &[Attr], name: &[u8]) -> bool
    ensures { result ≡ holds (names_of attrs.now) name.now }
{
    any_named(attrs, name)
}

/// Whether an attribute has this name.
fn any_named(attrs: &[Attr], name: &[u8]) -> bool
    ensures { result ≡ list_any (λ a. is_same name.now a.name) attrs.now }
{
    attrs.iter().any(|attr| is_named(attr, name))
}

/// Whether the attribute has this name.
fn is_named(attr: &Attr, name: &[u8]) -> bool
    ensures { result ≡ is_same name.now attr.now.name }
{
    is_same(name, attr.name.bytes())
}

// ---- the same at a place

/// The first eight bytes, where they are these.
pub fn magic_at(bytes: &[u8], magic: &[u8]) -> bool
    ensures value { IsTrue result → magic_field magic.now bytes.now ≡ Some (take 8 bytes.now) }
    ensures other { IsFalse result → magic_field magic.now bytes.now ≡ None }
    ensures within { IsTrue result → 8 ≤ length bytes.now }
{
    magic_field(bytes, magic).is_some()
}

/// The number of relations at a place.
pub fn count_at(bytes: &[u8], at: usize) -> Option<u16>
    requires { at ≤ length bytes.now }
    ensures value { result ≡ count_field (drop at bytes.now) }
    ensures within { IfSome result (λ n. at + 2 ≤ length bytes.now) }
    ensures few { IfSome result (λ n. n ≤ RELATIONS_LIMIT) }
{
    count_field(rest_at(bytes, at))
}

/// The name's length at a place.
pub fn length_at(bytes: &[u8], at: usize) -> Option<u8>
    requires { at ≤ length bytes.now }
    ensures value { result ≡ length_field (drop at bytes.now) }
    ensures within { IfSome result (λ n. at + 1 ≤ length bytes.now) }
{
    length_field(rest_at(bytes, at))
}

/// The number of attributes at a place.
pub fn width_at(bytes: &[u8], at: usize) -> Option<u8>
    requires { at ≤ length bytes.now }
    ensures value { result ≡ width_field (drop at bytes.now) }
    ensures within { IfSome result (λ n. at + 1 ≤ length bytes.now) }
{
    width_field(rest_at(bytes, at))
}

/// The kind at a place.
pub fn kind_at(bytes: &[u8], at: usize) -> Option<Kind>
    requires { at ≤ length bytes.now }
    ensures value { result ≡ kind_field (drop at bytes.now) }
    ensures within { IfSome result (λ n. at + 1 ≤ length bytes.now) }
{
    kind_field(rest_at(bytes, at))
}

/// The name at a place, which is new.
pub fn attr_name_at<'a>(bytes: &'a [u8], at: usize, len: usize, attrs: &[Attr]) -> Option<&'a [u8]>
    requires { at ≤ length bytes.now }
    ensures name { option_copied result ≡ new_name (names_of attrs.now) len (drop at bytes.entry.now) }
    ensures length { IfSome result (λ name. len ≡ length name.now) }
    ensures within { IfSome result (λ name. at + len ≤ length bytes.entry.now) }
    ensures identifier { IfSome result (λ name. IsIdentifier name.now) }
    ensures new { IfSome result (λ name. holds (names_of attrs.now) name.now ≡ false) }
{
    new_attr_name(rest_at(bytes, at), len, attrs)
}

/// The name at a place, which is new.
pub fn rel_name_at<'a>(bytes: &'a [u8], at: usize, len: usize, rels: &Catalogue) -> Option<&'a [u8]>
    requires { at ≤ length bytes.now }
    ensures name { option_copied result ≡ new_name (map decl_name rels.now) len (drop at bytes.entry.now) }
    ensures length { IfSome result (λ name. len ≡ length name.now) }
    ensures within { IfSome result (λ name. at + len ≤ length bytes.entry.now) }
    ensures identifier { IfSome result (λ name. IsIdentifier name.now) }
    ensures new { IfSome result (λ name. holds (map decl_name rels.now) name.now ≡ false) }
{
    new_rel_name(rest_at(bytes, at), len, rels)
}

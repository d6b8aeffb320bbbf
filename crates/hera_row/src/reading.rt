//! Rows read in place: no call takes memory or makes a tuple.
ghost use Rattle.std.specs.Prelude.{cond, ◌≡◌, ◌↔◌, ◌≤◌, ◌<◌, ℕ, Some, true, IsTrue, IfSome, IfNone, length, take, nat_eq, pos, ◌-ℤ◌, ◌-◌, ◌^◌};
ghost use Rattle.std.specs.List.{position};
ghost use Rattle.std.specs.Str.{is_utf8};
ghost use Rattle.hera_meaning.specs.Rows.{IsRow, field_at, first_piece, scalar_of, number_from, through_zero};
ghost use Rattle.hera_row.specs.Fields.{told};
ghost use Rattle.hera_row.specs.Reading.{field_len, row_len_of, BeginsField};

use crate::ints::unshifted;
use crate::pieces::{piece_len, zero_at};
use byteorder::{BigEndian, ByteOrder};
use hera_meaning::{Kind, ScalarRef, Schema, TEXT_LIMIT};

/// Whether the bytes are a row of the schema.
pub fn check_row(schema: &Schema, bytes: &[u8]) -> bool
    ensures { IsTrue result ↔ IsRow schema.now bytes.now }
{
    measured(schema, bytes) == Some(bytes.len())
}

/// The length of the row of the schema with which the bytes begin, and `None` where they begin with
/// none.
pub fn row_len(schema: &Schema, bytes: &[u8]) -> Option<usize>
    ensures row { IfSome result (λ n. (n ≤ length bytes.now) × IsRow schema.now (take n bytes.now)) }
    ensures none { IfNone result ((n : ℕ) → n ≤ length bytes.now → ¬ (IsRow schema.now (take n bytes.now))) }
{
    measured(schema, bytes)
}

/// The field at place `i`, counted from 0.
pub fn field<'a>(schema: &Schema, row: &'a [u8], i: usize) -> ScalarRef<'a>
    requires row { IsRow schema.now row.now }
    requires within { i < length schema.now }
    ensures { told result ≡ field_at schema.now row.entry.now i }
{
    let mut rest = row;
    for place in 0..i {
        let piece = piece_len(schema.attr(place).kind, rest);
        rest = rest.split_at(piece).1;
    }
    scalar(schema.attr(i).kind, rest)
}

/// The field at place `i`, counted from 0, where the bytes are a row of the schema and there is such a place. They are
/// gone through once.
pub fn field_of_row<'a>(schema: &Schema, bytes: &'a [u8], i: usize) -> Option<ScalarRef<'a>>
    ensures there { IfSome result (λ field. (i < length schema.now) × IsRow schema.now bytes.entry.now × (told field ≡ field_at schema.now bytes.entry.now i)) }
    ensures none { IfNone result (i < length schema.now → ¬ (IsRow schema.now bytes.entry.now)) }
{
    if i >= schema.len() {
        return None;
    }
    let mut at = bytes;
    let mut rest = bytes;
    for place in 0..schema.len() {
        at = either(place == i, rest, at);
        let n = field_len(schema.attr(place).kind, rest)?;
        rest = rest.split_at(n).1;
    }
    if rest.is_empty() {
        Some(scalar(schema.attr(i).kind, at))
    } else {
        None
    }
}

/// The first piece where it is the one that is meant, and else the second.
#[inline]
fn either<'a>(first: bool, x: &'a [u8], y: &'a [u8]) -> &'a [u8]
    ensures { result.now ≡ cond first x.entry.now y.entry.now }
{
    if first { x } else { y }
}

/// The length of the row with which the bytes begin, by the lengths of its fields.
fn measured(schema: &Schema, bytes: &[u8]) -> Option<usize>
    ensures { result ≡ row_len_of schema.now bytes.now }
{
    let mut rest = bytes;
    for place in 0..schema.len() {
        let n = field_len(schema.attr(place).kind, rest)?;
        rest = rest.split_at(n).1;
    }
    Some(bytes.len() - rest.len())
}

/// The length of the field with which the bytes begin.
fn field_len(kind: Kind, bytes: &[u8]) -> Option<usize>
    ensures length { result ≡ field_len kind bytes.now }
    ensures within { IfSome result (λ n. n ≤ length bytes.now) }
{
    match kind {
        Kind::Int => if bytes.len() < 8 { None } else { Some(8) },
        Kind::Bool => match bytes {
            [b, ..] if *b < 2 => Some(1),
            _ => None,
        },
        Kind::Text => match zero_at(bytes) {
            Some(n) if n <= TEXT_LIMIT && is_utf8(&bytes[..n]) => Some(n + 1),
            _ => None,
        },
    }
}

/// Whether the bytes are UTF-8.
fn is_utf8(bytes: &[u8]) -> bool
    ensures { result ≡ is_utf8 bytes.now }
{
    match std::str::from_utf8(bytes) {
        Ok(_) => true,
        Err(_) => false,
    }
}

/// The field with which the bytes begin.
fn scalar<'a>(kind: Kind, bytes: &'a [u8]) -> ScalarRef<'a>
    requires { BeginsField kind bytes.now }
    ensures { told result ≡ scalar_of kind (first_piece kind bytes.entry.now) }
{
    match kind {
        Kind::Int => ScalarRef::Int(int(bytes)),
        Kind::Bool => ScalarRef::Bool(bytes[0] > 0),
        Kind::Text => ScalarRef::Text(text(bytes)),
    }
}

/// The int whose 8 bytes stand first: their number less 2^63.
fn int(bytes: &[u8]) -> i64
    requires { 8 ≤ length bytes.now }
    ensures { result ≡ pos (number_from 0 (take 8 bytes.now)) -ℤ pos (2 ^ 63) }
{
    unshifted(BigEndian::read_u64(bytes))
}

/// The bytes before the first zero byte.
fn text(bytes: &[u8]) -> &[u8]
    ensures { result.now ≡ take (length (through_zero bytes.now) - 1) (through_zero bytes.now) }
{
    match zero_at(bytes) {
        Some(n) => &bytes[..n],
        None => &bytes[..bytes.len().saturating_sub(1)],
    }
}

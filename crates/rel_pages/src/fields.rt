//! The fields of pages at their places.
ghost use Rattle.std.specs.Prelude.{◌≡◌, ◌==◌, ◌≤◌, ◌<◌, ◌+◌, length, drop, IsTrue, IsFalse, IfSome, Some, None, take};
ghost use Rattle.std.specs.Int.{w16, w32};
ghost use Rattle.std.specs.List.{list_all};
ghost use Rattle.std.specs.Option.{option_copied, option_map};
ghost use Rattle.hera_sets.specs.Rows.{is_past};
ghost use Rattle.hera_row.specs.Reading.{row_len_of};
ghost use Rattle.rel_format.specs.Fields.{number, rel_field, row_count_field, follows, had_no_room, row_field, fill_field};
ghost use Rattle.rel_pages.specs.Reading.{told};

use hera_meaning::Schema;
use hera_sets::is_below;
use rel_format::{first_len, number16, number32, rest_at};

/// The end of a page: its relation, the bytes used in it, and its last row.
#[derive(Clone, Copy)]
pub(crate) struct PageEnd<'a> {
    pub(crate) rel: u16,
    pub(crate) used: usize,
    pub(crate) row: &'a [u8],
}

/// What a row has to keep to: the bytes of its page, those used before it, the row before it, and
/// the bytes used in the page before where it is the first of its own.
#[derive(Clone, Copy)]
pub(crate) struct RowRule<'a> {
    pub(crate) page: usize,
    pub(crate) used: usize,
    pub(crate) before: Option<&'a [u8]>,
    pub(crate) full: Option<usize>,
}

/// The number of pages at a place.
pub(crate) fn page_count_at(bytes: &[u8], at: usize) -> Option<u32>
    requires { at ≤ length bytes.now }
    ensures value { result ≡ number w32 (drop at bytes.now) }
    ensures within { IfSome result (λ n. at + 4 ≤ length bytes.now) }
{
    number32(rest_at(bytes, at))
}

/// Whether a page of this relation may come behind the previous one.
fn follows(last: Option<PageEnd<'_>>, rel: u16) -> bool
    ensures { result ≡ follows (option_map told last.entry) rel }
{
    match last {
        None => true,
        Some(end) => end.rel <= rel,
    }
}

/// The first two bytes, a page's relation of so many.
fn rel_field(bytes: &[u8], count: usize, last: Option<PageEnd<'_>>) -> Option<u16>
    ensures value { result ≡ rel_field count (option_map told last.entry) bytes.now }
    ensures within { IfSome result (λ rel. 2 ≤ length bytes.now) }
    ensures known { IfSome result (λ rel. rel < count) }
{
    match number16(bytes) {
        Some(rel) if (rel as usize) < count && follows(last, rel) => Some(rel),
        _ => None,
    }
}

/// The relation at a place of a page.
pub(crate) fn rel_at(
    bytes: &[u8],
    at: usize,
    count: usize,
    last: Option<PageEnd<'_>>,
) -> Option<u16>
    requires { at ≤ length bytes.now }
    ensures value { result ≡ rel_field count (option_map told last.entry) (drop at bytes.now) }
    ensures within { IfSome result (λ rel. at + 2 ≤ length bytes.now) }
    ensures known { IfSome result (λ rel. rel < count) }
{
    rel_field(rest_at(bytes, at), count, last)
}

/// The first two bytes, a page's number of rows.
fn row_count_field(bytes: &[u8]) -> Option<u16>
    ensures value { result ≡ row_count_field bytes.now }
    ensures within { IfSome result (λ n. 2 ≤ length bytes.now) }
    ensures some { IfSome result (λ n. 1 ≤ n) }
{
    match number16(bytes) {
        Some(n) if n > 0 => Some(n),
        _ => None,
    }
}

/// The number of rows at a place.
pub(crate) fn row_count_at(bytes: &[u8], at: usize) -> Option<u16>
    requires { at ≤ length bytes.now }
    ensures value { result ≡ row_count_field (drop at bytes.now) }
    ensures within { IfSome result (λ n. at + 2 ≤ length bytes.now) }
    ensures some { IfSome result (λ n. 1 ≤ n) }
{
    row_count_field(rest_at(bytes, at))
}

/// Whether the row lies past the bound.
pub(crate) fn is_past(bound: Option<&[u8]>, row: &[u8]) -> bool
    ensures { result ≡ is_past (option_copied bound.entry) row.now }
{
    match bound {
        None => true,
        Some(low) => is_below(low, row),
    }
}

/// Whether a page with so many bytes used has no room for a row of this length.
fn had_no_room(page: usize, full: Option<usize>, len: usize) -> bool
    requires { IfSome full (λ used. used ≤ page) }
    ensures { result ≡ had_no_room page full len }
{
    match full {
        None => true,
        Some(used) => len > page - used,
    }
}

/// The row with which the bytes begin.
fn row_field<'a>(schema: &Schema, rule: &RowRule<'_>, bytes: &'a [u8]) -> Option<&'a [u8]>
    requires full { IfSome rule.now.full (λ used. used ≤ rule.now.page) }
    requires used { rule.now.used ≤ rule.now.page }
    ensures row { option_copied result ≡ row_field rule.now.page schema.now rule.now.used (option_copied rule.now.before) rule.now.full bytes.entry.now }
    ensures within { IfSome result (λ row. length row.now ≤ length bytes.entry.now) }
    ensures fits { IfSome result (λ row. rule.now.used + length row.now ≤ rule.now.page) }
{
    let len = first_len(schema, bytes)?;
    let row = bytes.split_at(len).0;
    if len <= rule.page - rule.used
        && is_past(rule.before, row)
        && had_no_room(rule.page, rule.full, len)
    {
        Some(row)
    } else {
        None
    }
}

/// The row at a place.
pub(crate) fn row_at<'a>(
    schema: &Schema,
    rule: &RowRule<'_>,
    bytes: &'a [u8],
    at: usize,
) -> Option<&'a [u8]>
    requires within { at ≤ length bytes.now }
    requires full { IfSome rule.now.full (λ used. used ≤ rule.now.page) }
    requires used { rule.now.used ≤ rule.now.page }
    ensures row { option_copied result ≡ row_field rule.now.page schema.now rule.now.used (option_copied rule.now.before) rule.now.full (drop at bytes.entry.now) }
    ensures within { IfSome result (λ row. at + length row.now ≤ length bytes.entry.now) }
    ensures fits { IfSome result (λ row. rule.now.used + length row.now ≤ rule.now.page) }
{
    row_field(schema, rule, rest_at(bytes, at))
}

/// Whether all are zero bytes.
fn are_zeros(bytes: &[u8]) -> bool
    ensures { result ≡ list_all (λ x. x == 0) bytes.now }
{
    bytes.iter().all(|x| *x == 0)
}

/// Whether so many zero bytes stand at a place.
pub(crate) fn fill_at(bytes: &[u8], at: usize, len: usize) -> bool
    requires { at ≤ length bytes.now }
    ensures value { IsTrue result → fill_field len (drop at bytes.now) ≡ Some (take len (drop at bytes.now)) }
    ensures other { IsFalse result → fill_field len (drop at bytes.now) ≡ None }
    ensures within { IsTrue result → at + len ≤ length bytes.now }
{
    let rest = rest_at(bytes, at);
    len <= rest.len() && are_zeros(rest.split_at(len).0)
}

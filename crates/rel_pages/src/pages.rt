//! The pages of a half, read one after another.
ghost use Rattle.std.specs.Prelude.{IfSome, ◌≡◌, ◌≤◌, ◌<◌, ◌+◌, ℕ, suc, List, [], ◌∷◌, ◌++◌, length, map, set, get_or, replicate, slice_get, Some, All, IfOk, IfErr, OnOk};
ghost use Rattle.std.specs.Option.{option_map, option_copied};
ghost use Rattle.hera_sets.specs.Rows.{Row};
ghost use Rattle.hera_meaning.specs.Deltas.{schema_of};
ghost use Rattle.rel_format.specs.Pages.{Format};
ghost use Rattle.rel_format.specs.Table.{Book, Stand, at_page, at_rels, behind_row, page_before};
ghost use Rattle.rel_format.specs.Places.{Finds};
ghost use Rattle.rel_pages.specs.Reading.{told, row_told, used_told, RowsTo, PageTo, PagesTo};
ghost use Rattle.rel_pages.specs.Starts.{IsRead, IsOneMore, AreMoreRead};

use crate::fields::{PageEnd, RowRule, fill_at, page_count_at, rel_at, row_at, row_count_at};
use crate::page_rel::one_width;
use crate::starts::{ReadStart, note_start};
use hera_meaning::{RelId, Schema};
use hera_row::Catalogue;
use rel_format::{PAGE_HEAD, PageFault, damaged};
use std::alloc::{AllocError, Global};

/// The end of the page before, where it has the same relation.
fn page_before<'a>(last: Option<PageEnd<'a>>, rel: u16) -> Option<PageEnd<'a>>
    ensures { option_map told result ≡ page_before (option_map told last.entry) rel }
{
    match last {
        Some(end) if end.rel == rel => Some(end),
        _ => None,
    }
}

/// What the first row of a page has to keep to.
fn first_rule<'a>(page: usize, earlier: Option<PageEnd<'a>>) -> RowRule<'a>
    requires { IfSome earlier (λ end. end.used ≤ page) }
    ensures page { result.page ≡ page }
    ensures used { result.used ≡ 4 }
    ensures before { option_copied result.before ≡ option_map row_told (option_map told earlier.entry) }
    ensures full { result.full ≡ option_map used_told (option_map told earlier.entry) }
    ensures fits { IfSome result.full (λ used. used ≤ page) }
{
    match earlier {
        None => RowRule {
            page,
            used: PAGE_HEAD,
            before: None,
            full: None,
        },
        Some(end) => RowRule {
            page,
            used: PAGE_HEAD,
            before: Some(end.row),
            full: Some(end.used),
        },
    }
}

/// What is known of a page before its rows are read: its relation, how many rows it has, whether rows of that relation
/// differ in length, and the end of the page before, where that has the same relation.
#[derive(Clone, Copy)]
struct Head<'a> {
    rel: u16,
    count: u16,
    differ: bool,
    earlier: Option<PageEnd<'a>>,
}

/// The rows of a page from a place on: the bytes that are then used in it and its last row, and the
/// place behind them. Where rows differ in length, it is noted where some begin.
fn rows_at<'a>(
    schema: &Schema,
    page: usize,
    bytes: &'a [u8],
    at: usize,
    head: Head<'a>,
    starts: &mut Vec<ReadStart>,
) -> Result<((usize, &'a [u8]), usize), PageFault>
    requires within { at ≤ length bytes.now }
    requires sized { 4 ≤ page }
    requires some { 1 ≤ head.count }
    requires earlier { IfSome head.earlier (λ end. end.used ≤ page) }
    ensures within { IfOk result (λ x. x.1 ≤ length bytes.entry.now) }
    ensures used { IfOk result (λ x. x.0.0 ≤ page) }
    ensures place { IfOk result (λ x. x.1 + 4 ≡ at + x.0.0) }
    ensures read { (f : Format) (b : Book) (left rel : ℕ) → f.page ≡ page → schema_of b.rels rel ≡ schema.now → page_before b.last rel ≡ option_map told head.entry.earlier →
        Finds f bytes.entry.now at (behind_row b left (record { rel = rel; rows = [] }) head.entry.count) (λ x. RowsTo b left rel (x.0, x.1.now) 0) result }
    ensures starts { OnOk result (AreMoreRead schema.now head.entry.rel bytes.entry.now starts.old.items starts.new.items) }
{
    let first = first_rule(page, head.earlier);
    let Some(row) = row_at(schema, &first, bytes, at) else {
        return Err(damaged(at));
    };
    let rows = at;
    note_row(starts, head, rows, 0, 0)?;
    let mut used = PAGE_HEAD + row.len();
    let mut at = at + row.len();
    let mut last = row;
    for number in 1..head.count {
        let rule = RowRule {
            page,
            used,
            before: Some(last),
            full: None,
        };
        let Some(row) = row_at(schema, &rule, bytes, at) else {
            return Err(damaged(at));
        };
        note_row(starts, head, rows, number as usize, used - PAGE_HEAD)?;
        used += row.len();
        at += row.len();
        last = row;
    }
    Ok(((used, last), at))
}

/// Notes where a row of a page begins whose rows stand from a place on, where they differ in length.
fn note_row(
    starts: &mut Vec<ReadStart>,
    head: Head<'_>,
    rows: usize,
    row: usize,
    at: usize,
) -> Result<(), PageFault>
    ensures ok { OnOk result (IsOneMore starts.old.items (record { rel = head.entry.rel; rows = rows; row = row; at = at }) starts.new.items) }
    ensures err { IfErr result (λ e. e ≡ PageFault.Memory) }
{
    if !head.differ {
        return Ok(());
    }
    let rel = head.rel;
    note_start(starts, ReadStart { rel, rows, row, at })
}

/// The page at a place, and the place behind it.
pub(crate) fn page_at<'a>(
    page: usize,
    bytes: &'a [u8],
    at: usize,
    rels: &Catalogue,
    last: Option<PageEnd<'a>>,
    starts: &mut Vec<ReadStart>,
) -> Result<(PageEnd<'a>, usize), PageFault>
    requires within { at ≤ length bytes.now }
    requires sized { 4 ≤ page }
    requires last { IfSome last (λ end. end.used ≤ page) }
    requires starts { All (IsRead rels.now bytes.now) starts.old.items }
    ensures within { IfOk result (λ x. x.1 ≤ length bytes.entry.now) }
    ensures known { IfOk result (λ x. x.0.rel < length rels.now) }
    ensures used { IfOk result (λ x. x.0.used ≤ page) }
    ensures place { IfOk result (λ x. x.1 ≡ at + page) }
    ensures read { (f : Format) (b : Book) (left : ℕ) → f.page ≡ page → b.rels ≡ rels.now → b.last ≡ option_map told last.entry →
        Finds f bytes.entry.now at (at_page b (suc left)) (PageTo b left) result }
    ensures starts { OnOk result (All (IsRead rels.now bytes.entry.now) starts.new.items) }
{
    let Some(rel) = rel_at(bytes, at, rels.len(), last) else {
        return Err(damaged(at));
    };
    let Some(count) = row_count_at(bytes, at + 2) else {
        return Err(damaged(at + 2));
    };
    let schema = &rels.decl(RelId(rel)).schema;
    let head = Head {
        rel,
        count,
        differ: one_width(schema).is_none(),
        earlier: page_before(last, rel),
    };
    let ((used, row), behind) = rows_at(schema, page, bytes, at + PAGE_HEAD, head, starts)?;
    if !fill_at(bytes, behind, page - used) {
        return Err(damaged(behind));
    }
    Ok((PageEnd { rel, used, row }, behind + (page - used)))
}

/// So many zeros.
fn zeros(alloc: Global, count: usize) -> Result<Vec<usize>, PageFault>
    ensures ok { IfOk result (λ zeros. zeros.items ≡ replicate count 0) }
    ensures err { IfErr result (λ e. e ≡ PageFault.Memory) }
{
    let mut zeros = Vec::new(alloc);
    for _ in 0..count {
        push(&mut zeros, 0)?;
    }
    Ok(zeros)
}

/// Puts a number behind the others.
fn push(numbers: &mut Vec<usize>, number: usize) -> Result<(), PageFault>
    ensures ok { OnOk result (numbers.new.items ≡ numbers.old.items ++ number ∷ []) }
    ensures err { IfErr result (λ e. e ≡ PageFault.Memory) }
{
    match numbers.push(number) {
        Ok(()) => Ok(()),
        Err(_) => Err(PageFault::Memory),
    }
}

/// Adds the bytes of a page to those of its relation.
fn add_page(lens: &mut Vec<usize>, rel: u16, page: usize)
    requires known { rel < length lens.old.items }
    requires fits { get_or lens.old.items rel 0 + page ≤ 18446744073709551615 }
    ensures { lens.new.items ≡ set lens.old.items rel (get_or lens.old.items rel 0 + page) }
{
    lens[rel as usize] += page;
}

/// The pages whose number stands at a place: the bytes of those of each relation, and the place
/// behind them.
pub(crate) fn pages_at(
    alloc: Global,
    page: usize,
    bytes: &[u8],
    at: usize,
    rels: &Catalogue,
    starts: &mut Vec<ReadStart>,
) -> Result<(Vec<usize>, usize), PageFault>
    requires within { at ≤ length bytes.now }
    requires sized { 4 ≤ page }
    requires starts { All (IsRead rels.now bytes.now) starts.old.items }
    ensures within { IfOk result (λ x. x.1 ≤ length bytes.now) }
    ensures read { (f : Format) → f.page ≡ page → Finds f bytes.now at (at_rels rels.now 0) (λ lens. PagesTo page rels.now lens.items) result }
    ensures starts { OnOk result (All (IsRead rels.now bytes.now) starts.new.items) }
{
    let Some(count) = page_count_at(bytes, at) else {
        return Err(damaged(at));
    };
    let mut lens = zeros(alloc, rels.len())?;
    let mut at = at + 4;
    let mut last = None;
    for _ in 0..count {
        let (end, behind) = page_at(page, bytes, at, rels, last, starts)?;
        add_page(&mut lens, end.rel, page);
        at = behind;
        last = Some(end);
    }
    Ok((lens, at))
}

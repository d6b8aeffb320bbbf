//! The pages of a relation.
ghost use Rattle.std.specs.Prelude.{◌≡◌, ◌≤◌, ◌<◌, ◌+◌, ◌^◌, ◌++◌, ◌∷◌, [], List, ℕ, length, IfOk, IfErr, OnOk, OnErr};
ghost use Rattle.rel_format.specs.declared.version.TheConstants.{HALF_LIMIT, PAGE_TWO};
ghost use Rattle.hera_sets.specs.Rows.{Row};
ghost use Rattle.rel_format.specs.Pages.{FitsIn, paged, rel_bytes, page_bytes, joined};
ghost use Rattle.half_writer.specs.Written.{AreRows, IsFullAt, IsFirstFull};
ghost use Rattle.half_writer.specs.Paging.{Task, IsPaging, IsPut};

use crate::open_page::OpenPage;
use crate::pages::{HalfFault, close_page};
use hera_rows::{RowMark, Sorted};
use rel_format::{PAGE_HEAD, PAGE_TWO};

/// Closes the open page, where there is room for it beside `head` bytes, and opens the next.
fn turn(
    head: u64,
    bytes: &mut Vec<u8>,
    page: OpenPage,
    rel: u16,
    limit: u64,
) -> Result<OpenPage, HalfFault>
    requires room { head + length bytes.old.items ≤ limit }
    requires limit { limit ≤ HALF_LIMIT }
    requires before { page.before ≤ length bytes.old.items }
    ensures page { (held : List Row) → page.count ≡ length held → page.rows.items ≡ joined held → OnOk result (bytes.new.items ≡ bytes.old.items ++ page_bytes PAGE_TWO rel held) }
    ensures length { OnOk result (length bytes.new.items ≡ length bytes.old.items + PAGE_TWO) }
    ensures rows { IfOk result (λ next. next.rows.items ≡ []) }
    ensures count { IfOk result (λ next. next.count ≡ 0) }
    ensures before { IfOk result (λ next. next.before ≡ page.before + 1) }
    ensures room { OnOk result (head + length bytes.new.items ≤ limit) }
    ensures full { IfErr result (IsFullAt (head + length bytes.old.items + PAGE_TWO) limit) }
{
    close_page(bytes, rel, page.count, &page.rows, head, limit)?;
    Ok(page.next())
}

/// Puts a row behind the others of the open page.
fn put(page: OpenPage, row: &[u8]) -> Result<OpenPage, HalfFault>
    requires some { 1 ≤ length row.now }
    requires fits { 4 + length page.rows.items + length row.now ≤ PAGE_TWO }
    ensures put { IfOk result (IsPut page row.now) }
    ensures err { IfErr result (λ e. e ≡ HalfFault.Memory) }
{
    match page.push(row) {
        Ok(next) => Ok(next),
        Err(_) => Err(HalfFault::Memory),
    }
}

/// Puts a row in the open page, or in the next where it does not fit.
fn put_row(
    head: u64,
    bytes: &mut Vec<u8>,
    page: OpenPage,
    rel: u16,
    row: &[u8],
    limit: u64,
) -> Result<OpenPage, HalfFault>
    requires some { 1 ≤ length row.now }
    requires short { FitsIn PAGE_TWO row.now }
    requires room { head + length bytes.old.items ≤ limit }
    requires limit { limit ≤ HALF_LIMIT }
    requires before { page.before ≤ length bytes.old.items }
    ensures paging { (t : Task) (rest : List Row) → t.rel ≡ rel → IsPaging t (row.now ∷ rest) bytes.old.items page → IfOk result (λ next. IsPaging t rest bytes.new.items next) }
    ensures before { IfOk result (λ next. next.before ≤ length bytes.new.items) }
    ensures room { OnOk result (head + length bytes.new.items ≤ limit) }
    ensures full { (t : Task) (rest : List Row) → IsPaging t (row.now ∷ rest) bytes.old.items page → IfErr result (IsFirstFull PAGE_TWO (head + length t.front) (length (paged PAGE_TWO t.all)) limit) }
{
    if PAGE_HEAD + page.rows.len() + row.len() <= PAGE_TWO {
        return put(page, row);
    }
    let next = turn(head, bytes, page, rel, limit)?;
    put(next, row)
}

/// Closes the last page, where there is a row, and tells how many pages there are.
fn close_last(
    head: u64,
    bytes: &mut Vec<u8>,
    page: OpenPage,
    rel: u16,
    limit: u64,
) -> Result<u32, HalfFault>
    requires room { head + length bytes.old.items ≤ limit }
    requires limit { limit ≤ HALF_LIMIT }
    requires before { page.before ≤ length bytes.old.items }
    ensures pages { (t : Task) → t.rel ≡ rel → IsPaging t [] bytes.old.items page → OnOk result (bytes.new.items ≡ t.front ++ rel_bytes PAGE_TWO t.rel t.all) }
    ensures count { (t : Task) → IsPaging t [] bytes.old.items page → IfOk result (λ n. n ≡ t.first + length (paged PAGE_TWO t.all)) }
    ensures within { IfOk result (λ n. n ≤ length bytes.new.items) }
    ensures room { OnOk result (head + length bytes.new.items ≤ limit) }
    ensures full { (t : Task) → IsPaging t [] bytes.old.items page → IfErr result (IsFirstFull PAGE_TWO (head + length t.front) (length (paged PAGE_TWO t.all)) limit) }
{
    if page.count == 0 {
        return Ok(page.before);
    }
    let next = turn(head, bytes, page, rel, limit)?;
    Ok(next.before)
}

/// Appends the pages of a relation of this number, behind so many pages, and tells how many pages
/// there are then. The half has `head` bytes beside its pages.
pub(crate) fn add_pages<S: Sorted>(
    head: u64,
    bytes: &mut Vec<u8>,
    before: u32,
    rel: u16,
    rows: &S,
    limit: u64,
) -> Result<u32, HalfFault>
    requires rows { AreRows (S.rows rows.now) }
    requires head { head ≤ 2 ^ 63 + 4 }
    requires within { length bytes.old.items ≤ HALF_LIMIT }
    requires limit { limit ≤ HALF_LIMIT }
    requires before { before ≤ length bytes.old.items }
    ensures pages { OnOk result (bytes.new.items ≡ bytes.old.items ++ rel_bytes PAGE_TWO rel (S.rows rows.now)) }
    ensures count { IfOk result (λ n. n ≡ before + length (paged PAGE_TWO (S.rows rows.now))) }
    ensures within { IfOk result (λ n. n ≤ length bytes.new.items) }
    ensures room { OnOk result (head + length bytes.new.items ≤ limit) }
    ensures full { IfErr result (IsFirstFull PAGE_TWO (head + length bytes.old.items) (length (paged PAGE_TWO (S.rows rows.now))) limit) }
{
    let need = head + bytes.as_slice().len() as u64;
    if need > limit {
        return Err(HalfFault::Full { need, limit });
    }
    let mut page = OpenPage::new(*bytes.allocator(), before);
    let mut last: Option<&[u8]> = None;
    let mut mark = RowMark::start();
    while let Some(row) = rows.above_from(last, &mut mark) {
        page = put_row(head, bytes, page, rel, row, limit)?;
        last = Some(row);
    }
    close_last(head, bytes, page, rel, limit)
}

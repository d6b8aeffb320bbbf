//! The rows of one relation, in the bytes of its pages.
ghost use Rattle.std.specs.Prelude.{◌≡◌, ◌↔◌, IsTrue, [], ◌<◌, ◌≤◌, ◌+◌, ◌-◌, ◌*◌, ◌++◌, length, List, ℕ, true, is_some, Option, IfSome, None, Some, take, drop};
ghost use Rattle.std.specs.List.{find};
ghost use Rattle.std.specs.Option.{option_copied};
ghost use Rattle.hera_sets.specs.Rows.{IsAscending};
ghost use Rattle.hera_row.specs.Reading.{row_len_of};
ghost use Rattle.rel_pages.specs.Rels.{IsPaged, rows_in, rows_from, page_rows, pages_rows, rows_counted, leading, passes, IsPage, ArePagesOf, IsRun};

use crate::leading::leading_len;
use crate::place::{Near, Place};
use hera_meaning::{Kind, Schema};
use hera_rows::{RowMark, Sorted};
use hera_sets::{is_below, is_same};
use rel_format::PAGE_HEAD;
use std::marker::Model;

/// The rows of one relation, in byte order. `pages` are whole pages of `page` bytes, printed as those
/// of one relation with this schema. Rows are lent as slices of them.
#[derive(Drop)]
pub struct PageRel<'a> {
    pub schema: &'a Schema,
    pub pages: &'a [u8],
    pub page: usize,
}

impl<'a> Model for PageRel<'a> {
    ghost use Rattle.std.specs.Prelude.{List, ℕ};
    ghost use Rattle.rel_pages.specs.Rels.{IsPaged, rows_in};

    ghost Value = { List (List ℕ) };

    ghost view = { λ p. rows_in p.schema.now p.page p.pages.now };

    ghost invariant = { λ p. IsPaged p.schema.now p.page p.pages.now };
}

/// Which rows are looked for: any, those past a row, or those that are not below one.
#[derive(Clone, Copy)]
pub(crate) enum Bound<'b> {
    Any,
    Past(&'b [u8]),
    From(&'b [u8]),
}

impl<'a> Sorted for PageRel<'a> {
    ghost rows = { λ p. p };

    fn above<'s>(&'s self, bound: Option<&[u8]>) -> Option<&'s [u8]> {
        let bound = match bound {
            None => Bound::Any,
            Some(row) => Bound::Past(row),
        };
        first_in(self.schema, self.pages, self.page, bound).row
    }

    fn above_from<'s>(&'s self, bound: Option<&[u8]>, mark: &mut RowMark) -> Option<&'s [u8]> {
        let near = self.above_near(bound, Place::of(mark.first.kept));
        mark.first.kept = near.place.spot();
        near.row
    }

    fn not_below<'s>(&'s self, bound: &'s [u8], mark: &mut RowMark) -> Option<&'s [u8]> {
        let near = self.not_below_near(bound, Place::of(mark.first.kept));
        mark.first.kept = near.place.spot();
        near.row
    }

    fn has(&self, row: &[u8]) -> bool {
        match first_in(self.schema, self.pages, self.page, Bound::From(row)).row {
            None => false,
            Some(found) => is_same(row, found),
        }
    }
}

impl<'a> PageRel<'a> {
    /// How many rows there are. It looks at each page's head alone, and takes no memory.
    pub fn len(&self) -> usize
        ensures count { result ≡ length self.now }
        ensures ordered { IsAscending self.now }
    {
        count_in_pages(
            self.schema,
            self.pages,
            self.page,
            self.pages.len() / self.page,
        )
    }

    /// Whether there is no row. It looks at no page, and takes no memory.
    pub fn is_empty(&self) -> bool
        ensures { IsTrue result ↔ (self.now ≡ []) }
    {
        self.pages.is_empty()
    }
}

/// Whether the row is one of those that are looked for.
pub(crate) fn passes(bound: Bound<'_>, row: &[u8]) -> bool
    ensures { result ≡ passes bound.entry row.now }
{
    match bound {
        Bound::Any => true,
        Bound::Past(low) => is_below(low, row),
        Bound::From(low) => !is_below(row, low),
    }
}

/// The first row that is looked for. The pages before its own are passed over by their first rows.
pub(crate) fn first_in<'r>(
    schema: &Schema,
    pages: &'r [u8],
    page: usize,
    bound: Bound<'_>,
) -> Near<'r>
    requires { IsPaged schema.now page pages.now }
    ensures { option_copied result.row ≡ find (passes bound.entry) (rows_in schema.now page pages.entry.now) }
{
    let count = pages.len() / page;
    let before = pages_before(schema, pages, page, count, bound);
    let rest = pages.split_at(before * page).1;
    first_in_pages(schema, rest, page, before, count, bound)
}

/// So many pages that none of their rows is looked for: all before the last one whose first row is
/// not looked for.
fn pages_before(schema: &Schema, pages: &[u8], page: usize, count: usize, bound: Bound<'_>) -> usize
    requires pages { ArePagesOf schema.now page count pages.now }
    requires ascending { IsAscending (pages_rows schema.now page count pages.now) }
    ensures within { result ≤ count }
    ensures none { find (passes bound.entry) (pages_rows schema.now page result pages.now) ≡ None }
{
    let mut low = 0;
    let mut high = count;
    while high - low > 1 {
        let middle = low + (high - low) / 2;
        if passes(bound, leading_at(schema, pages, page, count, middle)) {
            high = middle;
        } else {
            low = middle;
        }
    }
    low
}

/// The first row of the page of this number.
pub(crate) fn leading_at<'r>(
    schema: &Schema,
    pages: &'r [u8],
    page: usize,
    count: usize,
    number: usize,
) -> &'r [u8]
    requires pages { ArePagesOf schema.now page count pages.now }
    requires within { number < count }
    ensures { result.now ≡ leading schema.now (drop 4 (take page (drop (number * page) pages.entry.now))) }
{
    let one = pages.split_at(number * page).1.split_at(page).0;
    first_row(schema, one.split_at(PAGE_HEAD).1).0
}

/// The first row that is looked for on the pages from the number `before` on, which are given, of so many.
pub(crate) fn first_in_pages<'r>(
    schema: &Schema,
    pages: &'r [u8],
    page: usize,
    before: usize,
    count: usize,
    bound: Bound<'_>,
) -> Near<'r>
    requires within { before ≤ count }
    requires pages { ArePagesOf schema.now page (count - before) pages.now }
    requires ascending { IsAscending (pages_rows schema.now page (count - before) pages.now) }
    ensures { option_copied result.row ≡ find (passes bound.entry) (pages_rows schema.now page (count - before) pages.entry.now) }
{
    let mut left = pages;
    let mut place = Place {
        page: before,
        row: 0,
    };
    for number in before..count {
        prove!(left.len() >= page);
        let (one, behind) = left.split_at(page);
        let near = first_in_page(schema, one, number, bound);
        if let Some(row) = near.row {
            return Near {
                row: Some(row),
                place: near.place,
            };
        }
        place = near.place;
        left = behind;
    }
    Near { row: None, place }
}

/// How many rows so many pages have, by their heads. The number fits, since each row has a byte.
pub(crate) fn count_in_pages(schema: &Schema, pages: &[u8], page: usize, count: usize) -> usize
    requires { ArePagesOf schema.now page count pages.now }
    ensures { result ≡ length (pages_rows schema.now page count pages.now) }
{
    let attributes = schema.len();
    prove!(attributes > 0);
    let mut rows = 0;
    let mut rest = pages;
    for _ in 0..count {
        prove!(rest.len() >= page);
        let (one, others) = rest.split_at(page);
        rows += row_count(one);
        rest = others;
    }
    rows
}

/// The first row that is looked for on a page, which has this number. Where all rows have one length it is
/// searched, else the rows are passed over one by one.
pub(crate) fn first_in_page<'r>(
    schema: &Schema,
    page: &'r [u8],
    number: usize,
    bound: Bound<'_>,
) -> Near<'r>
    requires page { IsPage schema.now page.now }
    requires ascending { IsAscending (page_rows schema.now page.now) }
    ensures { option_copied result.row ≡ find (passes bound.entry) (page_rows schema.now page.entry.now) }
{
    let count = row_count(page);
    let rows = page.split_at(PAGE_HEAD).1;
    match one_width(schema) {
        Some(width) => first_of_even(schema, rows, width, count, number, bound),
        None => first_of(schema, rows, 0, count, number, bound),
    }
}

/// The length of every row of the schema, where it has no text.
pub(crate) fn one_width(schema: &Schema) -> Option<usize>
    ensures { IfSome result (λ width. (bytes : List ℕ) (n : ℕ) → row_len_of schema.now bytes ≡ Some n → n ≡ width) }
{
    let mut width = 0;
    for place in 0..schema.len() {
        match schema.attr(place).kind {
            Kind::Int => width += 8,
            Kind::Bool => width += 1,
            Kind::Text => return None,
        }
    }
    Some(width)
}

/// The first of so many rows of one length that is looked for, on the page of this number.
fn first_of_even<'r>(
    schema: &Schema,
    bytes: &'r [u8],
    width: usize,
    count: usize,
    number: usize,
    bound: Bound<'_>,
) -> Near<'r>
    requires run { IsRun schema.now count bytes.now }
    requires ascending { IsAscending (rows_from schema.now count bytes.now) }
    requires even { (front : List ℕ) (n : ℕ) → row_len_of schema.now front ≡ Some n → n ≡ width }
    ensures { option_copied result.row ≡ find (passes bound.entry) (rows_from schema.now count bytes.entry.now) }
{
    let before = rows_before(schema, bytes, width, count, bound);
    first_of(
        schema,
        bytes.split_at(before * width).1,
        before,
        count,
        number,
        bound,
    )
}

/// So many rows of one length that none of them is looked for: all before the last one that is not
/// looked for.
fn rows_before(schema: &Schema, bytes: &[u8], width: usize, count: usize, bound: Bound<'_>) -> usize
    requires run { IsRun schema.now count bytes.now }
    requires ascending { IsAscending (rows_from schema.now count bytes.now) }
    requires even { (front : List ℕ) (n : ℕ) → row_len_of schema.now front ≡ Some n → n ≡ width }
    ensures within { result ≤ count }
    ensures none { find (passes bound.entry) (rows_from schema.now result bytes.now) ≡ None }
{
    let mut low = 0;
    let mut high = count;
    while high - low > 1 {
        let middle = low + (high - low) / 2;
        if passes(bound, even_row(schema, bytes, width, count, middle)) {
            high = middle;
        } else {
            low = middle;
        }
    }
    low
}

/// The row of this number, of so many rows of one length.
pub(crate) fn even_row<'r>(
    schema: &Schema,
    bytes: &'r [u8],
    width: usize,
    count: usize,
    number: usize,
) -> &'r [u8]
    requires run { IsRun schema.now count bytes.now }
    requires even { (front : List ℕ) (n : ℕ) → row_len_of schema.now front ≡ Some n → n ≡ width }
    requires within { number < count }
    ensures { result.now ≡ leading schema.now (drop (number * width) bytes.entry.now) }
{
    bytes.split_at(number * width).1.split_at(width).0
}

/// How many rows a page has.
pub(crate) fn row_count(page: &[u8]) -> usize
    requires { 4 ≤ length page.now }
    ensures { result ≡ rows_counted page.now }
{
    u16::from_be_bytes([page[2], page[3]]) as usize
}

/// The first row that is looked for of those from the number `before` on, which are given, of so many on the
/// page of this number.
pub(crate) fn first_of<'r>(
    schema: &Schema,
    bytes: &'r [u8],
    before: usize,
    count: usize,
    number: usize,
    bound: Bound<'_>,
) -> Near<'r>
    requires within { before ≤ count }
    requires run { IsRun schema.now (count - before) bytes.now }
    ensures { option_copied result.row ≡ find (passes bound.entry) (rows_from schema.now (count - before) bytes.entry.now) }
{
    let mut left = bytes;
    for place in before..count {
        let (row, behind) = first_row(schema, left);
        if passes(bound, row) {
            return Near {
                row: Some(row),
                place: Place {
                    page: number,
                    row: place,
                },
            };
        }
        left = behind;
    }
    Near {
        row: None,
        place: Place {
            page: number,
            row: count,
        },
    }
}

/// The first row, and the bytes behind it.
pub(crate) fn first_row<'r>(schema: &Schema, bytes: &'r [u8]) -> (&'r [u8], &'r [u8])
    requires { is_some (row_len_of schema.now bytes.now) ≡ true }
    ensures row { row_len_of schema.now bytes.entry.now ≡ Some (length result.0.now) }
    ensures bytes { result.0.now ++ result.1.now ≡ bytes.entry.now }
    ensures leading { result.0.now ≡ leading schema.now bytes.entry.now }
{
    bytes.split_at(leading_len(schema, bytes))
}

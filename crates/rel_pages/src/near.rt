//! The first row past a bound, looked for beside a place before it is searched for.
ghost use Rattle.std.specs.Prelude.{◌≡◌, ◌<◌, ◌≤◌, ◌+◌, ◌*◌, List, ℕ, false, IfSome, Option, Some, None, drop, true};
ghost use Rattle.std.specs.List.{find};
ghost use Rattle.std.specs.Option.{option_copied};
ghost use Rattle.hera_sets.specs.Rows.{is_past, IsAscending};
ghost use Rattle.hera_row.specs.Reading.{row_len_of};
ghost use Rattle.hera_rows.specs.Froms.{is_from};
ghost use Rattle.rel_pages.specs.Looks.{Tells};
ghost use Rattle.rel_pages.specs.Rels.{IsPaged, rows_in, rows_from, pages_rows, leading, passes, ArePagesOf, IsRun};

use crate::page_rel::{
    Bound, PageRel, even_row, first_in, first_in_page, leading_at, one_width, passes, row_count,
};
use crate::place::{Near, Place};
use hera_meaning::Schema;
use rel_format::PAGE_HEAD;

/// What a look at a row of a page and at those beside it tells of the first row that is looked for.
#[derive(Clone, Copy)]
enum Look<'r> {
    /// It is this row of the page, of this number.
    Found(usize, &'r [u8]),
    /// It is the page's first row, if no page stands before this one.
    First(&'r [u8]),
    /// It is the first that is looked for of those behind the page.
    Behind,
    /// Nothing.
    Nothing,
}

impl<'a> PageRel<'a> {
    /// The first row past the bound, as `above` finds it, and about where it stands. It is looked for at the
    /// place and beside it first: where it stands there no search is needed. It takes no memory.
    pub fn above_near<'s>(&'s self, bound: Option<&[u8]>, place: Place) -> Near<'s>
        ensures next { option_copied result.row ≡ find (is_past (option_copied bound.entry)) self.now }
        ensures ordered { IsAscending self.now }
    {
        first_near(self.schema, self.pages, self.page, past(bound), place)
    }

    /// The first row that does not stand before the bound, and about where it stands, looked for as `above_near`
    /// looks. It takes no memory.
    pub fn not_below_near<'s>(&'s self, bound: &[u8], place: Place) -> Near<'s>
        ensures least { option_copied result.row ≡ find (is_from bound.now) self.now }
        ensures ordered { IsAscending self.now }
    {
        first_near(
            self.schema,
            self.pages,
            self.page,
            Bound::From(bound),
            place,
        )
    }
}

/// The rows past this one are looked for, or any.
pub(crate) fn past(bound: Option<&[u8]>) -> Bound<'_>
    ensures { passes result ≡ is_past (option_copied bound.entry) }
{
    match bound {
        None => Bound::Any,
        Some(row) => Bound::Past(row),
    }
}

/// The first row that is looked for: beside the place, or else by a search.
pub(crate) fn first_near<'r>(
    schema: &Schema,
    pages: &'r [u8],
    page: usize,
    bound: Bound<'_>,
    place: Place,
) -> Near<'r>
    requires { IsPaged schema.now page pages.now }
    ensures { option_copied result.row ≡ find (passes bound.entry) (rows_in schema.now page pages.entry.now) }
{
    match beside(schema, pages, page, bound, place) {
        Some(near) => near,
        None => first_in(schema, pages, page, bound),
    }
}

/// The first row that is looked for, where it stands beside the place: at it, next to it, or where rows differ
/// in length on the same page or at the head of the page behind.
fn beside<'r>(
    schema: &Schema,
    pages: &'r [u8],
    page: usize,
    bound: Bound<'_>,
    place: Place,
) -> Option<Near<'r>>
    requires { IsPaged schema.now page pages.now }
    ensures { IfSome result (λ near. option_copied near.row ≡ find (passes bound.entry) (rows_in schema.now page pages.entry.now)) }
{
    match one_width(schema) {
        Some(width) => next_to(schema, pages, page, width, bound, place),
        None => on_page(schema, pages, page, bound, place.page),
    }
}

/// The first row that is looked for, where it stands at the place or next to it. All rows have one length.
fn next_to<'r>(
    schema: &Schema,
    pages: &'r [u8],
    page: usize,
    width: usize,
    bound: Bound<'_>,
    place: Place,
) -> Option<Near<'r>>
    requires pages { IsPaged schema.now page pages.now }
    requires even { (front : List ℕ) (n : ℕ) → row_len_of schema.now front ≡ Some n → n ≡ width }
    ensures { IfSome result (λ near. option_copied near.row ≡ find (passes bound.entry) (rows_in schema.now page pages.entry.now)) }
{
    let count = pages.len() / page;
    if place.page >= count {
        return None;
    }
    let (one, behind) = pages.split_at(place.page * page).1.split_at(page);
    let rows = one.split_at(PAGE_HEAD).1;
    match look_at(schema, rows, width, row_count(one), bound, place.row) {
        Look::Found(row, found) => Some(Near {
            row: Some(found),
            place: Place { row, ..place },
        }),
        Look::First(found) if place.page == 0 => Some(Near {
            row: Some(found),
            place,
        }),
        Look::Behind => first_behind(schema, behind, page, count - place.page - 1, bound, place),
        _ => None,
    }
}

/// Looks at the row of this number, or the last one, of so many rows of one length, and at the one before it
/// or behind it.
fn look_at<'r>(
    schema: &Schema,
    bytes: &'r [u8],
    width: usize,
    count: usize,
    bound: Bound<'_>,
    number: usize,
) -> Look<'r>
    requires run { IsRun schema.now count bytes.now }
    requires even { (front : List ℕ) (n : ℕ) → row_len_of schema.now front ≡ Some n → n ≡ width }
    requires some { 1 ≤ count }
    ensures { Tells bound.entry (rows_from schema.now count bytes.entry.now) result }
{
    let number = number.min(count - 1);
    let row = even_row(schema, bytes, width, count, number);
    if !passes(bound, row) {
        return look_behind(schema, bytes, width, count, bound, number);
    }
    if number == 0 {
        return Look::First(row);
    }
    if passes(bound, even_row(schema, bytes, width, count, number - 1)) {
        return Look::Nothing;
    }
    Look::Found(number, row)
}

/// Looks at the row behind the one of this number, which is not looked for.
fn look_behind<'r>(
    schema: &Schema,
    bytes: &'r [u8],
    width: usize,
    count: usize,
    bound: Bound<'_>,
    number: usize,
) -> Look<'r>
    requires run { IsRun schema.now count bytes.now }
    requires even { (front : List ℕ) (n : ℕ) → row_len_of schema.now front ≡ Some n → n ≡ width }
    requires within { number < count }
    requires before { passes bound (leading schema.now (drop (number * width) bytes.now)) ≡ false }
    ensures { Tells bound.entry (rows_from schema.now count bytes.entry.now) result }
{
    if number + 1 == count {
        return Look::Behind;
    }
    let next = even_row(schema, bytes, width, count, number + 1);
    if passes(bound, next) {
        return Look::Found(number + 1, next);
    }
    Look::Nothing
}

/// The first row of so many pages behind the page of a place, where it is looked for or there is none.
fn first_behind<'r>(
    schema: &Schema,
    pages: &'r [u8],
    page: usize,
    count: usize,
    bound: Bound<'_>,
    place: Place,
) -> Option<Near<'r>>
    requires pages { ArePagesOf schema.now page count pages.now }
    requires within { place.page < 18446744073709551615 }
    ensures { IfSome result (λ near. option_copied near.row ≡ find (passes bound.entry) (pages_rows schema.now page count pages.entry.now)) }
{
    if count == 0 {
        return Some(Near { row: None, place });
    }
    let row = leading_at(schema, pages, page, count, 0);
    if !passes(bound, row) {
        return None;
    }
    Some(Near {
        row: Some(row),
        place: Place {
            page: place.page + 1,
            row: 0,
        },
    })
}

/// The first row that is looked for, where it stands on the page of this number or at the head of the one
/// behind.
fn on_page<'r>(
    schema: &Schema,
    pages: &'r [u8],
    page: usize,
    bound: Bound<'_>,
    number: usize,
) -> Option<Near<'r>>
    requires { IsPaged schema.now page pages.now }
    ensures { IfSome result (λ near. option_copied near.row ≡ find (passes bound.entry) (rows_in schema.now page pages.entry.now)) }
{
    let count = pages.len() / page;
    if number >= count {
        return None;
    }
    if !leads(schema, pages, page, count, bound, number) {
        return None;
    }
    let (one, behind) = pages.split_at(number * page).1.split_at(page);
    let near = first_in_page(schema, one, number, bound);
    if let Some(row) = near.row {
        return Some(Near {
            row: Some(row),
            place: near.place,
        });
    }
    first_behind(
        schema,
        behind,
        page,
        count - number - 1,
        bound,
        Place {
            page: number,
            row: near.place.row,
        },
    )
}

/// Whether the head of the page of this number shows that no row of the pages before is looked for.
fn leads(
    schema: &Schema,
    pages: &[u8],
    page: usize,
    count: usize,
    bound: Bound<'_>,
    number: usize,
) -> bool
    requires pages { ArePagesOf schema.now page count pages.now }
    requires ascending { IsAscending (pages_rows schema.now page count pages.now) }
    requires within { number < count }
    ensures { result ≡ true → find (passes bound.entry) (pages_rows schema.now page number pages.now) ≡ None }
{
    if number == 0 {
        return true;
    }
    !passes(bound, leading_at(schema, pages, page, count, number))
}

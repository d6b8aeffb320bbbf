//! The rows of one relation, sought from where some of them are known to begin.
ghost use Rattle.std.specs.Prelude.{◌≡◌, ◌↔◌, IsTrue, [], List, ℕ, false, true, All, length, IfSome, is_some};
ghost use Rattle.std.specs.List.{find};
ghost use Rattle.std.specs.Option.{option_copied};
ghost use Rattle.hera_sets.specs.Rows.{is_past, IsAscending};
ghost use Rattle.hera_rows.specs.Froms.{is_from};
ghost use Rattle.rel_pages.specs.Rels.{IsPaged, rows_in, passes};
ghost use Rattle.rel_pages.specs.Starts.{IsStart, start_row};

use crate::near::{first_near, past};
use crate::page_rel::{
    Bound, PageRel, count_in_pages, first_in, first_in_pages, first_of, first_row, passes,
    row_count,
};
use crate::place::{Near, Place};
use crate::starts::{RowStart, start_on};
use hera_meaning::Schema;
use hera_rows::{RowMark, Sorted};
use hera_sets::is_same;
use std::marker::Model;

/// The rows of one relation, in byte order, as `PageRel` has them. Beside them is told where some rows begin, which only
/// saves time: a search in rows that differ in length walks few of them. Rows are lent as slices of the pages.
#[derive(Drop)]
pub struct IndexedRel<'a> {
    pub(crate) schema: &'a Schema,
    pub(crate) pages: &'a [u8],
    pub(crate) page: usize,
    pub(crate) starts: &'a [RowStart],
}

impl<'a> Model for IndexedRel<'a> {
    ghost use Rattle.std.specs.Prelude.{List, ℕ, All};
    ghost use Rattle.rel_pages.specs.Rels.{IsPaged, rows_in};
    ghost use Rattle.rel_pages.specs.Starts.{IsStart};

    ghost Value = { List (List ℕ) };

    ghost view = { λ p. rows_in p.schema.now p.page p.pages.now };

    ghost invariant = { λ p. IsPaged p.schema.now p.page p.pages.now × All (IsStart p.schema.now p.page p.pages.now) p.starts.now };
}

impl<'a> PageRel<'a> {
    /// The same rows, of which none is told where it begins. It takes no memory.
    pub fn indexed(&self) -> IndexedRel<'a>
        ensures { result ≡ self.now }
    {
        IndexedRel {
            schema: self.schema,
            pages: self.pages,
            page: self.page,
            starts: &[],
        }
    }
}

impl<'a> IndexedRel<'a> {
    /// The same rows, sought as these are.
    pub fn again(&self) -> IndexedRel<'a>
        ensures { result ≡ self.now }
    {
        IndexedRel {
            schema: self.schema,
            pages: self.pages,
            page: self.page,
            starts: self.starts,
        }
    }

    /// The first row past the bound, as `above` finds it, and about where it stands, as a place for these rows. It is looked
    /// for at the place and beside it first: where it stands there no search is needed. It takes no memory.
    pub fn above_near(&self, bound: Option<&[u8]>, place: Place) -> Near<'a>
        ensures next { option_copied result.row ≡ find (is_past (option_copied bound.entry)) self.now }
        ensures ordered { IsAscending self.now }
    {
        first_by(
            self.schema,
            self.pages,
            self.page,
            self.starts,
            past(bound),
            place,
        )
    }

    /// The first row that does not stand before the bound, and about where it stands, looked for as `above_near`
    /// looks. It takes no memory.
    pub fn not_below_near(&self, bound: &[u8], place: Place) -> Near<'a>
        ensures least { option_copied result.row ≡ find (is_from bound.now) self.now }
        ensures ordered { IsAscending self.now }
    {
        first_by(
            self.schema,
            self.pages,
            self.page,
            self.starts,
            Bound::From(bound),
            place,
        )
    }

    /// How many rows there are. It looks at each page's head alone, and takes no memory.
    pub fn len(&self) -> usize
        ensures count { result ≡ length self.now }
        ensures ordered { IsAscending self.now }
    {
        count_in_pages(
            self.schema,
            self.pages,
            self.page,
            self.pages.len() / self.page,
        )
    }

    /// Whether there is no row. It looks at no page, and takes no memory.
    pub fn is_empty(&self) -> bool
        ensures { IsTrue result ↔ (self.now ≡ []) }
    {
        self.pages.is_empty()
    }
}

impl<'a> Sorted for IndexedRel<'a> {
    ghost rows = { λ p. p };

    fn above<'s>(&'s self, bound: Option<&[u8]>) -> Option<&'s [u8]> {
        self.above_near(bound, Place::nowhere()).row
    }

    fn above_from<'s>(&'s self, bound: Option<&[u8]>, mark: &mut RowMark) -> Option<&'s [u8]> {
        let near = self.above_near(bound, Place::of(mark.first.kept));
        mark.first.kept = near.place.spot();
        near.row
    }

    fn not_below<'s>(&'s self, bound: &'s [u8], mark: &mut RowMark) -> Option<&'s [u8]> {
        let near = self.not_below_near(bound, Place::of(mark.first.kept));
        mark.first.kept = near.place.spot();
        near.row
    }

    fn has(&self, row: &[u8]) -> bool {
        match self.not_below_near(row, Place::nowhere()).row {
            None => false,
            Some(found) => is_same(row, found),
        }
    }
}

/// A beginning that is kept, and its number among those.
#[derive(Clone, Copy)]
struct Kept {
    number: usize,
    start: RowStart,
}

/// The first row that is looked for: from a row's beginning on, or where none is told as in pages alone.
fn first_by<'r>(
    schema: &Schema,
    pages: &'r [u8],
    page: usize,
    starts: &[RowStart],
    bound: Bound<'_>,
    place: Place,
) -> Near<'r>
    requires paged { IsPaged schema.now page pages.now }
    requires starts { All (IsStart schema.now page pages.now) starts.now }
    ensures { option_copied result.row ≡ find (passes bound.entry) (rows_in schema.now page pages.entry.now) }
{
    if starts.is_empty() {
        return first_near(schema, pages, page, bound, place);
    }
    match kept_before(schema, pages, page, starts, bound, place.page) {
        Some(kept) => first_behind_kept(schema, pages, page, kept, bound, place.row),
        None => first_in(schema, pages, page, bound),
    }
}

/// The beginning of a row that is not looked for: the last of them where they ascend. It is looked for at this number
/// and the next one first.
fn kept_before(
    schema: &Schema,
    pages: &[u8],
    page: usize,
    starts: &[RowStart],
    bound: Bound<'_>,
    number: usize,
) -> Option<Kept>
    requires paged { IsPaged schema.now page pages.now }
    requires starts { All (IsStart schema.now page pages.now) starts.now }
    ensures start { IfSome result (λ kept. IsStart schema.now page pages.now kept.start) }
    ensures before { IfSome result (λ kept. passes bound.entry (start_row schema.now page pages.now kept.start) ≡ false) }
{
    match kept_beside(schema, pages, page, starts, bound, number) {
        Some(kept) => Some(kept),
        None => kept_by_search(schema, pages, page, starts, bound),
    }
}

/// The beginning of this number or the one behind it, where that is the last whose row is not looked for.
fn kept_beside(
    schema: &Schema,
    pages: &[u8],
    page: usize,
    starts: &[RowStart],
    bound: Bound<'_>,
    number: usize,
) -> Option<Kept>
    requires paged { IsPaged schema.now page pages.now }
    requires starts { All (IsStart schema.now page pages.now) starts.now }
    ensures start { IfSome result (λ kept. IsStart schema.now page pages.now kept.start) }
    ensures before { IfSome result (λ kept. passes bound.entry (start_row schema.now page pages.now kept.start) ≡ false) }
{
    let here = kept_at(schema, pages, page, starts, bound, number)?;
    let next = number.saturating_add(1);
    let Some(next) = kept_at(schema, pages, page, starts, bound, next) else {
        return Some(here);
    };
    let behind = number.saturating_add(2);
    match kept_at(schema, pages, page, starts, bound, behind) {
        Some(_) => None,
        None => Some(next),
    }
}

/// The beginning of this number, where there is one and its row is not looked for.
fn kept_at(
    schema: &Schema,
    pages: &[u8],
    page: usize,
    starts: &[RowStart],
    bound: Bound<'_>,
    number: usize,
) -> Option<Kept>
    requires paged { IsPaged schema.now page pages.now }
    requires starts { All (IsStart schema.now page pages.now) starts.now }
    ensures start { IfSome result (λ kept. IsStart schema.now page pages.now kept.start) }
    ensures before { IfSome result (λ kept. passes bound.entry (start_row schema.now page pages.now kept.start) ≡ false) }
{
    if number >= starts.len() {
        return None;
    }
    let start = starts[number];
    if passes(bound, row_at_start(schema, pages, page, start)) {
        return None;
    }
    Some(Kept { number, start })
}

/// The beginning of a row that is not looked for, the last of them where they ascend.
fn kept_by_search(
    schema: &Schema,
    pages: &[u8],
    page: usize,
    starts: &[RowStart],
    bound: Bound<'_>,
) -> Option<Kept>
    requires paged { IsPaged schema.now page pages.now }
    requires starts { All (IsStart schema.now page pages.now) starts.now }
    ensures start { IfSome result (λ kept. IsStart schema.now page pages.now kept.start) }
    ensures before { IfSome result (λ kept. passes bound.entry (start_row schema.now page pages.now kept.start) ≡ false) }
{
    let mut low = 0;
    let mut high = starts.len();
    let mut found = None;
    while low < high {
        let number = low + (high - low) / 2;
        let start = starts[number];
        if passes(bound, row_at_start(schema, pages, page, start)) {
            high = number;
        } else {
            found = Some(Kept { number, start });
            low = number + 1;
        }
    }
    found
}

/// The row that begins there.
fn row_at_start<'r>(schema: &Schema, pages: &'r [u8], page: usize, start: RowStart) -> &'r [u8]
    requires paged { IsPaged schema.now page pages.now }
    requires start { IsStart schema.now page pages.now start }
    ensures { result.now ≡ start_row schema.now page pages.entry.now start }
{
    let one = pages
        .split_at(start.page as usize * page)
        .1
        .split_at(page)
        .0;
    first_row(schema, one.split_at(start.at as usize).1).0
}

/// The first row that is looked for, from a beginning on whose row is not; its place tells the number of that
/// beginning. Where the row of this number is not looked for either, the walk goes on from there.
fn first_behind_kept<'r>(
    schema: &Schema,
    pages: &'r [u8],
    page: usize,
    kept: Kept,
    bound: Bound<'_>,
    row: usize,
) -> Near<'r>
    requires paged { IsPaged schema.now page pages.now }
    requires start { IsStart schema.now page pages.now kept.start }
    requires before { passes bound (start_row schema.now page pages.now kept.start) ≡ false }
    ensures { option_copied result.row ≡ find (passes bound.entry) (rows_in schema.now page pages.entry.now) }
{
    let start = start_toward(schema, pages, page, kept.start, bound, row);
    let near = first_behind_start(schema, pages, page, start, bound);
    Near {
        row: near.row,
        place: Place {
            page: kept.number,
            row: near.place.row,
        },
    }
}

/// Where the row of this number begins, if it is near behind the given one and not looked for; else the given one.
fn start_toward(
    schema: &Schema,
    pages: &[u8],
    page: usize,
    start: RowStart,
    bound: Bound<'_>,
    row: usize,
) -> RowStart
    requires paged { IsPaged schema.now page pages.now }
    requires start { IsStart schema.now page pages.now start }
    requires before { passes bound (start_row schema.now page pages.now start) ≡ false }
    ensures start { IsStart schema.now page pages.now result }
    ensures before { passes bound.entry (start_row schema.now page pages.now result) ≡ false }
{
    let further = start_on(schema, pages, page, start, row);
    if passes(bound, row_at_start(schema, pages, page, further)) {
        return start;
    }
    further
}

/// The first row that is looked for, from the beginning of one on that is not.
fn first_behind_start<'r>(
    schema: &Schema,
    pages: &'r [u8],
    page: usize,
    start: RowStart,
    bound: Bound<'_>,
) -> Near<'r>
    requires paged { IsPaged schema.now page pages.now }
    requires start { IsStart schema.now page pages.now start }
    requires before { passes bound (start_row schema.now page pages.now start) ≡ false }
    ensures { option_copied result.row ≡ find (passes bound.entry) (rows_in schema.now page pages.entry.now) }
{
    let count = pages.len() / page;
    let number = start.page as usize;
    let (one, behind) = pages.split_at(number * page).1.split_at(page);
    let left = one.split_at(start.at as usize).1;
    let near = first_of(
        schema,
        left,
        start.row as usize,
        row_count(one),
        number,
        bound,
    );
    if let Some(row) = near.row {
        return Near {
            row: Some(row),
            place: near.place,
        };
    }
    first_in_pages(schema, behind, page, number + 1, count, bound)
}

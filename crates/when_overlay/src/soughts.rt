//! What is looked for, in a set and in pages, beside where it may stand.
ghost use Rattle.std.specs.Prelude.{◌≡◌};
ghost use Rattle.std.specs.List.{find};
ghost use Rattle.std.specs.Option.{option_copied};
ghost use Rattle.hera_sets.specs.Rows.{IsAscending};
ghost use Rattle.when_overlay.specs.Seeking.{passes};

use hera_rows::{Near, RowSet, Spot};
use rel_pages::{IndexedRel, Near as NearPages, Place};

/// Which rows are looked for: those past a row, or all, or those from a row on.
#[derive(Clone, Copy)]
pub(crate) enum Sought<'b> {
    Past(Option<&'b [u8]>),
    From(&'b [u8]),
}

/// The first row of a set that is looked for, beside the spot first.
#[inline]
pub(crate) fn set_near<'s>(rows: &'s RowSet, sought: Sought<'_>, spot: Spot) -> Near<'s>
    ensures next { option_copied result.row ≡ find (passes sought.entry) rows.now }
    ensures ordered { IsAscending rows.now }
{
    match sought {
        Sought::Past(bound) => rows.above_near(bound, spot),
        Sought::From(bound) => rows.not_below_near(bound, spot),
    }
}

/// The first row of pages that is looked for, beside the place first.
#[inline]
pub(crate) fn pages_near<'s>(
    pages: &IndexedRel<'s>,
    sought: Sought<'_>,
    place: Place,
) -> NearPages<'s>
    ensures next { option_copied result.row ≡ find (passes sought.entry) pages.now }
    ensures ordered { IsAscending pages.now }
{
    match sought {
        Sought::Past(bound) => pages.above_near(bound, place),
        Sought::From(bound) => pages.not_below_near(bound, place),
    }
}

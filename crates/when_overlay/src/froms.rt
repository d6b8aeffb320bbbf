//! The first row from a bound on, which may be the bound.
ghost use Rattle.std.specs.Prelude.{◌≡◌, ◌++◌};
ghost use Rattle.std.specs.List.{find};
ghost use Rattle.std.specs.Option.{option_copied};
ghost use Rattle.hera_sets.specs.Rows.{IsAscending};
ghost use Rattle.hera_rows.specs.Froms.{is_from};
ghost use Rattle.when_overlay.specs.Changed.{rows_after};
ghost use Rattle.when_overlay.specs.Layered.{IsTip, path};

use crate::Layers;
use crate::marks::{SeenRow, ViewMark};
use crate::seeks::{first_met, put_in_alone};
use crate::soughts::Sought;
use delta_atoms::Delta;
use hera_meaning::RelId;
use hera_rows::RowSet;
use rel_pages::IndexedRel;

/// The first row from the bound on of a set, and about where it stands.
pub(crate) fn not_below_alone<'s>(rows: &'s RowSet, bound: &[u8], mark: ViewMark) -> SeenRow<'s>
    ensures least { option_copied result.row ≡ find (is_from bound.now) rows.now }
    ensures ordered { IsAscending rows.now }
{
    let own = rows.not_below_near(bound, mark.put_in);
    let mark = ViewMark {
        put_in: own.spot,
        ..mark
    };
    SeenRow { row: own.row, mark }
}

/// The first row from the bound on that is there, and about where it stands: there it is looked for first.
pub(crate) fn not_below_near<'s>(
    pages: &IndexedRel<'s>,
    commits: &'s [Delta],
    layers: &'s Layers,
    tip: Option<usize>,
    rel: RelId,
    bound: &'s [u8],
    mark: ViewMark,
) -> SeenRow<'s>
    requires { IsTip layers.now.layers tip }
    ensures least { option_copied result.row ≡ find (is_from bound.now) (rows_after rel.0 pages.now (commits.now ++ path layers.now.layers tip)) }
    ensures ordered { IsAscending (rows_after rel.0 pages.now (commits.now ++ path layers.now.layers tip)) }
{
    match put_in_alone(pages, commits, layers, tip, rel) {
        Some(rows) => not_below_alone(rows, bound, mark),
        None => first_met(pages, commits, layers, tip, rel, Sought::From(bound), mark),
    }
}

//! The rows past a bound of a relation that is named.
ghost use Rattle.std.specs.Prelude.{◌≡◌, IfOk};
ghost use Rattle.std.specs.List.{filter};
ghost use Rattle.std.specs.Option.{option_copied};
ghost use Rattle.hera_sets.specs.Rows.{is_past};

use hera_rows::RowSet;
use std::alloc::{AllocError, Global};
use when_overlay::{IndexedHyp, ViewMark};

/// The rows past the bound, as a set. No bound lets every row pass.
pub(crate) fn collect_past(
    alloc: Global,
    rows: &IndexedHyp<'_>,
    bound: Option<&[u8]>,
) -> Result<RowSet, AllocError>
    ensures { IfOk result (λ set. set ≡ filter (is_past (option_copied bound.entry)) rows.now) }
{
    match bound {
        None => rows.collect(alloc),
        Some(_) => collect_behind(alloc, rows, bound),
    }
}

/// The rows past the bound, as a set, sought one by one.
fn collect_behind(
    alloc: Global,
    rows: &IndexedHyp<'_>,
    bound: Option<&[u8]>,
) -> Result<RowSet, AllocError>
    ensures { IfOk result (λ set. set ≡ filter (is_past (option_copied bound.entry)) rows.now) }
{
    let mut set = RowSet::new(alloc);
    let mut last = bound;
    let mut mark = ViewMark::start();
    loop {
        let next = rows.above_near(last, mark);
        let Some(row) = next.row else {
            return Ok(set);
        };
        set.push_last(row)?;
        last = Some(row);
        mark = next.mark;
    }
}

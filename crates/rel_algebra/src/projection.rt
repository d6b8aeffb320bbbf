//! Projection.
ghost use Rattle.std.specs.Prelude.{◌≡◌, IfOk};
ghost use Rattle.hera_meaning.specs.Relations.{project_of};

use crate::pieces::at_places;
use hera_meaning::Schema;
use hera_rows::{RowMark, RowSet, Sorted};
use std::alloc::{AllocError, Global};

/// The rows of the fields at these places of each row, in the order of the places. A place may stand
/// twice, and equal rows become one.
pub fn project<A: Sorted>(
    alloc: Global,
    schema: &Schema,
    places: &[usize],
    a: &A,
) -> Result<RowSet, AllocError>
    ensures { IfOk result (λ set. set ≡ project_of schema.now places.now (A.rows a.now)) }
{
    let mut set = RowSet::new(alloc);
    let mut last: Option<&[u8]> = None;
    let mut mark = RowMark::start();
    while let Some(row) = a.above_from(last, &mut mark) {
        let image = at_places(alloc, schema, places, row)?;
        set.insert(image.bytes())?;
        last = Some(row);
    }
    Ok(set)
}

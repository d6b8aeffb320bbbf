//! The list of one row.
ghost use Rattle.std.specs.Prelude.{◌≡◌, ◌∷◌, [], IfOk};
ghost use Rattle.std.specs.List.{find};
ghost use Rattle.std.specs.Option.{option_copied};
ghost use Rattle.hera_rows.specs.Froms.{passes};
ghost use Rattle.hera_sets.specs.Rows.{is_past, is_same};

use super::RowBuf;
use super::blocks::Blocks;
use super::bounds::Bound;
use hera_sets::is_same;
use std::alloc::{AllocError, Global};

/// The row, if it is one of those that are looked for.
#[inline]
pub(crate) fn sought<'s>(one: &'s RowBuf, bound: Bound<'_>) -> Option<&'s [u8]>
    ensures { option_copied result ≡ find (passes bound.entry) (one.now ∷ []) }
{
    let row = one.bytes();
    if bound.passes(row) { Some(row) } else { None }
}

/// The row, if it lies past the bound.
#[inline]
pub(crate) fn above<'s>(one: &'s RowBuf, bound: Option<&[u8]>) -> Option<&'s [u8]>
    ensures { option_copied result ≡ find (is_past (option_copied bound.entry)) (one.now ∷ []) }
{
    match bound {
        Some(low) => sought(one, Bound::Past(low)),
        None => Some(one.bytes()),
    }
}

/// Whether it is the row.
pub(crate) fn has(one: &RowBuf, row: &[u8]) -> bool
    ensures { result ≡ is_same row.now one.now }
{
    is_same(row, one.bytes())
}

/// The row in a block.
pub(crate) fn in_blocks(alloc: Global, one: &RowBuf) -> Result<Blocks, AllocError>
    ensures { IfOk result (λ rows. rows ≡ one.now ∷ []) }
{
    let mut rows = Blocks::new(alloc);
    rows.push_last(one.bytes())?;
    Ok(rows)
}

//! A row against a bound.
ghost use Rattle.std.specs.Prelude.{◌≡◌};
ghost use Rattle.std.specs.Option.{option_copied};
ghost use Rattle.hera_sets.specs.Rows.{is_past};

use hera_sets::is_below;

/// Whether the row lies past the bound. No bound lets every row pass.
pub(crate) fn is_past(bound: Option<&[u8]>, row: &[u8]) -> bool
    ensures { result ≡ is_past (option_copied bound.entry) row.now }
{
    match bound {
        None => true,
        Some(least) => is_below(least, row),
    }
}

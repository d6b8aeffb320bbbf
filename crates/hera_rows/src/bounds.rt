//! What is looked for in a set.
ghost use Rattle.std.specs.Prelude.{◌≡◌};
ghost use Rattle.hera_rows.specs.Froms.{low_of, passes};

use hera_sets::is_below;

/// Which rows are looked for: those past a row, or those from it on.
#[derive(Clone, Copy)]
pub(crate) enum Bound<'b> {
    Past(&'b [u8]),
    From(&'b [u8]),
}

impl<'b> Bound<'b> {
    /// The row that bounds the rows that are looked for.
    #[inline]
    pub(crate) fn low(self) -> &'b [u8]
        ensures { result.now ≡ low_of self.entry }
    {
        match self {
            Bound::Past(low) | Bound::From(low) => low,
        }
    }

    /// Whether the row is one of those that are looked for.
    #[inline]
    pub(crate) fn passes(self, row: &[u8]) -> bool
        ensures { result ≡ passes self.entry row.now }
    {
        match self {
            Bound::Past(low) => is_below(low, row),
            Bound::From(low) => !is_below(row, low),
        }
    }
}

//! Places among the rows of pages.
ghost use Rattle.std.specs.Prelude.{◌≡◌};

use hera_rows::Spot;

/// A place among the rows of a relation's pages: the number of a page, and that of a row in it. It only saves
/// time: whatever the numbers are, the answer is the same.
#[derive(Clone, Copy)]
pub struct Place {
    pub page: usize,
    pub row: usize,
}

impl Place {
    /// The place of the first row.
    pub fn start() -> Place
        ensures page { result.page ≡ 0 }
        ensures row { result.row ≡ 0 }
    {
        Place { page: 0, row: 0 }
    }

    /// A place where no row stands, for who has none to tell.
    pub fn nowhere() -> Place
        ensures page { result.page ≡ 18446744073709551615 }
        ensures row { result.row ≡ 0 }
    {
        Place {
            page: usize::MAX,
            row: 0,
        }
    }

    /// The place that a mark tells, whose blocks are pages.
    #[inline]
    pub fn of(spot: Spot) -> Place {
        Place {
            page: spot.block,
            row: spot.row,
        }
    }

    /// The place as a mark tells it.
    #[inline]
    pub fn spot(self) -> Spot {
        Spot {
            block: self.page,
            row: self.row,
        }
    }
}

/// A row that was found, or none, and about where it stands: a place at which a later search may look first.
#[derive(Clone, Copy)]
pub struct Near<'s> {
    pub row: Option<&'s [u8]>,
    pub place: Place,
}

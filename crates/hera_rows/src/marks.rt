//! About where a walk stands.
ghost use Rattle.std.specs.Prelude.{◌≡◌};

/// About where a row stands: the number of its block or page, and its number there. It only saves time: whatever the
/// numbers are, the answer is the same.
#[derive(Clone, Copy)]
pub struct Spot {
    pub block: usize,
    pub row: usize,
}

/// About where a walk through one set stands: in what is kept, and where rows are put into that as it is seen, among those
/// that were put in last, and among those that were put in before these.
#[derive(Clone, Copy)]
pub struct Side {
    pub kept: Spot,
    pub put_in: Spot,
    pub below: Spot,
}

/// About where a walk stands: in a set, and in a second one where two are seen as one.
#[derive(Clone, Copy)]
pub struct RowMark {
    pub first: Side,
    pub second: Side,
}

impl Spot {
    /// Where the first row of all stands.
    #[inline]
    pub fn start() -> Spot
        ensures block { result.block ≡ 0 }
        ensures row { result.row ≡ 0 }
    {
        Spot { block: 0, row: 0 }
    }
}

impl RowMark {
    /// The mark of a walk that begins.
    pub fn start() -> RowMark {
        let side = Side {
            kept: Spot::start(),
            put_in: Spot::start(),
            below: Spot::start(),
        };
        RowMark {
            first: side,
            second: side,
        }
    }

    /// The mark of a walk through the second set alone.
    #[inline]
    pub fn of_second(self) -> RowMark {
        RowMark {
            first: self.second,
            second: self.second,
        }
    }
}

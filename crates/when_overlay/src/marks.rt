//! About where a walk stands, and the first row that is looked for of those that a delta puts in, looked for there
//! before it is searched for.
ghost use Rattle.std.specs.Prelude.{◌≡◌};
ghost use Rattle.std.specs.Option.{option_copied};
ghost use Rattle.hera_meaning.specs.declared.scalars.Sign.TheVariants.{Plus};
ghost use Rattle.hera_meaning.specs.Deltas.{IsDelta};
ghost use Rattle.when_overlay.specs.Seeking.{named_in, first_of, passes};

use crate::soughts::{Sought, set_near};
use delta_atoms::Delta;
use hera_meaning::{RelId, Sign};
use hera_rows::{Near, Side, Spot};
use rel_pages::Place;

/// About where a walk stands: in the pages, among the rows that the newest layer puts in, and among those that the delta
/// right below it puts in. It only saves time: whatever the numbers are, the answer is the same.
#[derive(Clone, Copy)]
pub struct ViewMark {
    pub pages: Place,
    pub put_in: Spot,
    pub below: Spot,
}

impl ViewMark {
    /// The mark of a walk that begins.
    pub fn start() -> ViewMark
        ensures page { result.pages.page ≡ 0 }
        ensures row { result.pages.row ≡ 0 }
    {
        ViewMark {
            pages: Place::start(),
            put_in: Spot::start(),
            below: Spot::start(),
        }
    }

    /// A mark for who has none to tell.
    pub(crate) fn nowhere() -> ViewMark {
        let spot = Spot {
            block: usize::MAX,
            row: 0,
        };
        ViewMark {
            pages: Place::nowhere(),
            put_in: spot,
            below: spot,
        }
    }

    /// The mark that stands there, where the pages are what is kept.
    #[inline]
    pub(crate) fn of(side: Side) -> ViewMark {
        ViewMark {
            pages: Place::of(side.kept),
            put_in: side.put_in,
            below: side.below,
        }
    }

    /// Where the mark stands, the pages being what is kept.
    #[inline]
    pub(crate) fn side(self) -> Side {
        Side {
            kept: self.pages.spot(),
            put_in: self.put_in,
            below: self.below,
        }
    }
}

/// A row that was found, or none, and about where it stands: a mark at which a later search may look first.
#[derive(Clone, Copy)]
pub struct SeenRow<'s> {
    pub row: Option<&'s [u8]>,
    pub mark: ViewMark,
}

/// The first row that is looked for of those that a delta puts in. It is looked for beside the spot first.
pub(crate) fn put_in_near<'s>(
    delta: &'s Delta,
    rel: RelId,
    sought: Sought<'_>,
    spot: Spot,
) -> Near<'s>
    ensures next { option_copied result.row ≡ first_of (passes sought.entry) (named_in rel.0 Plus delta.now) }
    ensures valid { IsDelta delta.now }
{
    if delta.is_fail() {
        return Near { row: None, spot };
    }
    set_near(delta.part(rel, Sign::Plus), sought, spot)
}

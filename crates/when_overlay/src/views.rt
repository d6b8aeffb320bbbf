//! Views of a hypothetical state, and of one relation in it.
ghost use Rattle.std.specs.Prelude.{◌≡◌, ◌<◌, ◌≤◌, ◌^◌, ◌++◌, List, ℕ, Option, None, Some, IfOk, MatchOption, length, slice_get};
ghost use Rattle.std.specs.List.{find};
ghost use Rattle.std.specs.Option.{option_copied};
ghost use Rattle.hera_sets.specs.Rows.{is_past, IsAscending, holds};
ghost use Rattle.when_overlay.specs.Changed.{after_all, rows_after};
ghost use Rattle.when_overlay.specs.Layered.{IsTip, path};

use crate::indexed::IndexedHyp;
use crate::{Layers, SeenRow, ViewMark, counts, froms, seeks};
use delta_atoms::Delta;
use hera_meaning::RelId;
use hera_rows::{RowSet, Sorted};
use rel_pages::{Base, PageRel};
use std::alloc::{AllocError, Global};
use std::marker::Model;

/// A hypothetical state: that of the base after the commits in order, and then after the layers from the
/// root to the tip.
#[derive(Drop)]
pub struct View<'a> {
    pub base: &'a Base,
    pub commits: &'a [Delta],
    pub layers: &'a Layers,
    pub tip: Option<usize>,
}

impl<'a> View<'a> {
    /// The rows of a relation of this state. It takes no memory.
    pub fn rel(&self, rel: RelId) -> Hyp<'a>
        requires tip { IsTip self.now.layers.now.layers self.now.tip }
        requires there { rel.0 < length self.now.base.now.catalogue }
        ensures { slice_get (after_all self.now.base.now.state (self.now.commits.now ++ path self.now.layers.now.layers self.now.tip)) rel.0 ≡ Some result }
    {
        Hyp {
            pages: self.base.rel(rel),
            commits: self.commits,
            layers: self.layers,
            tip: self.tip,
            rel,
        }
    }

    /// The same rows as `rel` gives, in which a search walks few of the pages' rows. It takes no memory.
    pub fn indexed(&self, rel: RelId) -> IndexedHyp<'a>
        requires tip { IsTip self.now.layers.now.layers self.now.tip }
        requires there { rel.0 < length self.now.base.now.catalogue }
        ensures { slice_get (after_all self.now.base.now.state (self.now.commits.now ++ path self.now.layers.now.layers self.now.tip)) rel.0 ≡ Some result }
    {
        // for the proof alone: the rows of the base ascend
        let _state = self.base.catalogue();
        IndexedHyp::new(
            self.base.indexed(rel),
            self.commits,
            self.layers,
            self.tip,
            rel,
        )
    }
}

/// The rows of one relation, in byte order: those of its pages after the commits in order, and then after
/// the layers from the root to the tip. A commit that is `fail` changes nothing. Rows are lent as slices of
/// where they stand.
#[derive(Drop)]
pub struct Hyp<'a> {
    pub pages: PageRel<'a>,
    pub commits: &'a [Delta],
    pub layers: &'a Layers,
    pub tip: Option<usize>,
    pub rel: RelId,
}

impl<'a> Model for Hyp<'a> {
    ghost use Rattle.std.specs.Prelude.{List, ℕ, ◌++◌};
    ghost use Rattle.when_overlay.specs.Changed.{rows_after};
    ghost use Rattle.when_overlay.specs.Layered.{IsTip, path};

    ghost Value = { List (List ℕ) };

    ghost view = { λ h. rows_after h.rel.0 h.pages (h.commits.now ++ path h.layers.now.layers h.tip) };

    ghost invariant = { λ h. IsTip h.layers.now.layers h.tip };
}

impl<'a> Sorted for Hyp<'a> {
    ghost rows = { λ h. h };

    fn above<'s>(&'s self, bound: Option<&[u8]>) -> Option<&'s [u8]> {
        self.above_near(bound, ViewMark::nowhere()).row
    }

    fn above_from<'s>(
        &'s self,
        bound: Option<&[u8]>,
        mark: &mut hera_rows::RowMark,
    ) -> Option<&'s [u8]> {
        let found = self.above_near(bound, ViewMark::of(mark.first));
        mark.first = found.mark.side();
        found.row
    }

    fn not_below<'s>(&'s self, bound: &'s [u8], mark: &mut hera_rows::RowMark) -> Option<&'s [u8]> {
        let found = froms::not_below_near(
            &self.pages.indexed(),
            self.commits,
            self.layers,
            self.tip,
            self.rel,
            bound,
            ViewMark::of(mark.first),
        );
        mark.first = found.mark.side();
        found.row
    }

    fn has(&self, row: &[u8]) -> bool {
        seeks::has(
            &self.pages,
            self.commits,
            self.layers,
            self.tip,
            self.rel,
            row,
        )
    }
}

impl<'a> Hyp<'a> {
    /// The first row past the bound, as `above` finds it, and about where it stands in the pages and in the
    /// newest layer. It is looked for at the mark and beside it first: a walk that hands on each row and its
    /// mark searches neither. It takes no memory.
    pub fn above_near<'s>(&'s self, bound: Option<&[u8]>, mark: ViewMark) -> SeenRow<'s>
        ensures next { option_copied result.row ≡ find (is_past (option_copied bound.entry)) self.now }
        ensures ordered { IsAscending self.now }
    {
        seeks::above_near(
            &self.pages.indexed(),
            self.commits,
            self.layers,
            self.tip,
            self.rel,
            bound,
            mark,
        )
    }

    /// A set of its own with the same rows.
    pub fn collect(&self, alloc: Global) -> Result<RowSet, AllocError>
        ensures { IfOk result (λ rows. rows ≡ self.now) }
    {
        self.indexed().collect(alloc)
    }

    /// The same rows, of which none is told where it begins.
    fn indexed(&self) -> IndexedHyp<'a>
        ensures { result ≡ self.now }
    {
        IndexedHyp::of(
            self.pages.indexed(),
            self.commits,
            self.layers,
            self.tip,
            self.rel,
        )
    }

    /// How many rows there are; none for more than 2^63 - 1. It takes no memory, and looks at no row
    /// that no delta names.
    pub fn count(&self) -> Option<u64>
        ensures { MatchOption result (2 ^ 63 ≤ length self.now) (λ n. (n ≡ length self.now) × (n < 2 ^ 63)) }
    {
        counts::count_after(
            self.pages.len(),
            &self.pages,
            self.commits,
            self.layers,
            self.tip,
            self.rel,
        )
    }
}

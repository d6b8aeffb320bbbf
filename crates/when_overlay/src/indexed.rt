//! One relation of a hypothetical state, sought by where the base knows rows to begin.
ghost use Rattle.std.specs.Prelude.{◌≡◌, ◌<◌, ◌≤◌, ◌^◌, ◌++◌, List, ℕ, IfOk, IfSome, MatchOption, length};
ghost use Rattle.std.specs.List.{find};
ghost use Rattle.std.specs.Option.{option_copied};
ghost use Rattle.hera_rows.specs.Froms.{is_from};
ghost use Rattle.hera_sets.specs.Rows.{is_past, IsAscending, holds};
ghost use Rattle.when_overlay.specs.Changed.{rows_after};
ghost use Rattle.when_overlay.specs.Layered.{IsTip, path};

use crate::naming::{newest_naming, up_to_naming};
use crate::soughts::Sought;
use crate::{Layers, SeenRow, ViewMark, counts, froms, seeks};
use delta_atoms::Delta;
use hera_meaning::RelId;
use hera_rows::{RowMark, RowSet, Sorted};
use rel_pages::IndexedRel;
use std::alloc::{AllocError, Global};
use std::marker::Model;

/// The rows of one relation, in byte order, as `Hyp` has them, in whose pages a search walks few rows. Rows are lent as
/// slices of where they stand.
#[derive(Drop)]
pub struct IndexedHyp<'a> {
    pages: IndexedRel<'a>,
    commits: &'a [Delta],
    layers: &'a Layers,
    tip: Option<usize>,
    rel: RelId,
    /// The rows, where one delta has put all of them in.
    alone: Option<&'a RowSet>,
}

impl<'a> Model for IndexedHyp<'a> {
    ghost use Rattle.std.specs.Prelude.{◌≡◌, List, ℕ, ◌++◌, IfSome};
    ghost use Rattle.when_overlay.specs.Changed.{rows_after};
    ghost use Rattle.when_overlay.specs.Layered.{IsTip, path};

    ghost Value = { List (List ℕ) };

    ghost view = { λ h. rows_after h.rel.0 h.pages (h.commits.now ++ path h.layers.now.layers h.tip) };

    ghost invariant = { λ h. IsTip h.layers.now.layers h.tip × IfSome h.alone (λ rows. rows.now ≡ rows_after h.rel.0 h.pages (h.commits.now ++ path h.layers.now.layers h.tip)) };
}

impl<'a> Sorted for IndexedHyp<'a> {
    ghost rows = { λ h. h };

    fn above<'s>(&'s self, bound: Option<&[u8]>) -> Option<&'s [u8]> {
        self.above_near(bound, ViewMark::nowhere()).row
    }

    fn above_from<'s>(&'s self, bound: Option<&[u8]>, mark: &mut RowMark) -> Option<&'s [u8]> {
        let found = self.above_near(bound, ViewMark::of(mark.first));
        mark.first = found.mark.side();
        found.row
    }

    fn not_below<'s>(&'s self, bound: &'s [u8], mark: &mut RowMark) -> Option<&'s [u8]> {
        let found = self.not_below_near(bound, ViewMark::of(mark.first));
        mark.first = found.mark.side();
        found.row
    }

    fn has(&self, row: &[u8]) -> bool {
        self.has_row(row)
    }
}

impl<'a> IndexedHyp<'a> {
    /// The rows of the pages after the commits and then after the layers up to the tip.
    pub(crate) fn of(
        pages: IndexedRel<'a>,
        commits: &'a [Delta],
        layers: &'a Layers,
        tip: Option<usize>,
        rel: RelId,
    ) -> IndexedHyp<'a>
        requires { IsTip layers.now.layers tip }
        ensures { result ≡ rows_after rel.0 pages.entry (commits.now ++ path layers.now.layers tip) }
    {
        let alone = seeks::put_in_alone(&pages, commits, layers, tip, rel);
        IndexedHyp {
            pages,
            commits,
            layers,
            tip,
            rel,
            alone,
        }
    }

    /// The same rows: the last layers and commits that say nothing of the relation are passed over.
    pub(crate) fn new(
        pages: IndexedRel<'a>,
        commits: &'a [Delta],
        layers: &'a Layers,
        tip: Option<usize>,
        rel: RelId,
    ) -> IndexedHyp<'a>
        requires tip { IsTip layers.now.layers tip }
        requires ordered { IsAscending pages }
        ensures { result ≡ rows_after rel.0 pages.entry (commits.entry.now ++ path layers.now.layers tip) }
    {
        let newest = newest_naming(layers, tip, rel);
        IndexedHyp::of(pages, up_to_naming(commits, rel), layers, newest, rel)
    }

    /// The rows as a set, where one delta has put all of them in.
    #[inline]
    pub fn alone(&self) -> Option<&'a RowSet>
        ensures { IfSome result (λ rows. rows.now ≡ self.now) }
    {
        self.alone
    }

    /// Whether the row is one of them.
    fn has_row(&self, row: &[u8]) -> bool
        ensures found { result ≡ holds self.now row.now }
        ensures ordered { IsAscending self.now }
    {
        match self.alone() {
            Some(rows) => rows.has(row),
            None => seeks::has(
                &self.pages,
                self.commits,
                self.layers,
                self.tip,
                self.rel,
                row,
            ),
        }
    }

    /// The same rows, sought as these are. It takes no memory.
    pub fn again(&self) -> IndexedHyp<'a>
        ensures { result ≡ self.now }
    {
        IndexedHyp {
            pages: self.pages.again(),
            commits: self.commits,
            layers: self.layers,
            tip: self.tip,
            rel: self.rel,
            alone: self.alone,
        }
    }

    /// The first row past the bound, as `above` finds it, and about where it stands in the pages and in the
    /// newest layer. It is looked for at the mark and beside it first: a walk that hands on each row and its
    /// mark searches few rows. It takes no memory.
    pub fn above_near<'s>(&'s self, bound: Option<&[u8]>, mark: ViewMark) -> SeenRow<'s>
        ensures next { option_copied result.row ≡ find (is_past (option_copied bound.entry)) self.now }
        ensures ordered { IsAscending self.now }
    {
        match self.alone() {
            Some(rows) => seeks::above_alone(rows, bound, mark),
            None => seeks::first_met(
                &self.pages,
                self.commits,
                self.layers,
                self.tip,
                self.rel,
                Sought::Past(bound),
                mark,
            ),
        }
    }

    /// The first row that does not stand before the bound, and about where it stands, looked for as `above_near`
    /// looks.
    fn not_below_near<'s>(&'s self, bound: &'s [u8], mark: ViewMark) -> SeenRow<'s>
        ensures least { option_copied result.row ≡ find (is_from bound.now) self.now }
        ensures ordered { IsAscending self.now }
    {
        match self.alone() {
            Some(rows) => froms::not_below_alone(rows, bound, mark),
            None => seeks::first_met(
                &self.pages,
                self.commits,
                self.layers,
                self.tip,
                self.rel,
                Sought::From(bound),
                mark,
            ),
        }
    }

    /// A set of its own with the same rows.
    pub fn collect(&self, alloc: Global) -> Result<RowSet, AllocError>
        ensures { IfOk result (λ rows. rows ≡ self.now) }
    {
        match self.alone() {
            Some(rows) => rows.copy(),
            None => self.collect_met(alloc),
        }
    }

    /// A set of its own with the same rows, which are sought one by one.
    fn collect_met(&self, alloc: Global) -> Result<RowSet, AllocError>
        ensures { IfOk result (λ rows. rows ≡ self.now) }
    {
        let mut set = RowSet::new(alloc);
        let mut last: Option<&[u8]> = None;
        let mut mark = ViewMark::start();
        loop {
            let next = self.above_near(last, mark);
            let Some(row) = next.row else {
                return Ok(set);
            };
            set.push_last(row)?;
            last = Some(row);
            mark = next.mark;
        }
    }

    /// How many rows there are; none for more than 2^63 - 1. It takes no memory, and looks at no row
    /// that no delta names.
    pub fn count(&self) -> Option<u64>
        ensures { MatchOption result (2 ^ 63 ≤ length self.now) (λ n. (n ≡ length self.now) × (n < 2 ^ 63)) }
    {
        counts::count_after(
            self.pages.len(),
            &self.pages,
            self.commits,
            self.layers,
            self.tip,
            self.rel,
        )
    }
}

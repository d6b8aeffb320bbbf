//! Walks.
ghost use Rattle.std.specs.Prelude.{◌≡◌, ◌≤◌, List, [], ◌∷◌, true, false, is_some, None, Some, min, slice_get, OnOk, OnErr, IfOk, IsSomeAnd, MatchBool, MatchOption};
ghost use Rattle.std.specs.List.{filter};
ghost use Rattle.std.specs.Option.{option_copied};
ghost use Rattle.hera_sets.specs.Rows.{is_past};
ghost use Rattle.hera_meaning.specs.Deltas.{State, rows_at};
ghost use Rattle.when_overlay.specs.declared.layers.Layer.{Layer};
ghost use Rattle.when_overlay.specs.Changed.{after_all};
ghost use Rattle.hera_reads.specs.Branched.{seen_at};
ghost use Rattle.hera_reads.specs.declared.walks.WalkSource.TheVariants.{Named};
ghost use Rattle.hera_reads.specs.Walking.{Front, given, named, rest_of, current_of, onward, first_of, past_first, to_come, walk_at, gone_on, with_kept, with_gathered, settled, is_named, IsGiven, rest_reach, has_passed, own_rows, past_own};

use crate::Changes;
use crate::ahead::Ahead;
use crate::past::collect_past;
use hera_meaning::RelId;
use hera_rows::RowSet;
use hera_values::let_go;
use std::alloc::{AllocError, Global};
use std::marker::Model;
use std::mem::replace;
use when_overlay::Stored;

/// What a walk goes over behind the rows that it has read ahead: rows of its own, from a place on; or a relation as
/// it is under a layer, of which what lies past those rows is still to come.
#[derive(Drop)]
pub(crate) enum WalkSource {
    Rows { rows: RowSet, next: usize },
    Named { rel: RelId, tip: usize },
}

/// A walk over the rows of a relation, with the rows gathered on it.
#[derive(Drop)]
pub struct Walk {
    ahead: Ahead,
    source: WalkSource,
    gathered: RowSet,
}

/// The row at a place, if there is one.
fn row_at(rows: &RowSet, i: usize) -> Option<&[u8]>
    ensures { option_copied result ≡ slice_get rows.now i }
{
    if i < rows.len() {
        Some(rows.row(i))
    } else {
        None
    }
}

/// Goes on to the next row past the last one in a relation under a layer, if there is one, and reads rows behind it
/// ahead.
fn row_past(
    ahead: &mut Ahead,
    alloc: Global,
    changes: &Changes,
    stored: &Stored<'_>,
    rel: RelId,
    tip: usize,
) -> Result<bool, AllocError>
    ensures { let rows = rows_at (seen_at stored.now.state changes.now.layers tip) rel.0 in IfOk result (λ found. MatchBool found (IsSomeAnd ahead.new.passed (λ x. filter (is_past ahead.old.passed) rows ≡ x ∷ onward (Some x) ahead.new.left rows)) (filter (is_past ahead.old.passed) rows ≡ [])) }
{
    if usize::from(rel.0) >= stored.len() {
        return Ok(false);
    }
    let rows = changes.rel(stored, rel, tip);
    ahead.read(alloc, &rows)
}

/// The rows past the bound in a relation under a layer, as a set.
pub fn rows_past(
    alloc: Global,
    changes: &Changes,
    stored: &Stored<'_>,
    rel: RelId,
    tip: usize,
    bound: Option<&[u8]>,
) -> Result<RowSet, AllocError>
    ensures { IfOk result (λ rows. rows ≡ filter (is_past (option_copied bound.entry)) (rows_at (seen_at stored.now.state changes.now.layers tip) rel.0)) }
{
    if usize::from(rel.0) >= stored.len() {
        return Ok(RowSet::new(alloc));
    }
    let rows = changes.rel(stored, rel, tip);
    collect_past(alloc, &rows, bound)
}

impl WalkSource {
    /// The row that the last step found, where one was found.
    fn current<'a>(&'a self, ahead: &'a Ahead) -> Option<&'a [u8]>
        ensures { option_copied result ≡ current_of ahead.now self.now }
    {
        match self {
            WalkSource::Rows { rows, next } => {
                if *next == 0 {
                    ahead.current()
                } else {
                    row_at(rows, *next - 1)
                }
            }
            WalkSource::Named { .. } => ahead.current(),
        }
    }

    /// Whether one of the walk's own rows is passed.
    fn has_passed(&self) -> bool
        ensures { result ≡ has_passed self.now }
    {
        match self {
            WalkSource::Rows { rows: _, next } => *next > 0,
            WalkSource::Named { .. } => false,
        }
    }

    /// The next one of the walk's own rows, if one is left.
    #[tactic(auto, using(crate::proofs::Drops::lefts))]
    fn coming(&self) -> Option<&[u8]>
        ensures { option_copied result ≡ slice_get (own_rows self.now) 0 }
    {
        match self {
            WalkSource::Rows { rows, next } => row_at(rows, *next),
            WalkSource::Named { .. } => None,
        }
    }

    /// Goes on to the next one of the walk's own rows, if one is left, and answers whether it did. It takes no
    /// memory.
    fn pass(&mut self) -> bool
        ensures found { result ≡ is_some (slice_get (own_rows self.old) 0) }
        ensures past { result ≡ true → self.new ≡ past_own self.old }
        ensures kept { result ≡ false → self.new ≡ self.old }
    {
        match self {
            WalkSource::Rows { rows, next } => {
                if *next < rows.len() {
                    *next += 1;
                    true
                } else {
                    false
                }
            }
            WalkSource::Named { .. } => false,
        }
    }

    /// The relation and the layer that are named, where they are.
    fn name(&self) -> Option<(RelId, usize)>
        ensures { MatchOption result ((ahead : Front) → IsGiven (rest_of ahead self.now)) (λ p. self.now ≡ Named p.0 p.1) }
    {
        match self {
            WalkSource::Rows { .. } => None,
            WalkSource::Named { rel, tip } => Some((*rel, *tip)),
        }
    }
}

impl Model for Walk {
    ghost use Rattle.hera_reads.specs.Walking.{Pace, rest_of, current_of};

    ghost Value = { Pace };

    ghost view = { λ w. record { rest = rest_of w.ahead w.source; current = current_of w.ahead w.source; gathered = w.gathered } };
}

impl Walk {
    /// A walk in front of the first of these rows, with nothing gathered. It takes no memory.
    pub fn new(alloc: Global, rows: RowSet) -> Walk
        ensures { result ≡ record { rest = given rows; current = None; gathered = [] } }
    {
        Walk {
            ahead: Ahead::new(alloc),
            source: WalkSource::Rows { rows, next: 0 },
            gathered: RowSet::new(alloc),
        }
    }

    /// A walk in front of the first row of a relation under a layer, with nothing gathered.
    /// It takes no memory.
    pub fn over(alloc: Global, rel: RelId, tip: usize) -> Walk
        ensures { result ≡ record { rest = named [] rel.0 tip; current = None; gathered = [] } }
    {
        Walk {
            ahead: Ahead::new(alloc),
            source: WalkSource::Named { rel, tip },
            gathered: RowSet::new(alloc),
        }
    }

    /// Whether it names a relation, and has not all rows that are left.
    pub fn is_named(&self) -> bool
        ensures { result ≡ is_named self.now.rest }
    {
        match &self.source {
            WalkSource::Rows { .. } => false,
            WalkSource::Named { .. } => true,
        }
    }

    /// How many of `most` layers have to be there, the oldest ones, for what it names.
    pub fn reach(&self, most: usize) -> usize
        ensures { result ≡ min most (rest_reach self.now.rest) }
    {
        match &self.source {
            WalkSource::Rows { .. } => 0,
            WalkSource::Named { rel: _, tip } => if *tip < most { *tip + 1 } else { most },
        }
    }

    /// The row that the last step found, where one was found.
    pub(crate) fn current(&self) -> Option<&[u8]>
        ensures { option_copied result ≡ self.now.current }
    {
        self.source.current(&self.ahead)
    }

    /// The next row, where the walk has it: one of its own, or one that it has read ahead.
    pub(crate) fn coming(&self) -> Option<&[u8]>
        ensures { option_copied result ≡ first_of self.now.rest }
    {
        if self.source.has_passed() {
            return self.source.coming();
        }
        match self.ahead.coming() {
            None => self.source.coming(),
            Some(row) => Some(row),
        }
    }

    /// Goes on to the next row, where the walk has it, and answers whether it did. It takes no memory.
    pub(crate) fn pass(&mut self) -> bool
        ensures found { result ≡ is_some (first_of self.old.rest) }
        ensures past { self.new ≡ past_first self.old }
    {
        if self.source.has_passed() {
            return self.source.pass();
        }
        if self.ahead.pass() {
            return true;
        }
        self.source.pass()
    }

    /// Ends the walk, which has no row left. It takes no memory.
    fn end(&mut self, alloc: Global)
        ensures { self.new ≡ record { rest = given []; current = None; gathered = self.old.gathered } }
    {
        let rows = RowSet::new(alloc);
        let_go(replace(&mut self.source, WalkSource::Rows { rows, next: 0 }));
        let_go(replace(&mut self.ahead, Ahead::new(alloc)));
    }

    /// Goes on to the next row of a relation under a layer, of which none is read ahead, or ends.
    #[tactic(auto, using(crate::proofs::Goings::goings))]
    fn seek(
        &mut self,
        alloc: Global,
        changes: &Changes,
        stored: &Stored<'_>,
        rel: RelId,
        tip: usize,
    ) -> Result<(), AllocError>
        requires { self.old.rest ≡ named [] rel.0 tip }
        ensures step { let s = stored.now.state in OnOk result (walk_at s changes.now.layers self.new ≡ gone_on (walk_at s changes.now.layers self.old)) }
        ensures names { rest_reach self.new.rest ≤ rest_reach self.old.rest }
    {
        if row_past(&mut self.ahead, alloc, changes, stored, rel, tip)? {
            return Ok(());
        }
        self.end(alloc);
        Ok(())
    }

    /// Goes on to the next row, which the walk has not, or ends.
    #[tactic(auto, using(crate::proofs::Goings::goings))]
    fn go_on(
        &mut self,
        alloc: Global,
        changes: &Changes,
        stored: &Stored<'_>,
    ) -> Result<(), AllocError>
        requires { first_of self.old.rest ≡ None }
        ensures step { let s = stored.now.state in OnOk result (walk_at s changes.now.layers self.new ≡ gone_on (walk_at s changes.now.layers self.old)) }
        ensures names { rest_reach self.new.rest ≤ rest_reach self.old.rest }
    {
        match self.source.name() {
            Some((rel, tip)) => self.seek(alloc, changes, stored, rel, tip),
            None => {
                self.end(alloc);
                Ok(())
            }
        }
    }

    /// Goes on to the next row, or finds none left.
    #[tactic(auto, using(crate::proofs::Goings::goings))]
    pub(crate) fn next(
        &mut self,
        alloc: Global,
        changes: &Changes,
        stored: &Stored<'_>,
    ) -> Result<(), AllocError>
        ensures step { let s = stored.now.state in OnOk result (walk_at s changes.now.layers self.new ≡ gone_on (walk_at s changes.now.layers self.old)) }
        ensures names { rest_reach self.new.rest ≤ rest_reach self.old.rest }
    {
        if self.pass() {
            return Ok(());
        }
        self.go_on(alloc, changes, stored)
    }

    /// The walk with the rows that are left of it, collected where it names a relation.
    #[tactic(auto, using(crate::proofs::Goings::settlings))]
    pub fn settle(
        mut self,
        alloc: Global,
        changes: &Changes,
        stored: &Stored<'_>,
    ) -> Result<Walk, AllocError>
        ensures { IfOk result (λ w. w ≡ settled stored.now.state changes.now.layers self) }
    {
        match self.source.name() {
            None => Ok(self),
            Some((rel, tip)) => {
                let last = self.ahead.last();
                let rows = rows_past(alloc, changes, stored, rel, tip, last)?;
                let_go(replace(&mut self.source, WalkSource::Rows { rows, next: 0 }));
                Ok(self)
            }
        }
    }

    /// Gathers the current row, if there is one. Without memory the walk stays as it is.
    pub(crate) fn keep(&mut self) -> Result<(), AllocError>
        ensures ok { OnOk result (self.new ≡ with_kept self.old) }
        ensures err { OnErr result (self.new ≡ self.old) }
    {
        match self.source.current(&self.ahead) {
            None => Ok(()),
            Some(row) => {
                self.gathered.insert(row)?;
                Ok(())
            }
        }
    }

    /// Gathers a row. Without memory the walk stays as it is.
    pub(crate) fn gather(&mut self, row: &[u8]) -> Result<(), AllocError>
        ensures ok { OnOk result (self.new ≡ with_gathered row.now self.old) }
        ensures err { OnErr result (self.new ≡ self.old) }
    {
        self.gathered.insert(row)?;
        Ok(())
    }

    /// The gathered rows.
    pub fn into_gathered(self) -> RowSet
        ensures { result ≡ self.gathered }
    {
        let Walk {
            ahead: _,
            source: _,
            gathered,
        } = self;
        gathered
    }
}

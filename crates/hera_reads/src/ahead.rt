//! Rows that a walk reads ahead of a relation that is named.
ghost use Rattle.std.specs.Prelude.{◌≡◌, ◌<◌, ◌≤◌, ◌+◌, [], ◌∷◌, ◌++◌, drop, None, Some, is_some, length, take, slice_get, OnOk, IfOk, IfSome, IsSomeAnd};
ghost use Rattle.std.specs.List.{filter, find};
ghost use Rattle.std.specs.Option.{option_copied};
ghost use Rattle.hera_sets.specs.Rows.{is_past, IsAscending};
ghost use Rattle.hera_reads.specs.Walking.{last_or, onward, past_front, HasRead, IsAhead};

use hera_rows::{RowBuf, RowSet};
use hera_sets::is_same;
use hera_values::refill;
use std::alloc::{AllocError, Global};
use std::marker::Model;
use std::mem::replace;
use when_overlay::{IndexedHyp, ViewMark};

/// How many rows are read at once at most.
const MOST: usize = 32;

/// How many bytes a row has at most behind which another one is read at once.
const SHORT: usize = 64;

/// Rows read ahead, of which a walk has passed those in front of a place.
#[derive(Drop)]
pub(crate) struct Ahead {
    rows: Vec<RowBuf>,
    passed: usize,
    /// About where the last of the rows stands in the relation. It only saves time.
    mark: ViewMark,
    /// Behind how many rows the last one was read from a set. It only saves time.
    place: usize,
}

impl Model for Ahead {
    ghost use Rattle.std.specs.Prelude.{drop};
    ghost use Rattle.hera_reads.specs.Walking.{Front, row_before};

    ghost Value = { Front };

    ghost view = { λ a. record { passed = row_before a.passed a.rows.items; left = drop a.passed a.rows.items } };
}

/// The row at a place, if there is one.
fn bytes_at(rows: &[RowBuf], i: usize) -> Option<&[u8]>
    ensures { option_copied result ≡ slice_get rows.now i }
{
    if i < rows.len() {
        Some(rows[i].bytes())
    } else {
        None
    }
}

/// Puts a row into a buffer, in the place of the one that was there.
fn put_row(alloc: Global, buffer: &mut RowBuf, row: &[u8]) -> Result<(), AllocError>
    ensures { OnOk result (buffer.new ≡ row.now) }
{
    let mut bytes = replace(buffer, RowBuf::from_vec(Vec::new(alloc))).into_vec();
    refill(&mut bytes, row)?;
    *buffer = RowBuf::from_vec(bytes);
    Ok(())
}

/// Puts a row at a place of these, into the buffer that is there, or behind all of them.
fn put_at(alloc: Global, rows: &mut Vec<RowBuf>, i: usize, row: &[u8]) -> Result<(), AllocError>
    requires { i ≤ length rows.old.items }
    ensures put { OnOk result (take (i + 1) rows.new.items ≡ take i rows.old.items ++ row.now ∷ []) }
    ensures there { OnOk result (i < length rows.new.items) }
{
    if i < rows.len() {
        return put_row(alloc, &mut rows[i], row);
    }
    rows.push(RowBuf::new(alloc, row)?)?;
    Ok(())
}

/// How many rows are read at once behind so many: few at first, and then twice as many.
fn next_count(count: usize) -> usize {
    if count >= MOST / 2 { MOST } else { 2 * count }
}

/// The place of the first row past the bound, or a place behind all rows where there is none: where the row before the
/// guess is the bound, it is the guess.
fn place_past(rows: &RowSet, bound: Option<&[u8]>, guess: usize) -> Option<usize>
    ensures place { IfSome result (λ i. slice_get rows.now i ≡ find (is_past (option_copied bound.entry)) rows.now) }
    ensures ordered { IsAscending rows.now }
{
    let count = rows.len();
    let Some(row) = bound else {
        return Some(0);
    };
    if guess == 0 || guess > count {
        return None;
    }
    if is_same(rows.row(guess - 1), row) {
        Some(guess)
    } else {
        None
    }
}

/// Reads the row at a place of a set, and those behind it, so many in all at most, into the buffers that are there, and
/// answers how many it has read. A long row is the last one.
#[tactic(auto, using(crate::proofs::Reading::runs))]
fn read_run(
    alloc: Global,
    rows: &RowSet,
    from: usize,
    most: usize,
    ahead: &mut Vec<RowBuf>,
) -> Result<usize, AllocError>
    requires { from < length rows.now }
    ensures { IfOk result (λ n. IsSomeAnd (slice_get rows.now from) (λ first. IsAhead rows.now first (take n ahead.new.items))) }
{
    let mut last = rows.row(from);
    put_at(alloc, ahead, 0, last)?;
    let mut count = 1;
    let end = from
        .saturating_add(most.saturating_sub(1))
        .min(rows.len() - 1);
    for i in from..end {
        if last.len() > SHORT {
            return Ok(count);
        }
        last = rows.row(i + 1);
        put_at(alloc, ahead, count, last)?;
        count += 1;
    }
    Ok(count)
}

/// Reads a row, and rows past it, as `read_run` reads them.
#[tactic(auto, using(crate::proofs::Reading::reads))]
fn read_from(
    alloc: Global,
    rows: &IndexedHyp<'_>,
    first: &[u8],
    mark: &mut ViewMark,
    most: usize,
    ahead: &mut Vec<RowBuf>,
) -> Result<usize, AllocError>
    ensures { IfOk result (λ n. IsAhead rows.now first.now (take n ahead.new.items)) }
{
    put_at(alloc, ahead, 0, first)?;
    let mut last = first;
    let mut count = 1;
    for _ in 1..most {
        if last.len() > SHORT {
            return Ok(count);
        }
        let next = rows.above_near(Some(last), *mark);
        let Some(row) = next.row else {
            return Ok(count);
        };
        put_at(alloc, ahead, count, row)?;
        count += 1;
        last = row;
        *mark = next.mark;
    }
    Ok(count)
}

impl Ahead {
    /// No rows. It takes no memory.
    pub(crate) fn new(alloc: Global) -> Ahead
        ensures { result ≡ record { passed = None; left = [] } }
    {
        Ahead {
            rows: Vec::new(alloc),
            passed: 0,
            mark: ViewMark::start(),
            place: 0,
        }
    }

    /// The row that was passed last, if one was.
    pub(crate) fn current(&self) -> Option<&[u8]>
        ensures { option_copied result ≡ self.now.passed }
    {
        if self.passed == 0 {
            None
        } else {
            bytes_at(&self.rows, self.passed - 1)
        }
    }

    /// The next row, if one is left.
    #[tactic(auto, using(crate::proofs::Drops::lefts))]
    pub(crate) fn coming(&self) -> Option<&[u8]>
        ensures { option_copied result ≡ slice_get self.now.left 0 }
    {
        bytes_at(&self.rows, self.passed)
    }

    /// The last row, or where none is left the one that was passed last, if one was.
    #[tactic(auto, using(crate::proofs::Drops::lasts))]
    pub(crate) fn last(&self) -> Option<&[u8]>
        ensures { option_copied result ≡ last_or self.now.passed self.now.left }
    {
        let count = self.rows.len();
        if self.passed < count {
            Some(self.rows[count - 1].bytes())
        } else {
            self.current()
        }
    }

    /// Passes the next row, if one is left, and answers whether it did. It takes no memory.
    #[tactic(auto, using(crate::proofs::Drops::passes))]
    pub(crate) fn pass(&mut self) -> bool
        ensures found { result ≡ is_some (slice_get self.old.left 0) }
        ensures past { self.new ≡ past_front self.old }
    {
        if self.passed < self.rows.len() {
            self.passed += 1;
            true
        } else {
            false
        }
    }

    /// Reads a set on from a place, at which the first row past the one that was passed last stands, and passes that
    /// row; answers whether there is one.
    fn read_on(&mut self, alloc: Global, rows: &RowSet, from: usize) -> Result<bool, AllocError>
        requires { slice_get rows.now from ≡ find (is_past self.old.passed) rows.now }
        ensures { IfOk result (HasRead rows.now self.old.passed self.new) }
    {
        if from >= rows.len() {
            return Ok(false);
        }
        let most = next_count(self.rows.len());
        let count = read_run(alloc, rows, from, most, &mut self.rows)?;
        self.rows.truncate(count);
        self.place = from.saturating_add(count);
        self.passed = 1;
        Ok(true)
    }

    /// Seeks the first row past the one that was passed last, and passes it, if there is one, and reads rows behind it
    /// ahead; answers whether there is one.
    fn seek(&mut self, alloc: Global, rows: &IndexedHyp<'_>) -> Result<bool, AllocError>
        ensures { IfOk result (HasRead rows.now self.old.passed self.new) }
    {
        let next = rows.above_near(self.current(), self.mark);
        let Some(row) = next.row else {
            return Ok(false);
        };
        let most = next_count(self.rows.len());
        self.mark = next.mark;
        let count = read_from(alloc, rows, row, &mut self.mark, most, &mut self.rows)?;
        self.rows.truncate(count);
        self.passed = 1;
        Ok(true)
    }

    /// Passes the first row past the one that was passed last, if there is one among these, and reads rows behind
    /// it ahead; answers whether there is one. Where one delta has put all rows in, it reads on where it stopped.
    pub(crate) fn read(&mut self, alloc: Global, rows: &IndexedHyp<'_>) -> Result<bool, AllocError>
        ensures { IfOk result (HasRead rows.now self.old.passed self.new) }
    {
        let Some(set) = rows.alone() else {
            return self.seek(alloc, rows);
        };
        match place_past(set, self.current(), self.place) {
            Some(from) => self.read_on(alloc, set, from),
            None => self.seek(alloc, rows),
        }
    }
}

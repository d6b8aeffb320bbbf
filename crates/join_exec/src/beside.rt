//! The join where one left field is sought: the right rows are walked beside the left ones.
ghost use Rattle.std.specs.Prelude.{◌≡◌, ◌++◌, ℕ, List, map, filter, IfOk, OnOk, IfSome};
ghost use Rattle.std.specs.List.{find};
ghost use Rattle.std.specs.Option.{option_copied};
ghost use Rattle.hera_sets.specs.Rows.{normal, IsAscending};
ghost use Rattle.hera_meaning.specs.Rows.{pieces};
ghost use Rattle.hera_meaning.specs.Relations.{piece_at, agree, joined, join_of};
ghost use Rattle.hera_rows.specs.Froms.{is_from};
ghost use Rattle.rel_algebra.specs.Fronts.{begins, begun_in, begun_of};
ghost use Rattle.join_exec.specs.Leading.{ArePlaces, leading_of};
ghost use Rattle.join_exec.specs.Gaps.{last_or, is_over, IsGap};

use crate::joining::put_pair;
use hera_meaning::Schema;
use hera_rows::{RowMark, RowSet, Sorted};
use hera_sets::{is_below, is_same};
use rel_algebra::{begun_in, piece};
use std::alloc::{AllocError, Global};

/// Some bytes, and the first row of a set past them: no row stands between.
#[derive(Clone, Copy)]
struct Gap<'s> {
    past: &'s [u8],
    ahead: Option<&'s [u8]>,
}

/// The join by one field of the left, which stands at this place: the right rows that begin with it are tried.
///
/// Where the walk through the right rows stands at the first row from that field on, none is sought.
pub fn join_beside<'s, A: Sorted, B: Sorted>(
    alloc: Global,
    left: &Schema,
    right: &Schema,
    places: &[Option<usize>],
    place: usize,
    a: &'s A,
    b: &'s B,
) -> Result<RowSet, AllocError>
    requires places { ArePlaces left.now right.now places.now }
    requires leading { (row : List ℕ) → piece_at (pieces left.now row) place ≡ leading_of left.now row right.now }
    ensures { IfOk result (λ set. set ≡ join_of left.now right.now (A.rows a.now) (B.rows b.now)) }
{
    let mut set = RowSet::new(alloc);
    let mut gap: Option<Gap<'s>> = None;
    let mut last: Option<&'s [u8]> = None;
    let mut mark = RowMark::start();
    let mut beside = RowMark::start();
    while let Some(row) = a.above_from(last, &mut mark) {
        let front = piece(left, row, place);
        let next = put_beside(
            alloc,
            left,
            right,
            places,
            row,
            front,
            b,
            gap,
            &mut beside,
            &mut set,
        )?;
        gap = Some(next);
        last = Some(row);
    }
    Ok(set)
}

/// Puts a left row joined with each of the right rows that begin with the front and agree with it into the set, and
/// answers what is ahead.
fn put_beside<'s, B: Sorted>(
    alloc: Global,
    left: &Schema,
    right: &Schema,
    places: &[Option<usize>],
    row: &[u8],
    front: &'s [u8],
    b: &'s B,
    gap: Option<Gap<'s>>,
    mark: &mut RowMark,
    set: &mut RowSet,
) -> Result<Gap<'s>, AllocError>
    requires places { ArePlaces left.now right.now places.now }
    requires gap { IfSome gap (IsGap (B.rows b.now)) }
    ensures gap { IfOk result (IsGap (B.rows b.now)) }
    ensures put { (xs : List (List ℕ)) → set.old ≡ normal xs → OnOk result (set.new ≡ normal (xs ++ map (joined left.now right.now) (filter (agree left.now right.now) (map (λ other. (row.now, other)) (begun_of front.now (B.rows b.now)))))) }
{
    let mut last: Option<&'s [u8]> = None;
    let mut ahead = first_from(b, front, gap, mark);
    while let Some(other) = begun_in(front, ahead) {
        put_pair(alloc, left, right, places, row, other, set)?;
        ahead = b.above_from(Some(other), mark);
        last = Some(other);
    }
    Ok(Gap {
        past: last_or(front, last),
        ahead,
    })
}

/// The first right row that does not stand before the front: the one ahead, where the gap goes over the front.
fn first_from<'s, B: Sorted>(
    b: &'s B,
    front: &'s [u8],
    gap: Option<Gap<'s>>,
    mark: &mut RowMark,
) -> Option<&'s [u8]>
    requires gap { IfSome gap (IsGap (B.rows b.now)) }
    ensures first { option_copied result ≡ find (is_from front.now) (B.rows b.now) }
    ensures ordered { IsAscending (B.rows b.now) }
{
    match gap {
        Some(known) if is_over(known, front) => known.ahead,
        _ => b.not_below(front, mark),
    }
}

/// Whether these bytes stand behind those of the gap, and the row ahead not before them.
#[inline]
fn is_over(gap: Gap<'_>, front: &[u8]) -> bool
    ensures { result ≡ is_over gap.entry front.now }
{
    if !is_below(gap.past, front) {
        return false;
    }
    match gap.ahead {
        Some(row) => !is_below(row, front),
        None => true,
    }
}

/// The last row, and the front where there is none.
#[inline]
fn last_or<'s>(front: &'s [u8], last: Option<&'s [u8]>) -> &'s [u8]
    ensures { result.now ≡ last_or front.now (option_copied last.entry) }
{
    last.unwrap_or(front)
}

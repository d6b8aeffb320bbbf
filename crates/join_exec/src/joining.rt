//! The join of two sets.
ghost use Rattle.std.specs.Prelude.{◌≡◌, ◌++◌, List, ℕ, cond, drop, map, filter, length, IfOk, OnOk};
ghost use Rattle.hera_sets.specs.Rows.{IsAscending, holds, normal, put};
ghost use Rattle.hera_meaning.specs.Relations.{agree, joined, join_of};
ghost use Rattle.rel_algebra.specs.Fronts.{rows_behind};
ghost use Rattle.join_exec.specs.Leading.{ArePlaces, keyed_of};

use crate::beside::join_beside;
use crate::pairing::{agree, joined, leading, leads, one_leading, places_of, shared};
use hera_meaning::Schema;
use hera_rows::{RowMark, RowSet, Sorted};
use rel_algebra::Begun;
use std::alloc::{AllocError, Global};

/// For so many left rows at most, each right row is looked at rather than all put in another order.
const FEW: usize = 4;

/// The natural join: for each left row and each right row that are equal on the attributes that both
/// schemas have, the left row and behind it the fields of the right row that the left lacks. Without
/// a common attribute these are all pairs.
///
/// Where the common attributes are the right schema's leading ones, the right rows of each left row
/// are sought, beside those of the left row before, unless these lead to them. Else the right rows are
/// put in the order of the common attributes first, unless the left rows are few.
pub fn join<A: Sorted, B: Sorted>(
    alloc: Global,
    left: &Schema,
    right: &Schema,
    a: &A,
    b: &B,
) -> Result<RowSet, AllocError>
    ensures { IfOk result (λ set. set ≡ join_of left.now right.now (A.rows a.now) (B.rows b.now)) }
{
    let places = places_of(alloc, left, right)?;
    if !leads(&places) && !has_few(a) {
        return join_keyed(alloc, left, right, &places, a, b);
    }
    match one_leading(left, right, &places) {
        Some(place) => join_beside(alloc, left, right, &places, place, a, b),
        None => join_sought(alloc, left, right, &places, a, b),
    }
}

/// Whether there are few rows. It says how to join, and not what.
fn has_few<A: Sorted>(a: &A) -> bool {
    let mut last: Option<&[u8]> = None;
    let mut mark = RowMark::start();
    for _ in 0..FEW {
        match a.above_from(last, &mut mark) {
            Some(row) => last = Some(row),
            None => return true,
        }
    }
    false
}

/// The join, where the right rows are tried that begin with the fields which both have so far.
fn join_sought<A: Sorted, B: Sorted>(
    alloc: Global,
    left: &Schema,
    right: &Schema,
    places: &[Option<usize>],
    a: &A,
    b: &B,
) -> Result<RowSet, AllocError>
    requires places { ArePlaces left.now right.now places.now }
    ensures { IfOk result (λ set. set ≡ join_of left.now right.now (A.rows a.now) (B.rows b.now)) }
{
    let mut set = RowSet::new(alloc);
    let mut last: Option<&[u8]> = None;
    let mut mark = RowMark::start();
    let mut beside = RowMark::start();
    while let Some(row) = a.above_from(last, &mut mark) {
        let front = leading(alloc, left, right, places, row)?;
        let others = Begun {
            a: b,
            front: front.bytes(),
        };
        put_joined(
            alloc,
            left,
            right,
            places,
            row,
            &others,
            &mut beside,
            &mut set,
        )?;
        last = Some(row);
    }
    Ok(set)
}

/// Puts a left row joined with each of the right rows that agree with it into the set.
fn put_joined<B: Sorted>(
    alloc: Global,
    left: &Schema,
    right: &Schema,
    places: &[Option<usize>],
    row: &[u8],
    b: &B,
    mark: &mut RowMark,
    set: &mut RowSet,
) -> Result<(), AllocError>
    requires places { ArePlaces left.now right.now places.now }
    ensures { (xs : List (List ℕ)) → set.old ≡ normal xs → OnOk result (set.new ≡ normal (xs ++ map (joined left.now right.now) (filter (agree left.now right.now) (map (λ other. (row.now, other)) (B.rows b.now))))) }
{
    let mut last: Option<&[u8]> = None;
    while let Some(other) = b.above_from(last, mark) {
        put_pair(alloc, left, right, places, row, other, set)?;
        last = Some(other);
    }
    Ok(())
}

/// Puts a left row joined with a right row into the set, if they agree.
pub(crate) fn put_pair(
    alloc: Global,
    left: &Schema,
    right: &Schema,
    places: &[Option<usize>],
    row: &[u8],
    other: &[u8],
    set: &mut RowSet,
) -> Result<(), AllocError>
    requires places { ArePlaces left.now right.now places.now }
    ensures { OnOk result (set.new ≡ cond (agree left.now right.now (row.now, other.now)) (put (joined left.now right.now (row.now, other.now)) set.old) set.old) }
{
    if !agree(left, right, places, row, other) {
        return Ok(());
    }
    let both = joined(alloc, left, right, places, row, other)?;
    set.insert(both.bytes())?;
    Ok(())
}

/// The join, where the right rows are put in the order of the common attributes first.
fn join_keyed<A: Sorted, B: Sorted>(
    alloc: Global,
    left: &Schema,
    right: &Schema,
    places: &[Option<usize>],
    a: &A,
    b: &B,
) -> Result<RowSet, AllocError>
    requires places { ArePlaces left.now right.now places.now }
    ensures { IfOk result (λ set. set ≡ join_of left.now right.now (A.rows a.now) (B.rows b.now)) }
{
    let keyed = keyed(alloc, left, right, b)?;
    let mut set = RowSet::new(alloc);
    let mut last: Option<&[u8]> = None;
    let mut mark = RowMark::start();
    let mut beside = RowMark::start();
    while let Some(row) = a.above_from(last, &mut mark) {
        let front = shared(alloc, left, right, left, row)?;
        let key = front.bytes();
        let others = Begun {
            a: &keyed,
            front: key,
        };
        put_keyed(
            alloc,
            left,
            right,
            places,
            row,
            b,
            key.len(),
            &others,
            &mut beside,
            &mut set,
        )?;
        last = Some(row);
    }
    Ok(set)
}

/// The right rows, each behind its fields at the common attributes.
fn keyed<B: Sorted>(
    alloc: Global,
    left: &Schema,
    right: &Schema,
    b: &B,
) -> Result<RowSet, AllocError>
    ensures set { IfOk result (λ set. set ≡ normal (map (keyed_of left.now right.now) (B.rows b.now))) }
    ensures ordered { IsAscending (B.rows b.now) }
{
    let mut set = RowSet::new(alloc);
    let mut last: Option<&[u8]> = None;
    let mut mark = RowMark::start();
    while let Some(row) = b.above_from(last, &mut mark) {
        let key = shared(alloc, left, right, right, row)?;
        let mut bytes = key.into_vec();
        bytes.extend_from_slice(row)?;
        set.insert(&bytes)?;
        last = Some(row);
    }
    Ok(set)
}

/// Puts a left row joined with each of the right rows that agree with it into the set. The right rows are sought behind
/// so many bytes of the others.
fn put_keyed<B: Sorted, C: Sorted>(
    alloc: Global,
    left: &Schema,
    right: &Schema,
    places: &[Option<usize>],
    row: &[u8],
    b: &B,
    skip: usize,
    others: &C,
    mark: &mut RowMark,
    set: &mut RowSet,
) -> Result<(), AllocError>
    requires places { ArePlaces left.now right.now places.now }
    ensures { (xs : List (List ℕ)) → set.old ≡ normal xs → OnOk result (set.new ≡ normal (xs ++ map (joined left.now right.now) (filter (agree left.now right.now) (map (λ other. (row.now, other)) (filter (holds (B.rows b.now)) (rows_behind skip (C.rows others.now))))))) }
{
    let mut last: Option<&[u8]> = None;
    while let Some(keyed) = others.above_from(last, mark) {
        put_held(alloc, left, right, places, row, behind(keyed, skip), b, set)?;
        last = Some(keyed);
    }
    Ok(())
}

/// Puts a left row joined with a right row into the set, if that is one and they agree.
fn put_held<B: Sorted>(
    alloc: Global,
    left: &Schema,
    right: &Schema,
    places: &[Option<usize>],
    row: &[u8],
    other: &[u8],
    b: &B,
    set: &mut RowSet,
) -> Result<(), AllocError>
    requires places { ArePlaces left.now right.now places.now }
    ensures { OnOk result (set.new ≡ cond (holds (B.rows b.now) other.now) (cond (agree left.now right.now (row.now, other.now)) (put (joined left.now right.now (row.now, other.now)) set.old) set.old) set.old) }
{
    if !b.has(other) {
        return Ok(());
    }
    put_pair(alloc, left, right, places, row, other, set)
}

/// The bytes behind the first `skip`.
fn behind(row: &[u8], skip: usize) -> &[u8]
    ensures { result.now ≡ drop skip row.now }
{
    &row[skip.min(row.len())..]
}

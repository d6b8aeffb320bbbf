//! Groups.
ghost use Rattle.std.specs.Prelude.{◌≡◌, ◌<◌, ◌++◌, ◌&&◌, true, false, List, [], Some, length, map, get_or, slice_get, slice_set, All, IfOk, IfErr, OnOk};
ghost use Rattle.std.specs.Option.{option_map};
ghost use Rattle.hera_sets.specs.Rows.{normal, put, holds, IsAscending};
ghost use Rattle.hera_meaning.specs.Rows.{IsRow, field_bytes};
ghost use Rattle.hera_meaning.specs.Relations.{at_places, project_of};
ghost use Rattle.hera_meaning.specs.Aggregates.{is_few, agg_of, is_agg_in_range, are_sums_in_range, rows_of_key, group_of};
ghost use Rattle.hera_row.specs.Fields.{told};
ghost use Rattle.rel_algebra.specs.Fronts.{rows_behind};
ghost use Rattle.hera_aggregate.specs.Extremes.{found_or_zero};
ghost use Rattle.hera_aggregate.specs.Groups.{IsAggWithin, keyed_row, aggs_bytes, are_aggs_in_range, IsGroupEnd};

use crate::counting::count;
use crate::ends::AggEnd;
use crate::extremes::{greatest_field, least_field};
use crate::fields::push_field;
use crate::sums::{narrowed, total};
use hera_meaning::{Agg, ScalarRef, Schema};
use hera_rows::{ROWS_LIMIT, RowBuf, RowMark, RowSet, Sorted};
use hera_sets::is_same;
use rel_algebra::{Begun, piece};
use std::alloc::{AllocError, Global};

/// Rows of so few keys at most are parted by their keys; those of more are put in the order of their keys.
const FEW_KEYS: usize = 16;

/// One row for each key, which is the fields at the places `by`: the key, and behind it the aggregates
/// of the rows of that key, in their order. Overflow comes exactly where a sum of one key's rows is not
/// in the range of an int, or there are more than 2^63 - 1 rows.
pub fn group<A: Sorted>(
    alloc: Global,
    schema: &Schema,
    by: &[usize],
    aggs: &[Agg],
    a: &A,
) -> Result<RowSet, AggEnd>
    requires rows { All (IsRow schema.now) (A.rows a.now) }
    requires within { All (IsAggWithin (length schema.now)) aggs.now }
    ensures group { IfOk result (λ set. set ≡ group_of schema.now by.now aggs.now (A.rows a.now)) }
    ensures fits { OnOk result ((is_few (A.rows a.now) && are_sums_in_range schema.now by.now aggs.now (A.rows a.now)) ≡ true) }
    ensures refused { IfErr result (IsGroupEnd (is_few (A.rows a.now) && are_sums_in_range schema.now by.now aggs.now (A.rows a.now))) }
{
    let keys = keys_of(alloc, schema, by, a)?;
    if keys.len() <= FEW_KEYS {
        return group_parts(alloc, schema, by, aggs, &keys, a);
    }
    group_keyed(alloc, schema, by, aggs, &keys, a)
}

/// The groups of rows that are parted by their keys.
fn group_parts<A: Sorted>(
    alloc: Global,
    schema: &Schema,
    by: &[usize],
    aggs: &[Agg],
    keys: &RowSet,
    a: &A,
) -> Result<RowSet, AggEnd>
    requires rows { All (IsRow schema.now) (A.rows a.now) }
    requires within { All (IsAggWithin (length schema.now)) aggs.now }
    requires keys { keys.now ≡ project_of schema.now by.now (A.rows a.now) }
    requires few { is_few (A.rows a.now) ≡ true }
    ensures group { IfOk result (λ set. set ≡ group_of schema.now by.now aggs.now (A.rows a.now)) }
    ensures fits { OnOk result ((is_few (A.rows a.now) && are_sums_in_range schema.now by.now aggs.now (A.rows a.now)) ≡ true) }
    ensures refused { IfErr result (IsGroupEnd (is_few (A.rows a.now) && are_sums_in_range schema.now by.now aggs.now (A.rows a.now))) }
{
    let parts = parts_of(alloc, schema, by, keys, a)?;
    let mut groups = RowSet::new(alloc);
    for place in 0..keys.len() {
        let row = group_row(
            alloc,
            schema,
            aggs,
            keys.row(place),
            0,
            part_at(&parts, place),
        )?;
        groups.insert(row.bytes())?;
    }
    Ok(groups)
}

/// The rows of the key at this place.
fn part_at(parts: &[RowSet], place: usize) -> &RowSet
    requires { place < length parts.now }
    ensures { slice_get parts.now place ≡ Some result.now }
{
    &parts[place]
}

/// The groups of rows that are put in the order of their keys.
fn group_keyed<A: Sorted>(
    alloc: Global,
    schema: &Schema,
    by: &[usize],
    aggs: &[Agg],
    keys: &RowSet,
    a: &A,
) -> Result<RowSet, AggEnd>
    requires rows { All (IsRow schema.now) (A.rows a.now) }
    requires within { All (IsAggWithin (length schema.now)) aggs.now }
    requires keys { keys.now ≡ project_of schema.now by.now (A.rows a.now) }
    requires few { is_few (A.rows a.now) ≡ true }
    ensures group { IfOk result (λ set. set ≡ group_of schema.now by.now aggs.now (A.rows a.now)) }
    ensures fits { OnOk result ((is_few (A.rows a.now) && are_sums_in_range schema.now by.now aggs.now (A.rows a.now)) ≡ true) }
    ensures refused { IfErr result (IsGroupEnd (is_few (A.rows a.now) && are_sums_in_range schema.now by.now aggs.now (A.rows a.now))) }
{
    let keyed = keyed(alloc, schema, by, a)?;
    let mut groups = RowSet::new(alloc);
    let mut last: Option<&[u8]> = None;
    let mut mark = RowMark::start();
    while let Some(key) = keys.above_from(last, &mut mark) {
        let rows = Begun {
            a: &keyed,
            front: key,
        };
        let row = group_row(alloc, schema, aggs, key, key.len(), &rows)?;
        groups.insert(row.bytes())?;
        last = Some(key);
    }
    Ok(groups)
}

/// The keys of the rows. Overflow comes for more than 2^63 - 1 rows.
fn keys_of<A: Sorted>(alloc: Global, schema: &Schema, by: &[usize], a: &A) -> Result<RowSet, AggEnd>
    ensures keys { IfOk result (λ keys. keys ≡ project_of schema.now by.now (A.rows a.now)) }
    ensures few { OnOk result (is_few (A.rows a.now) ≡ true) }
    ensures refused { IfErr result (IsGroupEnd (is_few (A.rows a.now))) }
{
    let mut keys = RowSet::new(alloc);
    let mut key = Vec::new(alloc);
    let mut n: u64 = 0;
    let mut last: Option<&[u8]> = None;
    let mut mark = RowMark::start();
    while let Some(row) = a.above_from(last, &mut mark) {
        if n == ROWS_LIMIT {
            return Err(AggEnd::Overflow);
        }
        n += 1;
        key.clear();
        put_places(schema, by, row, &mut key)?;
        keys.insert(&key)?;
        last = Some(row);
    }
    Ok(keys)
}

/// The rows of each of the keys.
fn parts_of<A: Sorted>(
    alloc: Global,
    schema: &Schema,
    by: &[usize],
    keys: &RowSet,
    a: &A,
) -> Result<Vec<RowSet>, AllocError>
    requires { keys.now ≡ project_of schema.now by.now (A.rows a.now) }
    ensures { IfOk result (λ parts. parts.items ≡ map (λ key. rows_of_key schema.now by.now key (A.rows a.now)) keys.now) }
{
    let mut parts = no_parts(alloc, keys)?;
    let mut key = Vec::new(alloc);
    let mut last: Option<&[u8]> = None;
    let mut mark = RowMark::start();
    while let Some(row) = a.above_from(last, &mut mark) {
        key.clear();
        put_places(schema, by, row, &mut key)?;
        put_part(&mut parts, place_of(keys, &key), row)?;
        last = Some(row);
    }
    Ok(parts)
}

/// No rows for each of the keys.
fn no_parts(alloc: Global, keys: &RowSet) -> Result<Vec<RowSet>, AllocError>
    ensures { IfOk result (λ parts. parts.items ≡ map (λ key. []) keys.now) }
{
    let mut parts = Vec::new(alloc);
    for place in 0..keys.len() {
        // for the proof alone: there is a key for each part
        let _key = keys.row(place);
        parts.push(RowSet::new(alloc))?;
    }
    Ok(parts)
}

/// Puts a row into the part at this place.
fn put_part(parts: &mut Vec<RowSet>, place: usize, row: &[u8]) -> Result<(), AllocError>
    requires { place < length parts.old.items }
    ensures { OnOk result (parts.new.items ≡ slice_set parts.old.items place (put row.now (get_or parts.old.items place []))) }
{
    parts[place].insert(row)?;
    Ok(())
}

/// The place of a key, which is one of them.
fn place_of(keys: &RowSet, key: &[u8]) -> usize
    requires { holds keys.now key.now ≡ true }
    ensures { slice_get keys.now result ≡ Some key.now }
{
    for place in 0..keys.len() {
        if is_same(key, keys.row(place)) {
            return place;
        }
    }
    0
}

/// The rows, each behind its key.
fn keyed<A: Sorted>(
    alloc: Global,
    schema: &Schema,
    by: &[usize],
    a: &A,
) -> Result<RowSet, AllocError>
    ensures set { IfOk result (λ set. set ≡ normal (map (keyed_row schema.now by.now) (A.rows a.now))) }
    ensures ordered { IsAscending (A.rows a.now) }
{
    let mut set = RowSet::new(alloc);
    let mut bytes = Vec::new(alloc);
    let mut last: Option<&[u8]> = None;
    let mut mark = RowMark::start();
    while let Some(row) = a.above_from(last, &mut mark) {
        bytes.clear();
        put_places(schema, by, row, &mut bytes)?;
        bytes.extend_from_slice(row)?;
        set.insert(&bytes)?;
        last = Some(row);
    }
    Ok(set)
}

/// Puts the fields at these places of a row behind the bytes.
fn put_places(
    schema: &Schema,
    places: &[usize],
    row: &[u8],
    bytes: &mut Vec<u8>,
) -> Result<(), AllocError>
    ensures { OnOk result (bytes.new.items ≡ bytes.old.items ++ at_places schema.now places.now row.now) }
{
    for place in places {
        bytes.extend_from_slice(piece(schema, row, *place))?;
    }
    Ok(())
}

/// The key, and behind it the aggregates of the rows without their first `skip` bytes.
fn group_row<A: Sorted>(
    alloc: Global,
    schema: &Schema,
    aggs: &[Agg],
    key: &[u8],
    skip: usize,
    a: &A,
) -> Result<RowBuf, AggEnd>
    requires rows { All (IsRow schema.now) (rows_behind skip (A.rows a.now)) }
    requires within { All (IsAggWithin (length schema.now)) aggs.now }
    requires few { is_few (A.rows a.now) ≡ true }
    ensures row { IfOk result (λ row. row ≡ key.now ++ aggs_bytes schema.now (rows_behind skip (A.rows a.now)) aggs.now) }
    ensures fits { OnOk result (are_aggs_in_range schema.now (rows_behind skip (A.rows a.now)) aggs.now ≡ true) }
    ensures refused { IfErr result (IsGroupEnd (are_aggs_in_range schema.now (rows_behind skip (A.rows a.now)) aggs.now)) }
{
    let mut row = Vec::from_slice(alloc, key)?;
    for agg in aggs {
        let value = aggregate(schema, *agg, skip, a)?;
        push_field(&mut row, value)?;
    }
    Ok(RowBuf::from_vec(row))
}

/// An aggregate of the rows without their first `skip` bytes.
fn aggregate<'a, A: Sorted>(
    schema: &Schema,
    agg: Agg,
    skip: usize,
    a: &'a A,
) -> Result<ScalarRef<'a>, AggEnd>
    requires rows { All (IsRow schema.now) (rows_behind skip (A.rows a.now)) }
    requires within { IsAggWithin (length schema.now) agg }
    requires few { is_few (A.rows a.now) ≡ true }
    ensures value { IfOk result (λ value. told value ≡ agg_of schema.now (rows_behind skip (A.rows a.entry.now)) agg) }
    ensures fits { OnOk result (is_agg_in_range schema.now (rows_behind skip (A.rows a.entry.now)) agg ≡ true) }
    ensures refused { IfErr result (λ end. (end ≡ AggEnd.Overflow) × (is_agg_in_range schema.now (rows_behind skip (A.rows a.entry.now)) agg ≡ false)) }
{
    match agg {
        Agg::Count => Ok(ScalarRef::Int(count(a)?)),
        Agg::Sum(i) => Ok(ScalarRef::Int(narrowed(total(schema, i, skip, a)?)?)),
        Agg::Min(i) => Ok(or_zero(least_field(schema, i, skip, a))),
        Agg::Max(i) => Ok(or_zero(greatest_field(schema, i, skip, a))),
    }
}

/// The scalar, and the int 0 where there is none.
fn or_zero<'a>(value: Option<ScalarRef<'a>>) -> ScalarRef<'a>
    ensures { told result ≡ found_or_zero (option_map told value.entry) }
{
    value.unwrap_or(ScalarRef::Int(0))
}

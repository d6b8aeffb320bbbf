//! What is computed of the rows of a relation.
ghost use Rattle.std.specs.Prelude.{◌≡◌, ◌<◌, ◌&&◌, true, false, cond, length, All};
ghost use Rattle.std.specs.List.{list_all};
ghost use Rattle.hera_meaning.specs.Rows.{is_row, IsRow};
ghost use Rattle.hera_meaning.specs.Values.{table};
ghost use Rattle.hera_meaning.specs.Fits.{is_good_agg};
ghost use Rattle.hera_meaning.specs.Aggregates.{is_few, sum_of, column, least_scalar, greatest_scalar, group_of, are_sums_in_range};
ghost use Rattle.hera_meaning.specs.Primitives.{gives, refuses, in_range, end_of_fields};
ghost use Rattle.hera_meaning.specs.declared.trees.TrapName.TheVariants.{Overflow};
ghost use Rattle.hera_prims.specs.Answered.{IsAnswer};

use crate::PrimEnd;
use delta_atoms::Value;
use hera_aggregate::AggEnd;
use hera_fits::int;
use hera_meaning::{Aggs, Places, Schema, TrapName};
use hera_rows::Sorted;
use std::alloc::Global;

/// The exact sum of the fields at a place.
#[tactic(auto, using(crate::proofs::Computed::sums))]
pub(crate) fn sum<A: Sorted>(schema: &Schema, i: usize, a: &A) -> Result<Value, PrimEnd>
    requires rows { list_all (is_row schema.now) (A.rows a.now) ≡ true }
    requires place { i < length schema.now }
    ensures { IsAnswer result (cond (is_few (A.rows a.now)) (in_range (sum_of schema.now i (A.rows a.now))) (refuses Overflow)) }
{
    match hera_aggregate::sum(schema, i, a) {
        Ok(v) => Ok(int(v)),
        Err(AggEnd::Overflow) => Err(PrimEnd::Trap(TrapName::Overflow)),
        Err(AggEnd::EmptyMin) => unreachable!(),
        Err(AggEnd::Memory) => unreachable!(),
    }
}

/// The least field at a place.
#[tactic(auto, using(crate::proofs::Computed::ends))]
pub(crate) fn least<A: Sorted>(
    alloc: Global,
    schema: &Schema,
    i: usize,
    a: &A,
) -> Result<Value, PrimEnd>
    requires rows { list_all (is_row schema.now) (A.rows a.now) ≡ true }
    requires place { i < length schema.now }
    ensures { IsAnswer result (end_of_fields least_scalar (column schema.now i (A.rows a.now))) }
{
    match hera_aggregate::least(alloc, schema, i, a) {
        Ok(scalar) => Ok(Value::Scalar(scalar)),
        Err(AggEnd::EmptyMin) => Err(PrimEnd::Trap(TrapName::EmptyMin)),
        Err(AggEnd::Memory) => Err(PrimEnd::Memory),
        Err(AggEnd::Overflow) => unreachable!(),
    }
}

/// The greatest field at a place.
#[tactic(auto, using(crate::proofs::Computed::ends))]
pub(crate) fn greatest<A: Sorted>(
    alloc: Global,
    schema: &Schema,
    i: usize,
    a: &A,
) -> Result<Value, PrimEnd>
    requires rows { list_all (is_row schema.now) (A.rows a.now) ≡ true }
    requires place { i < length schema.now }
    ensures { IsAnswer result (end_of_fields greatest_scalar (column schema.now i (A.rows a.now))) }
{
    match hera_aggregate::greatest(alloc, schema, i, a) {
        Ok(scalar) => Ok(Value::Scalar(scalar)),
        Err(AggEnd::EmptyMin) => Err(PrimEnd::Trap(TrapName::EmptyMin)),
        Err(AggEnd::Memory) => Err(PrimEnd::Memory),
        Err(AggEnd::Overflow) => unreachable!(),
    }
}

/// One row a key: the key, and the aggregates of its rows.
#[tactic(auto, using(crate::proofs::Computed::groups))]
pub(crate) fn group<A: Sorted>(
    alloc: Global,
    schema: &Schema,
    by: &Places,
    aggs: &Aggs,
    a: &A,
) -> Result<Value, PrimEnd>
    requires rows { list_all (is_row schema.now) (A.rows a.now) ≡ true }
    requires aggs { list_all (is_good_agg schema.now) aggs.now ≡ true }
    ensures { IsAnswer result (cond (is_few (A.rows a.now) && are_sums_in_range schema.now by.now aggs.now (A.rows a.now)) (gives (table (group_of schema.now by.now aggs.now (A.rows a.now)))) (refuses Overflow)) }
{
    match hera_aggregate::group(alloc, schema, by.items(), aggs.items(), a) {
        Ok(set) => Ok(Value::Rel(set)),
        Err(AggEnd::Overflow) => Err(PrimEnd::Trap(TrapName::Overflow)),
        Err(AggEnd::Memory) => Err(PrimEnd::Memory),
        Err(AggEnd::EmptyMin) => unreachable!(),
    }
}

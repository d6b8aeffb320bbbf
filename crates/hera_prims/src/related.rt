//! Operations on relations that need not be held as values: any sorted sets.
ghost use Rattle.std.specs.Prelude.{◌≡◌, true, false, [], ◌∷◌, nat_eq, not, length, pos, MatchOption};
ghost use Rattle.hera_meaning.specs.Values.{bool_value, same_rows, table};
ghost use Rattle.hera_meaning.specs.Fits.{fits_of};
ghost use Rattle.hera_meaning.specs.Primitives.{gives, in_range, given, prim_of};
ghost use Rattle.delta_atoms.specs.Plain.{value_of};
ghost use Rattle.hera_prims.specs.Answered.{IsAnswer, IsSparing};
ghost use Rattle.hera_fits.specs.Tables.{is_relational, tables};

use crate::{PrimEnd, aggs, sets};
use delta_atoms::Value;
use hera_aggregate::AggEnd;
use hera_fits::{int, truth};
use hera_meaning::{Op, TrapName};
use hera_rows::Sorted;
use std::alloc::Global;

/// What the operation gives of relations that it fits: what `prim` gives of the same rows, with the
/// same traps. The rows are read where they stand; of one that takes a single operand the second is
/// not looked at. A count and a test for no tuples take no memory.
pub fn prim_rel<A: Sorted, B: Sorted>(
    alloc: Global,
    op: &Op,
    a: &A,
    b: &B,
) -> Result<Value, PrimEnd>
    requires relational { is_relational op.now ≡ true }
    requires fits { fits_of op.now (tables op.now (A.rows a.now) (B.rows b.now)) ≡ true }
    ensures given { IsAnswer result (prim_of op.now (tables op.now (A.rows a.now) (B.rows b.now))) }
    ensures spared { IsSparing op.now result }
{
    related(alloc, op, a, b)
}

/// One function an operation.
#[tactic(auto, using(crate::proofs::Computed::computed, crate::proofs::Sparing::sparing))]
fn related<A: Sorted, B: Sorted>(alloc: Global, op: &Op, a: &A, b: &B) -> Result<Value, PrimEnd>
    requires relational { is_relational op.now ≡ true }
    requires fits { fits_of op.now (tables op.now (A.rows a.now) (B.rows b.now)) ≡ true }
    ensures given { IsAnswer result (given op.now (tables op.now (A.rows a.now) (B.rows b.now))) }
    ensures spared { IsSparing op.now result }
{
    match op {
        Op::Eq => Ok(truth(same_rows(a, b))),
        Op::Ne => Ok(truth(!same_rows(a, b))),
        Op::Project(schema, places) => sets::project(alloc, schema, places, a),
        Op::Union => sets::union(alloc, a, b),
        Op::Minus => sets::minus(alloc, a, b),
        Op::Inter => sets::inter(alloc, a, b),
        Op::Join(left, right) => sets::join(alloc, left, right, a, b),
        Op::Group(schema, by, aggregates) => aggs::group(alloc, schema, by, aggregates, a),
        Op::Count => count(a),
        Op::Empty => empty(a),
        Op::Sum(schema, i) => aggs::sum(schema, *i, a),
        Op::Min(schema, i) => aggs::least(alloc, schema, *i, a),
        Op::Max(schema, i) => aggs::greatest(alloc, schema, *i, a),
        _ => unreachable!(),
    }
}

/// Whether both have the same rows.
fn same_rows<A: Sorted, B: Sorted>(a: &A, b: &B) -> bool
    ensures { result ≡ same_rows (A.rows a.now) (B.rows b.now) }
{
    rel_algebra::same_rows(a, b)
}

/// How many tuples there are.
#[tactic(auto, using(crate::proofs::Computed::counts))]
fn count<A: Sorted>(a: &A) -> Result<Value, PrimEnd>
    ensures given { IsAnswer result (in_range (pos (length (A.rows a.now)))) }
    ensures spared { IsSparing Op.Count result }
{
    match hera_aggregate::count(a) {
        Ok(n) => Ok(int(n)),
        Err(AggEnd::Overflow) => Err(PrimEnd::Trap(TrapName::Overflow)),
        Err(AggEnd::EmptyMin) => unreachable!(),
        Err(AggEnd::Memory) => unreachable!(),
    }
}

/// Whether there are no rows.
#[tactic(auto, using(crate::proofs::Computed::firsts))]
fn is_empty<A: Sorted>(a: &A) -> bool
    ensures { result ≡ nat_eq (length (A.rows a.now)) 0 }
{
    match a.above(None) {
        None => true,
        Some(_) => false,
    }
}

/// Whether there are no tuples.
fn empty<A: Sorted>(a: &A) -> Result<Value, PrimEnd>
    ensures given { IsAnswer result (gives (bool_value (nat_eq (length (A.rows a.now)) 0))) }
    ensures spared { IsSparing Op.Empty result }
{
    Ok(truth(is_empty(a)))
}

/// Whether the tuple is one of the relation's rows; none where the value is no tuple. It takes no
/// memory.
pub fn prim_in<B: Sorted>(tuple: &Value, b: &B) -> Option<bool>
    ensures { MatchOption result (fits_of Op.In (value_of tuple.now ∷ table (B.rows b.now) ∷ []) ≡ false) (λ found. (fits_of Op.In (value_of tuple.now ∷ table (B.rows b.now) ∷ []) ≡ true) × (prim_of Op.In (value_of tuple.now ∷ table (B.rows b.now) ∷ []) ≡ gives (bool_value found))) }
{
    match tuple {
        Value::Row(row) => Some(b.has(row.bytes())),
        Value::Scalar(_) => None,
        Value::Rel(_) => None,
        Value::Delta(_) => None,
    }
}

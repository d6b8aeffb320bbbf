//! Operations that give relations, and those that read or make deltas of many rows.
ghost use Rattle.std.specs.Prelude.{◌≡◌, []};
ghost use Rattle.hera_sets.specs.Sets.{union_of, minus_of, inter_of};
ghost use Rattle.hera_meaning.specs.Relations.{project_of, join_of};
ghost use Rattle.hera_meaning.specs.Values.{rows_in, delta_in, operand, table};
ghost use Rattle.hera_meaning.specs.Primitives.{gives, given, read_delta};
ghost use Rattle.delta_atoms.specs.Atoms.{signed};
ghost use Rattle.delta_atoms.specs.Plain.{value_of};
ghost use Rattle.hera_prims.specs.Answered.{IsAnswer};

use crate::PrimEnd;
use delta_atoms::{Delta, Value};
use hera_fits::{Args, row_at};
use hera_meaning::{Op, Places, RelId, Schema, Sign, TrapName};
use hera_rows::{RowSet, Sorted};
use std::alloc::Global;

/// The rows, those of `none` where the value is no relation.
fn rows_in<'a>(v: &'a Value, none: &'a RowSet) -> &'a RowSet
    requires { none.now ≡ [] }
    ensures { result.now ≡ rows_in (value_of v.entry.now) }
{
    match v {
        Value::Rel(rows) => rows,
        Value::Scalar(_) => none,
        Value::Row(_) => none,
        Value::Delta(_) => none,
    }
}

/// The rows of an operand.
#[tactic(auto, using(hera_fits::proofs::Operands::operands))]
pub(crate) fn rows_at<'a>(args: &'a Args, i: usize, none: &'a RowSet) -> &'a RowSet
    requires { none.now ≡ [] }
    ensures { result.now ≡ rows_in (operand args.entry.now i) }
{
    match args.get(i) {
        None => none,
        Some(v) => rows_in(v, none),
    }
}

/// The relation of the operands' rows.
pub(crate) fn make_rel(alloc: Global, n: u32, args: &Args) -> Result<Value, PrimEnd>
    ensures { IsAnswer result (given (Op.MakeRel n) args.now) }
{
    let _number = n;
    let mut rows = RowSet::new(alloc);
    for i in 0..args.len() {
        let _new = rows.insert(row_at(args, i))?;
    }
    Ok(Value::Rel(rows))
}

/// The rows of the fields at some places.
pub(crate) fn project<A: Sorted>(
    alloc: Global,
    schema: &Schema,
    places: &Places,
    a: &A,
) -> Result<Value, PrimEnd>
    ensures { IsAnswer result (gives (table (project_of schema.now places.now (A.rows a.now)))) }
{
    let rows = rel_algebra::project(alloc, schema, places.items(), a)?;
    Ok(Value::Rel(rows))
}

/// The rows of either relation.
pub(crate) fn union<A: Sorted, B: Sorted>(alloc: Global, a: &A, b: &B) -> Result<Value, PrimEnd>
    ensures { IsAnswer result (gives (table (union_of (A.rows a.now) (B.rows b.now)))) }
{
    let rows = rel_algebra::union(alloc, a, b)?;
    Ok(Value::Rel(rows))
}

/// The rows of the first relation that the second lacks.
pub(crate) fn minus<A: Sorted, B: Sorted>(alloc: Global, a: &A, b: &B) -> Result<Value, PrimEnd>
    ensures { IsAnswer result (gives (table (minus_of (A.rows a.now) (B.rows b.now)))) }
{
    let rows = rel_algebra::minus(alloc, a, b)?;
    Ok(Value::Rel(rows))
}

/// The rows of both relations.
pub(crate) fn inter<A: Sorted, B: Sorted>(alloc: Global, a: &A, b: &B) -> Result<Value, PrimEnd>
    ensures { IsAnswer result (gives (table (inter_of (A.rows a.now) (B.rows b.now)))) }
{
    let rows = rel_algebra::inter(alloc, a, b)?;
    Ok(Value::Rel(rows))
}

/// The natural join of two relations.
pub(crate) fn join<A: Sorted, B: Sorted>(
    alloc: Global,
    left: &Schema,
    right: &Schema,
    a: &A,
    b: &B,
) -> Result<Value, PrimEnd>
    ensures { IsAnswer result (gives (table (join_of left.now right.now (A.rows a.now) (B.rows b.now)))) }
{
    let rows = join_exec::join(alloc, left, right, a, b)?;
    Ok(Value::Rel(rows))
}

/// The delta that has each row of a relation with the sign.
pub(crate) fn bulk(alloc: Global, sign: Sign, rel: RelId, args: &Args) -> Result<Value, PrimEnd>
    ensures { IsAnswer result (given (Op.Bulk sign rel) args.now) }
{
    let none = RowSet::new(alloc);
    let delta = Delta::bulk(alloc, sign, rel, rows_at(args, 0, &none))?;
    Ok(Value::Delta(delta))
}

/// The rows of a relation that a delta has with the sign.
#[tactic(auto, using(crate::proofs::Tuples::reading))]
fn part_of(v: &Value, rel: RelId, sign: Sign) -> Result<Value, PrimEnd>
    ensures { IsAnswer result (read_delta (signed sign) rel.0 (delta_in (value_of v.now))) }
{
    match v {
        Value::Delta(delta) => {
            if delta.is_fail() {
                return Err(PrimEnd::Trap(TrapName::ReadFail));
            }
            Ok(Value::Rel(delta.part(rel, sign).copy()?))
        }
        Value::Scalar(_) => Err(PrimEnd::Trap(TrapName::ReadFail)),
        Value::Row(_) => Err(PrimEnd::Trap(TrapName::ReadFail)),
        Value::Rel(_) => Err(PrimEnd::Trap(TrapName::ReadFail)),
    }
}

/// The rows that a delta puts into a relation.
#[tactic(auto, using(hera_fits::proofs::Operands::operands))]
pub(crate) fn ins(rel: RelId, args: &Args) -> Result<Value, PrimEnd>
    ensures { IsAnswer result (given (Op.Ins rel) args.now) }
{
    match args.get(0) {
        None => Err(PrimEnd::Trap(TrapName::ReadFail)),
        Some(v) => part_of(v, rel, Sign::Plus),
    }
}

/// The rows that a delta takes out of a relation.
#[tactic(auto, using(hera_fits::proofs::Operands::operands))]
pub(crate) fn del(rel: RelId, args: &Args) -> Result<Value, PrimEnd>
    ensures { IsAnswer result (given (Op.Del rel) args.now) }
{
    match args.get(0) {
        None => Err(PrimEnd::Trap(TrapName::ReadFail)),
        Some(v) => part_of(v, rel, Sign::Minus),
    }
}

//! What an operation gives.
ghost use Rattle.std.specs.Prelude.{◌≡◌, true, false};
ghost use Rattle.hera_meaning.specs.Fits.{fits_of};
ghost use Rattle.hera_meaning.specs.Primitives.{given, prim_of};
ghost use Rattle.hera_prims.specs.Answered.{IsAnswer, IsSparing};
ghost use Rattle.hera_fits.specs.Tables.{asks_relations, uses_up};

use crate::related::prim_rel;
use crate::sets::rows_at;
use crate::{PrimEnd, compare, deltas, ints, rows, sets};
use delta_atoms::Value;
use hera_fits::Args;
use hera_meaning::Op;
use hera_rows::RowSet;
use std::alloc::Global;

/// What the operation gives of operands that fit: its value, its trap, or `Memory` for want of memory.
///
/// Arithmetic traps Overflow where the exact result is out of range, and division by 0 traps DivZero.
/// A count, a sum and a group trap Overflow where there are more than 2^63-1 tuples or an exact sum is
/// out of range; the least and the greatest of no tuples trap EmptyMin; and to read `fail` traps
/// ReadFail. A count, a test for no tuples and `in` take no memory.
#[tactic(auto, using(crate::proofs::Fitted::fitting, crate::proofs::Sparing::sparing))]
pub fn prim(alloc: Global, op: &Op, args: Args) -> Result<Value, PrimEnd>
    requires { fits_of op.now args ≡ true }
    ensures given { IsAnswer result (prim_of op.now args) }
    ensures spared { IsSparing op.now result }
{
    match op {
        Op::MakeRow(schema) => rows::make_row(alloc, schema, args),
        Op::Smash => deltas::smash(alloc, args),
        Op::Merge => deltas::merge(alloc, args),
        _ => answer(alloc, op, &args),
    }
}

/// One function an operation.
#[tactic(auto, using(crate::proofs::Fitted::fitting, crate::proofs::Sparing::sparing))]
fn answer(alloc: Global, op: &Op, args: &Args) -> Result<Value, PrimEnd>
    requires fits { fits_of op.now args.now ≡ true }
    requires lent { uses_up op.now ≡ false }
    ensures given { IsAnswer result (given op.now args.now) }
    ensures spared { IsSparing op.now result }
{
    match op {
        Op::Neg => ints::neg(args),
        Op::Add => ints::add(args),
        Op::Sub => ints::sub(args),
        Op::Mul => ints::mul(args),
        Op::Div => ints::div(args),
        Op::Rem => ints::rem(args),
        Op::Not => compare::not(args),
        Op::Eq => compare::eq(args),
        Op::Ne => compare::ne(args),
        Op::Lt => compare::lt(args),
        Op::Le => compare::le(args),
        Op::Gt => compare::gt(args),
        Op::Ge => compare::ge(args),
        Op::In => compare::is_in(args),
        Op::Field(schema, i) => rows::field_of(alloc, schema, *i, args),
        Op::MakeRow(_) => unreachable!(),
        Op::MakeRel(n) => sets::make_rel(alloc, *n, args),
        Op::Count => rows::held_count(args),
        Op::Empty => rows::held_empty(args),
        Op::Atom(sign, rel) => deltas::atom(alloc, *sign, *rel, args),
        Op::Bulk(sign, rel) => sets::bulk(alloc, *sign, *rel, args),
        Op::Ins(rel) => sets::ins(*rel, args),
        Op::Del(rel) => sets::del(*rel, args),
        Op::IsFail => deltas::is_fail(args),
        Op::Smash | Op::Merge => unreachable!(),
        Op::Project(_, _) => of_held(alloc, op, args),
        Op::Union | Op::Minus | Op::Inter => of_held(alloc, op, args),
        Op::Join(_, _) => of_held(alloc, op, args),
        Op::Group(_, _, _) => of_held(alloc, op, args),
        Op::Sum(_, _) => of_held(alloc, op, args),
        Op::Min(_, _) => of_held(alloc, op, args),
        Op::Max(_, _) => of_held(alloc, op, args),
    }
}

/// What the operation gives of relations that are held.
fn of_held(alloc: Global, op: &Op, args: &Args) -> Result<Value, PrimEnd>
    requires asks { asks_relations op.now ≡ true }
    requires fits { fits_of op.now args.now ≡ true }
    ensures { IsAnswer result (given op.now args.now) }
{
    let none = RowSet::new(alloc);
    prim_rel(alloc, op, rows_at(args, 0, &none), rows_at(args, 1, &none))
}

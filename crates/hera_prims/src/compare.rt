//! Truth and comparisons.
ghost use Rattle.std.specs.Prelude.{◌≡◌, not, pos};
ghost use Rattle.hera_meaning.specs.Scalars.{same_scalar, scalar_less};
ghost use Rattle.hera_meaning.specs.Values.{operand, int_value, same_value, same_rows, same_delta};
ghost use Rattle.hera_meaning.specs.Primitives.{given, is_less, is_greater};
ghost use Rattle.hera_row.specs.Fields.{told};
ghost use Rattle.delta_atoms.specs.Plain.{value_of};
ghost use Rattle.hera_prims.specs.Answered.{IsAnswer, IsSparing};

use crate::PrimEnd;
use delta_atoms::{Delta, Value};
use hera_fits::{Args, has_row_at, row_at, scalar_at, truth, truth_at};
use hera_meaning::{Op, Scalar, ScalarRef};
use hera_row::is_before;
use hera_rows::RowSet;
use hera_sets::{is_below, is_same};

/// Whether both are the same scalar.
fn same_scalar(a: &Scalar, b: &Scalar) -> bool
    ensures { result ≡ same_scalar a.now b.now }
{
    match (a, b) {
        (Scalar::Int(v), Scalar::Int(w)) => *v == *w,
        (Scalar::Bool(v), Scalar::Bool(w)) => *v == *w,
        (Scalar::Text(v), Scalar::Text(w)) => is_same(v.bytes(), w.bytes()),
        _ => false,
    }
}

/// Whether both have the same rows.
fn same_rows(a: &RowSet, b: &RowSet) -> bool
    ensures { result ≡ same_rows a.now b.now }
{
    a.equal(b)
}

/// Whether both are `fail`, or have the same atoms.
fn same_delta(a: &Delta, b: &Delta) -> bool
    ensures { result ≡ same_delta a.now b.now }
{
    a.equal(b)
}

/// Whether both are the same value.
fn same_value(a: &Value, b: &Value) -> bool
    ensures { result ≡ same_value (value_of a.now) (value_of b.now) }
{
    match (a, b) {
        (Value::Scalar(v), Value::Scalar(w)) => same_scalar(v, w),
        (Value::Row(v), Value::Row(w)) => is_same(v.bytes(), w.bytes()),
        (Value::Rel(v), Value::Rel(w)) => same_rows(v, w),
        (Value::Delta(v), Value::Delta(w)) => same_delta(v, w),
        _ => false,
    }
}

/// Whether the value is the int 0, which stands past the last operand.
fn is_zero(v: &Value) -> bool
    ensures { result ≡ same_value (value_of v.now) (int_value (pos 0)) }
{
    match v {
        Value::Scalar(Scalar::Int(v)) => *v == 0,
        Value::Scalar(Scalar::Bool(_)) => false,
        Value::Scalar(Scalar::Text(_)) => false,
        Value::Row(_) => false,
        Value::Rel(_) => false,
        Value::Delta(_) => false,
    }
}

/// Whether both operands are the same.
#[tactic(auto, using(hera_fits::proofs::Operands::equals))]
fn are_same(args: &Args) -> bool
    ensures { result ≡ same_value (operand args.now 0) (operand args.now 1) }
{
    match args.get(0) {
        None => true,
        Some(a) => match args.get(1) {
            None => is_zero(a),
            Some(b) => same_value(a, b),
        },
    }
}

/// Whether the first of two operands stands before the second.
fn is_less(args: &Args) -> bool
    ensures { result ≡ is_less args.now }
{
    is_before(scalar_at(args, 0), scalar_at(args, 1))
}

/// Whether the second of two operands stands before the first.
fn is_greater(args: &Args) -> bool
    ensures { result ≡ is_greater args.now }
{
    is_before(scalar_at(args, 1), scalar_at(args, 0))
}

/// The other truth.
pub(crate) fn not(args: &Args) -> Result<Value, PrimEnd>
    ensures { IsAnswer result (given Op.Not args.now) }
{
    Ok(truth(!truth_at(args, 0)))
}

/// Whether two values are the same.
pub(crate) fn eq(args: &Args) -> Result<Value, PrimEnd>
    ensures { IsAnswer result (given Op.Eq args.now) }
{
    Ok(truth(are_same(args)))
}

/// Whether two values differ.
pub(crate) fn ne(args: &Args) -> Result<Value, PrimEnd>
    ensures { IsAnswer result (given Op.Ne args.now) }
{
    Ok(truth(!are_same(args)))
}

/// Whether the first stands before the second.
pub(crate) fn lt(args: &Args) -> Result<Value, PrimEnd>
    ensures { IsAnswer result (given Op.Lt args.now) }
{
    Ok(truth(is_less(args)))
}

/// Whether the first does not stand behind the second.
pub(crate) fn le(args: &Args) -> Result<Value, PrimEnd>
    ensures { IsAnswer result (given Op.Le args.now) }
{
    Ok(truth(!is_greater(args)))
}

/// Whether the first stands behind the second.
pub(crate) fn gt(args: &Args) -> Result<Value, PrimEnd>
    ensures { IsAnswer result (given Op.Gt args.now) }
{
    Ok(truth(is_greater(args)))
}

/// Whether the first does not stand before the second.
pub(crate) fn ge(args: &Args) -> Result<Value, PrimEnd>
    ensures { IsAnswer result (given Op.Ge args.now) }
{
    Ok(truth(!is_less(args)))
}

/// Whether a tuple is one of a relation.
pub(crate) fn is_in(args: &Args) -> Result<Value, PrimEnd>
    ensures given { IsAnswer result (given Op.In args.now) }
    ensures spared { IsSparing Op.In result }
{
    Ok(truth(has_row_at(args, 1, row_at(args, 0))))
}

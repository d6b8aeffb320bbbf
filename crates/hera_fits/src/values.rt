//! The parts of values, and the operands by their places. Of a value of another kind each part has the
//! definition's default.
ghost use Rattle.std.specs.Prelude.{◌≡◌, length, pos};
ghost use Rattle.hera_sets.specs.Rows.{holds};
ghost use Rattle.hera_meaning.specs.Deltas.{is_fail};
ghost use Rattle.hera_meaning.specs.Values.{int_value, bool_value, scalar_in, row_in, rows_in, delta_in, int_in, is_true, operand};
ghost use Rattle.hera_row.specs.Fields.{told};
ghost use Rattle.delta_atoms.specs.Plain.{value_of};

use crate::Args;
use delta_atoms::Value;
use hera_meaning::{Scalar, ScalarRef};
use hera_rows::Sorted;

/// The value of an int.
pub fn int(v: i64) -> Value
    ensures { value_of result ≡ int_value v }
{
    Value::Scalar(Scalar::Int(v))
}

/// The value of a bool.
pub fn truth(b: bool) -> Value
    ensures { value_of result ≡ bool_value b }
{
    Value::Scalar(Scalar::Bool(b))
}

/// The scalar, the int 0 where the value is none.
fn scalar_in(v: &Value) -> ScalarRef<'_>
    ensures { told result ≡ scalar_in (value_of v.entry.now) }
{
    match v {
        Value::Scalar(Scalar::Int(v)) => ScalarRef::Int(*v),
        Value::Scalar(Scalar::Bool(b)) => ScalarRef::Bool(*b),
        Value::Scalar(Scalar::Text(text)) => ScalarRef::Text(text.bytes()),
        Value::Row(_) => ScalarRef::Int(0),
        Value::Rel(_) => ScalarRef::Int(0),
        Value::Delta(_) => ScalarRef::Int(0),
    }
}

/// The int, 0 where the value is none.
fn int_in(v: &Value) -> i64
    ensures { result ≡ int_in (value_of v.now) }
{
    match v {
        Value::Scalar(Scalar::Int(v)) => *v,
        Value::Scalar(Scalar::Bool(_)) => 0,
        Value::Scalar(Scalar::Text(_)) => 0,
        Value::Row(_) => 0,
        Value::Rel(_) => 0,
        Value::Delta(_) => 0,
    }
}

/// Whether the value is the bool true.
fn is_true(v: &Value) -> bool
    ensures { result ≡ is_true (value_of v.now) }
{
    match v {
        Value::Scalar(Scalar::Bool(b)) => *b,
        Value::Scalar(Scalar::Int(_)) => false,
        Value::Scalar(Scalar::Text(_)) => false,
        Value::Row(_) => false,
        Value::Rel(_) => false,
        Value::Delta(_) => false,
    }
}

/// The row, none where the value is no tuple.
fn row_in(v: &Value) -> &[u8]
    ensures { result.now ≡ row_in (value_of v.entry.now) }
{
    match v {
        Value::Row(row) => row.bytes(),
        Value::Scalar(_) => &[],
        Value::Rel(_) => &[],
        Value::Delta(_) => &[],
    }
}

/// Whether the value is a relation that has the row.
fn has_row(v: &Value, row: &[u8]) -> bool
    ensures { result ≡ holds (rows_in (value_of v.now)) row.now }
{
    match v {
        Value::Rel(rows) => rows.has(row),
        Value::Scalar(_) => false,
        Value::Row(_) => false,
        Value::Delta(_) => false,
    }
}

/// How many rows the relation has, 0 where the value is none.
fn rows_len(v: &Value) -> usize
    ensures { result ≡ length (rows_in (value_of v.now)) }
{
    match v {
        Value::Rel(rows) => rows.len(),
        Value::Scalar(_) => 0,
        Value::Row(_) => 0,
        Value::Delta(_) => 0,
    }
}

/// Whether the value is `fail`, or no delta.
fn is_fail(v: &Value) -> bool
    ensures { result ≡ is_fail (delta_in (value_of v.now)) }
{
    match v {
        Value::Delta(delta) => delta.is_fail(),
        Value::Scalar(_) => true,
        Value::Row(_) => true,
        Value::Rel(_) => true,
    }
}

/// The scalar of an operand.
#[tactic(auto, using(crate::proofs::Operands::operands))]
pub fn scalar_at(args: &Args, i: usize) -> ScalarRef<'_>
    ensures { told result ≡ scalar_in (operand args.entry.now i) }
{
    match args.get(i) {
        None => ScalarRef::Int(0),
        Some(v) => scalar_in(v),
    }
}

/// The int of an operand.
#[tactic(auto, using(crate::proofs::Operands::operands))]
pub fn int_at(args: &Args, i: usize) -> i64
    ensures { result ≡ int_in (operand args.now i) }
{
    match args.get(i) {
        None => 0,
        Some(v) => int_in(v),
    }
}

/// The bool of an operand.
#[tactic(auto, using(crate::proofs::Operands::operands))]
pub fn truth_at(args: &Args, i: usize) -> bool
    ensures { result ≡ is_true (operand args.now i) }
{
    match args.get(i) {
        None => false,
        Some(v) => is_true(v),
    }
}

/// The row of an operand.
#[tactic(auto, using(crate::proofs::Operands::operands))]
pub fn row_at(args: &Args, i: usize) -> &[u8]
    ensures { result.now ≡ row_in (operand args.entry.now i) }
{
    match args.get(i) {
        None => &[],
        Some(v) => row_in(v),
    }
}

/// Whether the relation of an operand has the row.
#[tactic(auto, using(crate::proofs::Operands::operands))]
pub fn has_row_at(args: &Args, i: usize, row: &[u8]) -> bool
    ensures { result ≡ holds (rows_in (operand args.now i)) row.now }
{
    match args.get(i) {
        None => false,
        Some(v) => has_row(v, row),
    }
}

/// How many rows the relation of an operand has.
#[tactic(auto, using(crate::proofs::Operands::operands))]
pub fn rows_len_at(args: &Args, i: usize) -> usize
    ensures { result ≡ length (rows_in (operand args.now i)) }
{
    match args.get(i) {
        None => 0,
        Some(v) => rows_len(v),
    }
}

/// Whether the delta of an operand is `fail`.
#[tactic(auto, using(crate::proofs::Operands::operands))]
pub fn is_fail_at(args: &Args, i: usize) -> bool
    ensures { result ≡ is_fail (delta_in (operand args.now i)) }
{
    match args.get(i) {
        None => true,
        Some(v) => is_fail(v),
    }
}

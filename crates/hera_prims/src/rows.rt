//! Tuples, and what is counted of relations.
ghost use Rattle.std.specs.Prelude.{◌≡◌, ◌<◌, ◌++◌, true, map, length, IfOk, OnOk};
ghost use Rattle.hera_meaning.specs.Texts.{IsText};
ghost use Rattle.hera_meaning.specs.Scalars.{is_scalar};
ghost use Rattle.hera_meaning.specs.Rows.{is_row};
ghost use Rattle.hera_meaning.specs.Values.{scalar_in, row_in, operand};
ghost use Rattle.hera_meaning.specs.Fits.{fits_of};
ghost use Rattle.hera_meaning.specs.Primitives.{given};
ghost use Rattle.hera_row.specs.Fields.{told, have_kinds};
ghost use Rattle.delta_atoms.specs.Plain.{value_of};
ghost use Rattle.hera_prims.specs.Answered.{IsAnswer, IsSparing};

use crate::PrimEnd;
use delta_atoms::Value;
use hera_fits::{Args, int, row_at, rows_len_at, truth};
use hera_meaning::{Op, Scalar, ScalarRef, Schema, Text, TextFault, TrapName};
use hera_row::{encode, field};
use hera_rows::ROWS_LIMIT;
use std::alloc::{AllocError, Global};

/// A text of its own with these bytes.
fn text_of(alloc: Global, bytes: &[u8]) -> Result<Text, AllocError>
    requires { IsText bytes.now }
    ensures { IfOk result (λ text. text ≡ bytes.now) }
{
    match Text::new(alloc, bytes) {
        Ok(text) => Ok(text),
        Err(TextFault::Memory) => Err(AllocError),
        Err(TextFault::BadUtf8) => unreachable!(),
        Err(TextFault::HasZero) => unreachable!(),
        Err(TextFault::TooLong) => unreachable!(),
    }
}

/// A scalar of its own.
fn owned(alloc: Global, scalar: ScalarRef<'_>) -> Result<Scalar, AllocError>
    requires { is_scalar (told scalar) ≡ true }
    ensures { IfOk result (λ own. own ≡ told scalar.entry) }
{
    match scalar {
        ScalarRef::Int(v) => Ok(Scalar::Int(v)),
        ScalarRef::Bool(b) => Ok(Scalar::Bool(b)),
        ScalarRef::Text(bytes) => Ok(Scalar::Text(text_of(alloc, bytes)?)),
    }
}

/// A field of a tuple.
pub(crate) fn field_of(
    alloc: Global,
    schema: &Schema,
    i: usize,
    args: &Args,
) -> Result<Value, PrimEnd>
    requires place { i < length schema.now }
    requires row { is_row schema.now (row_in (operand args.now 0)) ≡ true }
    ensures { IsAnswer result (given (Op.Field schema.now i) args.now) }
{
    let scalar = field(schema, row_at(args, 0), i);
    Ok(Value::Scalar(owned(alloc, scalar)?))
}

/// The scalar, the int 0 where the value is none.
fn into_scalar(v: Value) -> Scalar
    ensures { result ≡ scalar_in (value_of v) }
{
    match v {
        Value::Scalar(scalar) => scalar,
        Value::Row(_) => Scalar::Int(0),
        Value::Rel(_) => Scalar::Int(0),
        Value::Delta(_) => Scalar::Int(0),
    }
}

/// The scalars of the operands.
fn scalars(alloc: Global, mut args: Args) -> Result<Vec<Scalar>, AllocError>
    ensures { IfOk result (λ fields. fields.items ≡ map scalar_in args) }
{
    let mut fields = Vec::with_capacity(alloc, args.len())?;
    while let Some(v) = args.pop_front() {
        fields.push(into_scalar(v))?;
    }
    Ok(fields)
}

/// The row of the operands.
pub(crate) fn make_row(alloc: Global, schema: &Schema, args: Args) -> Result<Value, PrimEnd>
    requires { have_kinds schema.now (map scalar_in args) ≡ true }
    ensures { IsAnswer result (given (Op.MakeRow schema.now) args) }
{
    let fields = scalars(alloc, args)?;
    Ok(Value::Row(encode(alloc, schema, &fields)?))
}

/// How many tuples there are in a relation that is held: it knows their number.
#[tactic(auto, using(crate::proofs::Ranges::ranges))]
pub(crate) fn held_count(args: &Args) -> Result<Value, PrimEnd>
    ensures given { IsAnswer result (given Op.Count args.now) }
    ensures spared { IsSparing Op.Count result }
{
    let n = rows_len_at(args, 0);
    if n as u64 <= ROWS_LIMIT {
        Ok(int(n as i64))
    } else {
        Err(PrimEnd::Trap(TrapName::Overflow))
    }
}

/// Whether there are no tuples in a relation that is held.
pub(crate) fn held_empty(args: &Args) -> Result<Value, PrimEnd>
    ensures given { IsAnswer result (given Op.Empty args.now) }
    ensures spared { IsSparing Op.Empty result }
{
    Ok(truth(rows_len_at(args, 0) == 0))
}

//! What an operand has to be.
ghost use Rattle.std.specs.Prelude.{◌≡◌, [], ◌∷◌, map, replicate};
ghost use Rattle.hera_meaning.specs.Scalars.{kind_of, is_kind};
ghost use Rattle.hera_meaning.specs.Fits.{a_scalar, a_tuple, meets, all_meet, like, in_kind_order};
ghost use Rattle.hera_meaning.specs.Values.{operand};
ghost use Rattle.delta_atoms.specs.Plain.{value_of};
ghost use Rattle.hera_fits.specs.Wanted.{want_of};

use crate::Args;
use crate::shapes::{are_rows, is_row};
use delta_atoms::Value;
use hera_meaning::{Kind, Scalar, Schema};
use hera_row::is_kind;

/// What an operand has to be.
#[derive(Clone, Copy)]
pub(crate) enum Want<'a> {
    Scalar(Kind),
    Row,
    RowOf(&'a Schema),
    Rel,
    RelOf(&'a Schema),
    Delta,
}

/// The kind of a scalar.
pub(crate) fn kind_of(scalar: &Scalar) -> Kind
    ensures { result ≡ kind_of scalar.now }
{
    match scalar {
        Scalar::Int(_) => Kind::Int,
        Scalar::Bool(_) => Kind::Bool,
        Scalar::Text(_) => Kind::Text,
    }
}

/// Whether the value is as wanted.
fn meets(want: Want<'_>, v: &Value) -> bool
    ensures { result ≡ meets (want_of want.entry) (value_of v.now) }
{
    match (want, v) {
        (Want::Scalar(kind), Value::Scalar(scalar)) => is_kind(kind, scalar),
        (Want::Row, Value::Row(_)) => true,
        (Want::RowOf(schema), Value::Row(row)) => is_row(schema, row.bytes()),
        (Want::Rel, Value::Rel(_)) => true,
        (Want::RelOf(schema), Value::Rel(rows)) => are_rows(schema, rows),
        (Want::Delta, Value::Delta(_)) => true,
        _ => false,
    }
}

/// Whether there is one operand, which is as wanted.
#[tactic(auto, using(crate::proofs::Meetings::one))]
pub(crate) fn is_one(args: &Args, want: Want<'_>) -> bool
    ensures { result ≡ all_meet (want_of want.entry ∷ []) args.now }
{
    match (args.get(0), args.get(1)) {
        (Some(v), None) => meets(want, v),
        (None, _) => false,
        (_, Some(_)) => false,
    }
}

/// Whether there are two operands, each as wanted.
#[tactic(auto, using(crate::proofs::Meetings::two))]
pub(crate) fn are_two(args: &Args, first: Want<'_>, second: Want<'_>) -> bool
    ensures { result ≡ all_meet (want_of first.entry ∷ want_of second.entry ∷ []) args.now }
{
    match (args.get(0), args.get(1), args.get(2)) {
        (Some(v), Some(w), None) => meets(first, v) && meets(second, w),
        (None, _, _) => false,
        (_, None, _) => false,
        (_, _, Some(_)) => false,
    }
}

/// Whether there is one scalar for each attribute, of its kind.
pub(crate) fn are_fields(args: &Args, schema: &Schema) -> bool
    ensures { result ≡ all_meet (map (λ a. a_scalar a.kind) schema.now) args.now }
{
    if args.len() != schema.len() {
        return false;
    }
    for i in 0..args.len() {
        if !is_met(args, i, Want::Scalar(schema.attr(i).kind)) {
            return false;
        }
    }
    true
}

/// Whether there are `n` tuples.
pub(crate) fn are_tuples(args: &Args, n: usize) -> bool
    ensures { result ≡ all_meet (replicate n a_tuple) args.now }
{
    if args.len() != n {
        return false;
    }
    for i in 0..n {
        if !is_met(args, i, Want::Row) {
            return false;
        }
    }
    true
}

/// Whether an operand is as wanted.
#[tactic(auto, using(crate::proofs::Operands::operands))]
fn is_met(args: &Args, i: usize, want: Want<'_>) -> bool
    ensures { result ≡ meets (want_of want.entry) (operand args.now i) }
{
    match args.get(i) {
        None => is_zero_met(want),
        Some(v) => meets(want, v),
    }
}

/// Whether the int 0, which stands past the last operand, is as wanted.
fn is_zero_met(want: Want<'_>) -> bool
    ensures { result ≡ meets (want_of want.entry) (operand [] 0) }
{
    match want {
        Want::Scalar(kind) => kind == Kind::Int,
        Want::Row => false,
        Want::RowOf(_) => false,
        Want::Rel => false,
        Want::RelOf(_) => false,
        Want::Delta => false,
    }
}

/// What stands beside the first operand in `==`.
#[tactic(auto, using(crate::proofs::Operands::operands))]
pub(crate) fn like_first(args: &Args) -> Want<'_>
    ensures { want_of result ≡ like (operand args.entry.now 0) }
{
    match args.get(0) {
        None => Want::Scalar(Kind::Int),
        Some(Value::Scalar(scalar)) => Want::Scalar(kind_of(scalar)),
        Some(Value::Row(_)) => Want::Row,
        Some(Value::Rel(_)) => Want::Rel,
        Some(Value::Delta(_)) => Want::Delta,
    }
}

/// What stands beside the first operand in an order: a text beside a text, else an int.
#[tactic(auto, using(crate::proofs::Operands::operands))]
pub(crate) fn in_order_with_first(args: &Args) -> Want<'_>
    ensures { want_of result ≡ in_kind_order (operand args.entry.now 0) }
{
    match args.get(0) {
        Some(Value::Scalar(Scalar::Text(_))) => Want::Scalar(Kind::Text),
        None => Want::Scalar(Kind::Int),
        Some(Value::Scalar(Scalar::Int(_))) => Want::Scalar(Kind::Int),
        Some(Value::Scalar(Scalar::Bool(_))) => Want::Scalar(Kind::Int),
        Some(Value::Row(_)) => Want::Scalar(Kind::Int),
        Some(Value::Rel(_)) => Want::Scalar(Kind::Int),
        Some(Value::Delta(_)) => Want::Scalar(Kind::Int),
    }
}

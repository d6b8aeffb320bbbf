//! Values, and the ends of runs.
ghost use Rattle.std.specs.Prelude.{◌≡◌, ◌++◌, true, IfOk, OnOk, codes};
ghost use Rattle.hera_meaning.specs.Fits.{has_shape};
ghost use Rattle.hera_meaning.specs.Printed.{scalar_text, text_of, end_text};
ghost use Rattle.delta_atoms.specs.Plain.{value_of};

use super::deltas::put_delta;
use super::tuples::{put_row, put_table};
use delta_atoms::Value;
use hera_meaning::writing::{put, put_bool, put_int, put_number};
use hera_meaning::{Line, RelDecl, Scalar, Shape};
use std::alloc::{AllocError, Global};

/// The text of a value of this shape, whose atoms are of the catalogue. Each of its lines ends in a
/// line feed.
pub fn value_line(
    alloc: Global,
    shape: &Shape,
    v: &Value,
    catalogue: &[RelDecl],
) -> Result<Line, AllocError>
    requires { has_shape catalogue.now shape.now (value_of v.now) ≡ true }
    ensures { IfOk result (λ line. line ≡ text_of shape.now (value_of v.now) catalogue.now) }
{
    let mut out = Vec::new(alloc);
    put_value(&mut out, shape, v, catalogue)?;
    Ok(Line::new(out))
}

/// The line of an end: a name, ` at ` and a number.
#[tactic(auto, unfolding(hera_meaning::specs::Printed::end_text))]
pub fn end_line(alloc: Global, name: &str, at: u64) -> Result<Line, AllocError>
    ensures { IfOk result (λ line. line ≡ end_text name.now at) }
{
    let mut out = Vec::new(alloc);
    put(&mut out, name.as_bytes())?;
    put(&mut out, b" at ")?;
    put_number(&mut out, u128::from(at))?;
    put(&mut out, b"\n")?;
    Ok(Line::new(out))
}

#[tactic(auto, unfolding(hera_meaning::specs::Printed::text_of))]
fn put_value(
    out: &mut Vec<u8>,
    shape: &Shape,
    v: &Value,
    catalogue: &[RelDecl],
) -> Result<(), AllocError>
    requires { has_shape catalogue.now shape.now (value_of v.now) ≡ true }
    ensures { OnOk result (out.new.items ≡ out.old.items ++ text_of shape.now (value_of v.now) catalogue.now) }
{
    match (shape, v) {
        (Shape::Int | Shape::Bool | Shape::Text, Value::Scalar(scalar)) => put_scalar(out, scalar),
        (Shape::Tuple(schema), Value::Row(row)) => put_row(out, schema, row.bytes()),
        (Shape::Rel(schema), Value::Rel(rows)) => put_table(out, schema, rows),
        (Shape::Delta, Value::Delta(delta)) => put_delta(out, catalogue, delta),
        _ => unreachable!(),
    }
}

/// Puts a scalar by itself on a line: a text as its bytes.
fn put_scalar(out: &mut Vec<u8>, scalar: &Scalar) -> Result<(), AllocError>
    ensures { OnOk result (out.new.items ≡ out.old.items ++ (scalar_text scalar.now ++ codes "\n")) }
{
    match scalar {
        Scalar::Int(v) => put_int(out, *v)?,
        Scalar::Bool(b) => put_bool(out, *b)?,
        Scalar::Text(text) => put(out, text.bytes())?,
    }
    put(out, b"\n")
}

//! The least and the greatest of a field.
ghost use Rattle.std.specs.Prelude.{◌≡◌, ◌<◌, length, All, IfOk, IfErr, OnOk, Some};
ghost use Rattle.std.specs.Option.{option_map};
ghost use Rattle.hera_meaning.specs.Scalars.{scalar_less};
ghost use Rattle.hera_meaning.specs.Rows.{IsRow};
ghost use Rattle.hera_meaning.specs.Aggregates.{column, least_scalar, greatest_scalar};
ghost use Rattle.hera_row.specs.Fields.{told};
ghost use Rattle.rel_algebra.specs.Fronts.{rows_behind};
ghost use Rattle.hera_aggregate.specs.Extremes.{with_lesser, with_greater, found_least, found_greatest, IsExtremeEnd, HasRows};

use crate::behind::behind;
use crate::ends::AggEnd;
use hera_meaning::{Scalar, ScalarRef, Schema, Text};
use hera_row::{field, is_before};
use hera_rows::{RowMark, Sorted};
use hera_sets::is_below;
use std::alloc::Global;

/// The least field at place `i`: ints by value, false before true, texts by their bytes. EmptyMin
/// comes exactly for no rows.
pub fn least<A: Sorted>(alloc: Global, schema: &Schema, i: usize, a: &A) -> Result<Scalar, AggEnd>
    requires rows { All (IsRow schema.now) (A.rows a.now) }
    requires within { i < length schema.now }
    ensures least { IfOk result (λ s. s ≡ least_scalar (column schema.now i (A.rows a.now))) }
    ensures some { OnOk result (HasRows (A.rows a.now)) }
    ensures refused { IfErr result (IsExtremeEnd (A.rows a.now)) }
{
    match least_field(schema, i, 0, a) {
        None => Err(AggEnd::EmptyMin),
        Some(value) => owned(alloc, value),
    }
}

/// The greatest field at place `i`, by the order of `least`. EmptyMin comes exactly for no rows.
pub fn greatest<A: Sorted>(
    alloc: Global,
    schema: &Schema,
    i: usize,
    a: &A,
) -> Result<Scalar, AggEnd>
    requires rows { All (IsRow schema.now) (A.rows a.now) }
    requires within { i < length schema.now }
    ensures greatest { IfOk result (λ s. s ≡ greatest_scalar (column schema.now i (A.rows a.now))) }
    ensures some { OnOk result (HasRows (A.rows a.now)) }
    ensures refused { IfErr result (IsExtremeEnd (A.rows a.now)) }
{
    match greatest_field(schema, i, 0, a) {
        None => Err(AggEnd::EmptyMin),
        Some(value) => owned(alloc, value),
    }
}

/// The least field of rows without their first `skip` bytes, where there is a row.
pub fn least_field<'a, A: Sorted>(
    schema: &Schema,
    i: usize,
    skip: usize,
    a: &'a A,
) -> Option<ScalarRef<'a>>
    requires rows { All (IsRow schema.now) (rows_behind skip (A.rows a.now)) }
    requires within { i < length schema.now }
    ensures { option_map told result ≡ found_least (column schema.now i (rows_behind skip (A.rows a.entry.now))) }
{
    let mut best: Option<ScalarRef<'a>> = None;
    let mut last: Option<&[u8]> = None;
    let mut mark = RowMark::start();
    while let Some(row) = a.above_from(last, &mut mark) {
        best = Some(lesser(best, field(schema, behind(row, skip), i)));
        last = Some(row);
    }
    best
}

/// The greatest field of rows without their first `skip` bytes, where there is a row.
pub fn greatest_field<'a, A: Sorted>(
    schema: &Schema,
    i: usize,
    skip: usize,
    a: &'a A,
) -> Option<ScalarRef<'a>>
    requires rows { All (IsRow schema.now) (rows_behind skip (A.rows a.now)) }
    requires within { i < length schema.now }
    ensures { option_map told result ≡ found_greatest (column schema.now i (rows_behind skip (A.rows a.entry.now))) }
{
    let mut best: Option<ScalarRef<'a>> = None;
    let mut last: Option<&[u8]> = None;
    let mut mark = RowMark::start();
    while let Some(row) = a.above_from(last, &mut mark) {
        best = Some(greater(best, field(schema, behind(row, skip), i)));
        last = Some(row);
    }
    best
}

/// The lesser of the best so far and a field, and the field where there is none so far.
fn lesser<'a>(best: Option<ScalarRef<'a>>, value: ScalarRef<'a>) -> ScalarRef<'a>
    ensures { told result ≡ with_lesser (option_map told best.entry) (told value.entry) }
{
    match best {
        None => value,
        Some(old) => if is_before(value, old) { value } else { old },
    }
}

/// The greater of the best so far and a field, and the field where there is none so far.
fn greater<'a>(best: Option<ScalarRef<'a>>, value: ScalarRef<'a>) -> ScalarRef<'a>
    ensures { told result ≡ with_greater (option_map told best.entry) (told value.entry) }
{
    match best {
        None => value,
        Some(old) => if is_before(old, value) { value } else { old },
    }
}

/// The scalar with a text of its own.
fn owned(alloc: Global, value: ScalarRef<'_>) -> Result<Scalar, AggEnd>
    ensures same { IfOk result (λ s. s ≡ told value.entry) }
    ensures refused { IfErr result (λ end. end ≡ AggEnd.Memory) }
{
    match value {
        ScalarRef::Int(v) => Ok(Scalar::Int(v)),
        ScalarRef::Bool(v) => Ok(Scalar::Bool(v)),
        ScalarRef::Text(bytes) => match Text::new(alloc, bytes) {
            Ok(text) => Ok(Scalar::Text(text)),
            Err(_) => Err(AggEnd::Memory),
        },
    }
}

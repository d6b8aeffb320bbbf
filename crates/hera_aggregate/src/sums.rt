//! Sums of a field.
ghost use Rattle.std.specs.Prelude.{◌≡◌, ◌<◌, ◌≤ℤ◌, ◌&&◌, true, false, pos, negsuc, length, map, drop, All, IfOk, IfErr, OnOk};
ghost use Rattle.hera_meaning.specs.Scalars.{fits_int};
ghost use Rattle.hera_meaning.specs.Rows.{IsRow, field_at};
ghost use Rattle.hera_meaning.specs.Aggregates.{is_few, int_of, sum_of};
ghost use Rattle.rel_algebra.specs.Fronts.{rows_behind};

use crate::behind::behind;
use crate::ends::AggEnd;
use hera_meaning::{ScalarRef, Schema};
use hera_row::field;
use hera_rows::{ROWS_LIMIT, RowMark, Sorted};

/// The exact sum of the ints at place `i`, and Overflow exactly where it is not in the range of an
/// int, or there are more than 2^63 - 1 rows. It takes no memory.
pub fn sum<A: Sorted>(schema: &Schema, i: usize, a: &A) -> Result<i64, AggEnd>
    requires rows { All (IsRow schema.now) (A.rows a.now) }
    requires within { i < length schema.now }
    ensures sum { IfOk result (λ sum. sum ≡ sum_of schema.now i (A.rows a.now)) }
    ensures fits { OnOk result ((is_few (A.rows a.now) && fits_int (sum_of schema.now i (A.rows a.now))) ≡ true) }
    ensures overflow { IfErr result (λ end. (end ≡ AggEnd.Overflow) × ((is_few (A.rows a.now) && fits_int (sum_of schema.now i (A.rows a.now))) ≡ false)) }
{
    narrowed(total(schema, i, 0, a)?)
}

/// The sum of the rows without their first `skip` bytes, and Overflow for more than 2^63 - 1 rows: 128 bits hold the
/// sum of so many.
pub fn total<A: Sorted>(schema: &Schema, i: usize, skip: usize, a: &A) -> Result<i128, AggEnd>
    requires rows { All (IsRow schema.now) (rows_behind skip (A.rows a.now)) }
    requires within { i < length schema.now }
    ensures sum { IfOk result (λ total. total ≡ sum_of schema.now i (rows_behind skip (A.rows a.now))) }
    ensures few { OnOk result (is_few (A.rows a.now) ≡ true) }
    ensures overflow { IfErr result (λ end. (end ≡ AggEnd.Overflow) × (is_few (A.rows a.now) ≡ false)) }
{
    let mut n: u64 = 0;
    let mut total: i128 = 0;
    let mut last: Option<&[u8]> = None;
    let mut mark = RowMark::start();
    while let Some(row) = a.above_from(last, &mut mark) {
        if n == ROWS_LIMIT {
            return Err(AggEnd::Overflow);
        }
        n += 1;
        total += i128::from(int_at(schema, behind(row, skip), i));
        last = Some(row);
    }
    Ok(total)
}

/// The int at place `i` of a row, and 0 where another scalar stands there.
fn int_at(schema: &Schema, row: &[u8], i: usize) -> i64
    requires row { IsRow schema.now row.now }
    requires within { i < length schema.now }
    ensures int { result ≡ int_of (field_at schema.now row.now i) }
    ensures low { negsuc 9223372036854775807 ≤ℤ result }
    ensures high { result ≤ℤ pos 9223372036854775807 }
{
    match field(schema, row, i) {
        ScalarRef::Int(value) => value,
        _ => 0,
    }
}

/// The number as an int, where it is in range.
pub fn narrowed(total: i128) -> Result<i64, AggEnd>
    ensures same { IfOk result (λ value. value ≡ total) }
    ensures fits { OnOk result (fits_int total ≡ true) }
    ensures overflow { IfErr result (λ end. (end ≡ AggEnd.Overflow) × (fits_int total ≡ false)) }
{
    if total > 9_223_372_036_854_775_807 {
        Err(AggEnd::Overflow)
    } else if total < -9_223_372_036_854_775_808 {
        Err(AggEnd::Overflow)
    } else {
        Ok(total as i64)
    }
}

//! How many rows there are.
ghost use Rattle.std.specs.Prelude.{◌≡◌, ◌<◌, ◌^◌, true, false, pos, length, IfOk, IfErr, OnOk};
ghost use Rattle.hera_meaning.specs.Aggregates.{is_few};

use crate::ends::AggEnd;
use hera_rows::{ROWS_LIMIT, RowMark, Sorted};

/// How many rows there are, and Overflow for more than 2^63 - 1. It takes no memory.
pub fn count<A: Sorted>(a: &A) -> Result<i64, AggEnd>
    ensures count { IfOk result (λ n. n ≡ pos (length (A.rows a.now))) }
    ensures few { OnOk result (is_few (A.rows a.now) ≡ true) }
    ensures overflow { IfErr result (λ end. (end ≡ AggEnd.Overflow) × (is_few (A.rows a.now) ≡ false)) }
{
    let mut n: u64 = 0;
    let mut last: Option<&[u8]> = None;
    let mut mark = RowMark::start();
    while let Some(row) = a.above_from(last, &mut mark) {
        if n == ROWS_LIMIT {
            return Err(AggEnd::Overflow);
        }
        n += 1;
        last = Some(row);
    }
    Ok(int(n))
}

/// The number as an int.
fn int(n: u64) -> i64
    requires { n < 2 ^ 63 }
    ensures { result ≡ pos n }
{
    n as i64
}

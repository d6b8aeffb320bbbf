//! How many rows there are after commits and layers: the rows that these name are looked at, and no
//! others.
ghost use Rattle.std.specs.Prelude.{◌≡◌, ◌<◌, ◌≤◌, ◌+◌, ◌^◌, ◌++◌, length, MatchOption};
ghost use Rattle.std.specs.List.{filter};
ghost use Rattle.hera_sets.specs.Rows.{IsAscending, holds};
ghost use Rattle.when_overlay.specs.Changed.{changed, rows_after};
ghost use Rattle.when_overlay.specs.Counting.{changes, is_change};
ghost use Rattle.when_overlay.specs.Layered.{IsTip, path};

use crate::Layers;
use crate::seeks::{has, named_above};
use crate::soughts::Sought;
use delta_atoms::Delta;
use hera_meaning::{RelId, Sign};
use hera_rows::{ROWS_LIMIT, RowMark, RowSet, Sorted};
use hera_sets::is_same;

/// Whether the row was put in where it was not in the base, or taken out where it was.
fn is_change<S: Sorted>(
    base: &S,
    commits: &[Delta],
    layers: &Layers,
    tip: Option<usize>,
    rel: RelId,
    sign: Sign,
    row: &[u8],
) -> bool
    requires { IsTip layers.now.layers tip }
    ensures { result ≡ is_change sign (holds (S.rows base.now) row.now) (holds (rows_after rel.0 (S.rows base.now) (commits.now ++ path layers.now.layers tip)) row.now) }
{
    let before = base.has(row);
    let after = has(base, commits, layers, tip, rel, row);
    match sign {
        Sign::Plus => !before && after,
        Sign::Minus => before && !after,
    }
}

/// How many rows were put in that were not in the base, or taken out that were; none for 2^64 or
/// more.
fn count_changes<S: Sorted>(
    base: &S,
    commits: &[Delta],
    layers: &Layers,
    tip: Option<usize>,
    rel: RelId,
    sign: Sign,
) -> Option<u64>
    requires tip { IsTip layers.now.layers tip }
    requires ordered { IsAscending (S.rows base.now) }
    ensures { MatchOption result (2 ^ 64 ≤ length (changes sign (S.rows base.now) (rows_after rel.0 (S.rows base.now) (commits.now ++ path layers.now.layers tip)))) (λ n. n ≡ length (changes sign (S.rows base.now) (rows_after rel.0 (S.rows base.now) (commits.now ++ path layers.now.layers tip)))) }
{
    let mut count: u64 = 0;
    let mut last: Option<&[u8]> = None;
    while let Some(row) = named_above(commits, layers, tip, rel, sign, Sought::Past(last)) {
        let change = is_change(base, commits, layers, tip, rel, sign, row);
        count = count.checked_add(u64::from(change))?;
        last = Some(row);
    }
    Some(count)
}

/// How many rows there are, from how many stand in the base; none for more than 2^63 - 1.
pub(crate) fn count_after<S: Sorted>(
    stored: usize,
    base: &S,
    commits: &[Delta],
    layers: &Layers,
    tip: Option<usize>,
    rel: RelId,
) -> Option<u64>
    requires tip { IsTip layers.now.layers tip }
    requires ordered { IsAscending (S.rows base.now) }
    requires stored { stored ≡ length (S.rows base.now) }
    ensures { MatchOption result (2 ^ 63 ≤ length (rows_after rel.0 (S.rows base.now) (commits.now ++ path layers.now.layers tip))) (λ n. (n ≡ length (rows_after rel.0 (S.rows base.now) (commits.now ++ path layers.now.layers tip))) × (n < 2 ^ 63)) }
{
    let put_in = count_changes(base, commits, layers, tip, rel, Sign::Plus)?;
    let taken_out = count_changes(base, commits, layers, tip, rel, Sign::Minus)?;
    let count = (stored as u64 - taken_out).checked_add(put_in)?;
    if count > ROWS_LIMIT {
        return None;
    }
    Some(count)
}

/// How a delta changes the number of a relation's rows.
#[derive(Clone, Copy)]
pub struct Change {
    /// How many rows it puts in that were not there.
    pub put_in: u64,
    /// How many rows it takes out that were there.
    pub taken_out: u64,
}

/// Whether a row is one of these, looked for beside the mark first.
fn is_among<S: Sorted>(rows: &S, row: &[u8], mark: &mut RowMark) -> bool
    ensures found { result ≡ holds (S.rows rows.now) row.now }
    ensures ordered { IsAscending (S.rows rows.now) }
{
    match rows.not_below(row, mark) {
        Some(found) => is_same(row, found),
        None => false,
    }
}

/// How many rows of a set are among these.
fn count_shared<S: Sorted>(rows: &S, named: &RowSet) -> usize
    ensures count { result ≡ length (filter (holds (S.rows rows.now)) named.now) }
    ensures few { result ≤ length named.now }
{
    let mut count: usize = 0;
    let mut mark = RowMark::start();
    for i in 0..named.len() {
        let shared = is_among(rows, named.row(i), &mut mark);
        count += usize::from(shared);
    }
    count
}

/// How a delta changes the number of these rows of a relation; none where there are 2^64 or more. Only the rows that the
/// delta names are looked for. It takes no memory.
pub fn change_of<S: Sorted>(rows: &S, rel: RelId, delta: &Delta) -> Option<Change>
    ensures { MatchOption result (2 ^ 64 ≤ length (S.rows rows.now) + length (changed rel.0 (S.rows rows.now) delta.now)) (λ change. length (changed rel.0 (S.rows rows.now) delta.now) + change.taken_out ≡ length (S.rows rows.now) + change.put_in) }
{
    if delta.is_fail() {
        return Some(Change {
            put_in: 0,
            taken_out: 0,
        });
    }
    // for the proof alone: the rows ascend
    let _ordered = rows.has(&[]);
    let plus = delta.part(rel, Sign::Plus);
    let put_in = plus.len() - count_shared(rows, plus);
    let taken_out = count_shared(rows, delta.part(rel, Sign::Minus));
    Some(Change {
        put_in: put_in as u64,
        taken_out: taken_out as u64,
    })
}

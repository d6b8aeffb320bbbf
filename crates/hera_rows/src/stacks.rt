//! Blocks of rows, one behind the other.
ghost use Rattle.std.specs.Prelude.{◌≡◌, true, ◌+◌, ◌-◌, ◌^◌, ℕ, List, [], ◌∷◌, ◌++◌, ◌<◌, ◌≤◌, length, not, take, drop, false, IfOk, IfSome, OnOk, OnErr, slice_get, slice_index, slice_index_or, Some};
ghost use Rattle.std.specs.List.{find, remove};
ghost use Rattle.std.specs.Option.{option_copied};
ghost use Rattle.hera_sets.specs.Rows.{is_past, IsBelowAll, IsAscending, put, holds, without};
ghost use Rattle.hera_rows.specs.Blocks.{joined, ends_of, AreFilled, AreBelow, AreInOrder, AreStacked, IsHome, IsBlockOf, or_else, place_of};
ghost use Rattle.hera_rows.specs.Froms.{is_from, passes, EndsOut};

use super::Spot;
use super::bounds::Bound;
use super::packing::Packing;
use hera_sets::{is_below, is_same};
use std::alloc::{AllocError, Global};

/// A row that was found, or none, and where it stands.
#[derive(Clone, Copy)]
pub struct Near<'s> {
    pub row: Option<&'s [u8]>,
    pub spot: Spot,
}

/// How many rows a block has at most.
pub(crate) const ROOM: usize = 512;

/// Of the blocks from one place up to another, the one in which the row stands, or would stand: the last one whose
/// first row is not above it, or the first.
fn home_between(blocks: &[Packing], row: &[u8], from: usize, to: usize) -> usize
    requires order { AreInOrder blocks.now }
    requires front { AreBelow (joined (take from blocks.now)) row.now }
    requires rest { IsBelowAll row.now (joined (drop to blocks.now)) }
    requires some { from < to }
    requires within { to ≤ length blocks.now }
    ensures { IsHome blocks.now row.now result }
{
    let mut low = from;
    let mut high = to;
    while low + 1 < high {
        let middle = low + (high - low) / 2;
        if is_below(row, blocks[middle].row(0)) {
            high = middle;
        } else {
            low = middle;
        }
    }
    low
}

/// The block in which the row stands, or would stand.
fn home_of(blocks: &[Packing], row: &[u8]) -> usize
    requires order { AreInOrder blocks.now }
    requires some { 0 < length blocks.now }
    ensures { IsHome blocks.now row.now result }
{
    home_between(blocks, row, 0, blocks.len())
}

/// A place behind the given one from which on all rows are above this one, sought by steps that double.
fn reach(blocks: &[Packing], row: &[u8], from: usize) -> usize
    requires order { AreInOrder blocks.now }
    requires within { from < length blocks.now }
    ensures more { from < result }
    ensures within { result ≤ length blocks.now }
    ensures rest { IsBelowAll row.now (joined (drop result blocks.now)) }
{
    let mut high = from + 1;
    while high < blocks.len() {
        if is_below(row, blocks[high].row(0)) {
            return high;
        }
        high = high.saturating_add(high - from).min(blocks.len());
    }
    blocks.len()
}

/// The block in which the row stands, or would stand, sought from a block on by steps that double, where it is not
/// before that one.
fn home_near(blocks: &[Packing], row: &[u8], guess: usize) -> usize
    requires order { AreInOrder blocks.now }
    requires some { 0 < length blocks.now }
    ensures { IsHome blocks.now row.now result }
{
    if guess < blocks.len() {
        if !is_below(row, blocks[guess].row(0)) {
            let high = reach(blocks, row, guess);
            return home_between(blocks, row, guess, high);
        }
    }
    home_of(blocks, row)
}

/// The first row of the block at place `k` and those behind it, if there is one.
#[inline]
fn first_from(blocks: &[Packing], k: usize) -> Option<&[u8]>
    requires { AreFilled blocks.now }
    ensures { option_copied result ≡ slice_get (joined (drop k blocks.now)) 0 }
{
    if k < blocks.len() {
        Some(blocks[k].row(0))
    } else {
        None
    }
}

/// Whether the row stands at the spot.
#[inline]
fn stands_at(blocks: &[Packing], row: &[u8], spot: Spot) -> bool
    ensures within { result ≡ true → spot.block < length blocks.now }
    ensures few { result ≡ true → spot.row + 1 < 2 ^ 64 }
    ensures row { result ≡ true → slice_get (slice_index_or blocks.now spot.block []) spot.row ≡ Some row.now }
{
    if spot.block >= blocks.len() {
        return false;
    }
    let block = &blocks[spot.block];
    if spot.row >= block.len() {
        return false;
    }
    is_same(block.row(spot.row), row)
}

/// The row at place `i` of the block at place `k`, or else the first one behind that block, and where it stands.
#[inline]
fn row_from(blocks: &[Packing], k: usize, i: usize) -> Near<'_>
    requires filled { AreFilled blocks.now }
    requires within { k < length blocks.now }
    ensures { option_copied result.row ≡ or_else (slice_get (slice_index_or blocks.now k []) i) (slice_get (joined (drop (k + 1) blocks.now)) 0) }
{
    let block = &blocks[k];
    if i < block.len() {
        return Near {
            row: Some(block.row(i)),
            spot: Spot { block: k, row: i },
        };
    }
    Near {
        row: first_from(blocks, k + 1),
        spot: Spot {
            block: k + 1,
            row: 0,
        },
    }
}

/// Whether the row before the one at place `i` of the block at place `k`, if there is one, is none of those that are
/// looked for.
#[inline]
fn ends_out(blocks: &[Packing], bound: Bound<'_>, k: usize, i: usize) -> bool
    requires filled { AreFilled blocks.now }
    requires within { k < length blocks.now }
    requires upto { i ≤ length (slice_index_or blocks.now k []) }
    ensures { result ≡ true → EndsOut (passes bound.entry) (joined blocks.now) (place_of blocks.now k i) }
{
    if i > 0 {
        let block = &blocks[k];
        return !bound.passes(block.row(i - 1));
    }
    if k > 0 {
        let block = &blocks[k - 1];
        return !bound.passes(block.row(block.len() - 1));
    }
    true
}

/// Whether the row is one of those that are looked for, or none.
#[inline]
fn starts_in(row: Option<&[u8]>, bound: Bound<'_>) -> bool
    ensures { (r : List ℕ) → result ≡ true → option_copied row.entry ≡ Some r → passes bound.entry r ≡ true }
{
    match row {
        Some(r) => bound.passes(r),
        None => true,
    }
}

/// The row at place `i` of the block at place `k`, or the first one behind that block, where it is the first that is
/// looked for.
#[inline]
fn looked_at<'s>(blocks: &'s [Packing], bound: Bound<'_>, k: usize, i: usize) -> Option<Near<'s>>
    requires order { AreInOrder blocks.now }
    requires within { k < length blocks.now }
    requires upto { i ≤ length (slice_index_or blocks.now k []) }
    ensures { IfSome result (λ near. option_copied near.row ≡ find (passes bound.entry) (joined blocks.now)) }
{
    if !ends_out(blocks, bound, k, i) {
        return None;
    }
    let near = row_from(blocks, k, i);
    if starts_in(near.row, bound) {
        Some(near)
    } else {
        None
    }
}

/// The first row that is looked for, where it is the one at the spot or the next, or there is none behind the last.
fn beside<'s>(blocks: &'s [Packing], bound: Bound<'_>, spot: Spot) -> Option<Near<'s>>
    requires order { AreInOrder blocks.now }
    requires some { 0 < length blocks.now }
    ensures { IfSome result (λ near. option_copied near.row ≡ find (passes bound.entry) (joined blocks.now)) }
{
    let end = blocks.len() - 1;
    if spot.block > end {
        return looked_at(blocks, bound, end, blocks[end].len());
    }
    if spot.row >= blocks[spot.block].len() {
        return None;
    }
    match looked_at(blocks, bound, spot.block, spot.row) {
        Some(near) => Some(near),
        None => looked_at(blocks, bound, spot.block, spot.row + 1),
    }
}

/// The first row that is looked for, in the block where it would stand, which is sought from a block on.
fn sought<'s>(blocks: &'s [Packing], bound: Bound<'_>, guess: usize) -> Near<'s>
    requires order { AreInOrder blocks.now }
    requires some { 0 < length blocks.now }
    ensures { option_copied result.row ≡ find (passes bound.entry) (joined blocks.now) }
{
    let k = home_near(blocks, bound.low(), guess);
    row_from(blocks, k, blocks[k].first(bound))
}

/// The first row that is looked for: beside the spot, or else where a search finds it.
fn first_near<'s>(blocks: &'s [Packing], bound: Bound<'_>, spot: Spot) -> Near<'s>
    requires { AreInOrder blocks.now }
    ensures { option_copied result.row ≡ find (passes bound.entry) (joined blocks.now) }
{
    if blocks.is_empty() {
        return Near { row: None, spot };
    }
    match beside(blocks, bound, spot) {
        Some(near) => near,
        None => sought(blocks, bound, spot.block),
    }
}

/// The first row past the bound, which is looked for behind the spot first, and then beside it.
#[inline]
pub(crate) fn above_near<'s>(blocks: &'s [Packing], bound: Option<&[u8]>, spot: Spot) -> Near<'s>
    requires { AreInOrder blocks.now }
    ensures { option_copied result.row ≡ find (is_past (option_copied bound.entry)) (joined blocks.now) }
{
    let Some(low) = bound else {
        return Near {
            row: first_from(blocks, 0),
            spot: Spot { block: 0, row: 0 },
        };
    };
    if stands_at(blocks, low, spot) {
        return row_from(blocks, spot.block, spot.row + 1);
    }
    first_near(blocks, Bound::Past(low), spot)
}

/// The first row that does not stand before the bound, which is looked for beside the spot first.
pub(crate) fn not_below_near<'s>(blocks: &'s [Packing], bound: &[u8], spot: Spot) -> Near<'s>
    requires { AreInOrder blocks.now }
    ensures { option_copied result.row ≡ find (is_from bound.now) (joined blocks.now) }
{
    first_near(blocks, Bound::From(bound), spot)
}

/// Whether the row is there.
pub(crate) fn has(blocks: &[Packing], row: &[u8]) -> bool
    requires { AreInOrder blocks.now }
    ensures { result ≡ holds (joined blocks.now) row.now }
{
    if blocks.is_empty() {
        return false;
    }
    let k = home_of(blocks, row);
    blocks[k].has(row)
}

/// How many rows there are.
#[inline]
pub(crate) fn count(blocks: &[Packing], ends: &[usize]) -> usize
    requires { AreStacked blocks.now ends.now }
    ensures { result ≡ length (joined blocks.now) }
{
    let n = ends.len();
    if n == 0 {
        return 0;
    }
    ends[n - 1]
}

/// Whether the block at place `k` has the row at place `i` of all.
#[inline]
fn stands_in(ends: &[usize], i: usize, k: usize) -> bool
    ensures within { result ≡ true → k < length ends.now }
    ensures upto { result ≡ true → i < slice_index ends.now k }
    ensures from { (j : ℕ) → result ≡ true → j + 1 ≡ k → slice_index ends.now j ≤ i }
{
    if k >= ends.len() || ends[k] <= i {
        return false;
    }
    if k == 0 {
        return true;
    }
    ends[k - 1] <= i
}

/// The block that has the row at place `i`: where all blocks before it are full it is looked at first.
#[inline]
fn block_at(blocks: &[Packing], ends: &[usize], i: usize) -> usize
    requires stacked { AreStacked blocks.now ends.now }
    requires within { i < length (joined blocks.now) }
    ensures { IsBlockOf blocks.now i result }
{
    let guess = i / ROOM;
    if stands_in(ends, i, guess) {
        return guess;
    }
    let mut low = 0;
    let mut high = ends.len() - 1;
    while low < high {
        let middle = low + (high - low) / 2;
        if i < ends[middle] {
            high = middle;
        } else {
            low = middle + 1;
        }
    }
    low
}

/// The row at place `i`.
#[inline]
pub(crate) fn row<'s>(blocks: &'s [Packing], ends: &[usize], i: usize) -> &'s [u8]
    requires stacked { AreStacked blocks.now ends.now }
    requires within { i < length (joined blocks.now) }
    ensures { slice_get (joined blocks.now) i ≡ Some result.now }
{
    let k = block_at(blocks, ends, i);
    let block = &blocks[k];
    block.row(i - (ends[k] - block.len()))
}

/// One more from the place `k` on.
fn raise(ends: &mut [usize], k: usize)
    requires { (j : ℕ) → j < length ends.old → slice_index ends.old j + 1 < 2 ^ 64 }
    ensures before { (j : ℕ) → j < k → slice_index ends.new j ≡ slice_index ends.old j }
    ensures behind { (j : ℕ) → k ≤ j → j < length ends.old → slice_index ends.new j ≡ slice_index ends.old j + 1 }
{
    for i in k..ends.len() {
        ends[i] += 1;
    }
}

/// One less from the place `k` on.
fn lower(ends: &mut [usize], k: usize)
    requires { (j : ℕ) → k ≤ j → j < length ends.old → 0 < slice_index ends.old j }
    ensures before { (j : ℕ) → j < k → slice_index ends.new j ≡ slice_index ends.old j }
    ensures behind { (j : ℕ) → k ≤ j → j < length ends.old → slice_index ends.new j + 1 ≡ slice_index ends.old j }
{
    for i in k..ends.len() {
        ends[i] -= 1;
    }
}

/// Puts a block of this one row behind all others.
fn open(
    blocks: &mut Vec<Packing>,
    ends: &mut Vec<usize>,
    alloc: Global,
    row: &[u8],
) -> Result<(), AllocError>
    requires stacked { AreStacked blocks.old.items ends.old.items }
    requires last { IsAscending (joined blocks.old.items ++ row.now ∷ []) }
    requires few { length (joined blocks.old.items) + 1 < 2 ^ 64 }
    ensures stacked { AreStacked blocks.new.items ends.new.items }
    ensures ok { OnOk result (joined blocks.new.items ≡ joined blocks.old.items ++ row.now ∷ []) }
    ensures err { OnErr result (joined blocks.new.items ≡ joined blocks.old.items) }
{
    let end = count(blocks, ends) + 1;
    let block = Packing::of(alloc, row)?;
    ends.reserve(1)?;
    blocks.push(block)?;
    ends.push(end)?;
    Ok(())
}

/// Puts a row behind all others. Without memory all is as before.
#[inline]
pub(crate) fn push_last(
    blocks: &mut Vec<Packing>,
    ends: &mut Vec<usize>,
    alloc: Global,
    row: &[u8],
) -> Result<(), AllocError>
    requires stacked { AreStacked blocks.old.items ends.old.items }
    requires last { IsAscending (joined blocks.old.items ++ row.now ∷ []) }
    ensures stacked { AreStacked blocks.new.items ends.new.items }
    ensures ok { OnOk result (joined blocks.new.items ≡ joined blocks.old.items ++ row.now ∷ []) }
    ensures err { OnErr result (joined blocks.new.items ≡ joined blocks.old.items) }
{
    if count(blocks, ends) == usize::MAX {
        return Err(AllocError);
    }
    let n = blocks.len();
    if n == 0 || blocks[n - 1].len() >= ROOM {
        return open(blocks, ends, alloc, row);
    }
    blocks[n - 1].push_last(row)?;
    ends[n - 1] += 1;
    Ok(())
}

/// Makes two blocks of the one at place `k`. Without memory all is as before.
fn split(blocks: &mut Vec<Packing>, ends: &mut Vec<usize>, k: usize) -> Result<(), AllocError>
    requires stacked { AreStacked blocks.old.items ends.old.items }
    requires within { k < length blocks.old.items }
    ensures stacked { AreStacked blocks.new.items ends.new.items }
    ensures same { joined blocks.new.items ≡ joined blocks.old.items }
    ensures longer { length blocks.old.items ≤ length blocks.new.items }
{
    let block = &blocks[k];
    let long = block.len();
    let middle = long / 2;
    if middle == 0 {
        return Ok(());
    }
    let low = block.part(0, middle)?;
    let high = block.part(middle, long)?;
    ends.reserve(1)?;
    blocks.insert(k + 1, high)?;
    let end = ends[k] - (long - middle);
    ends.insert(k, end)?;
    blocks[k] = low;
    Ok(())
}

/// Takes the row in where it stands or would stand. Without memory all is as before.
fn put_home(
    blocks: &mut Vec<Packing>,
    ends: &mut Vec<usize>,
    k: usize,
    row: &[u8],
) -> Result<bool, AllocError>
    requires stacked { AreStacked blocks.old.items ends.old.items }
    requires home { IsHome blocks.old.items row.now k }
    ensures stacked { AreStacked blocks.new.items ends.new.items }
    ensures new { IfOk result (λ new. new ≡ not (holds (joined blocks.old.items) row.now)) }
    ensures ok { OnOk result (joined blocks.new.items ≡ put row.now (joined blocks.old.items)) }
    ensures err { OnErr result (joined blocks.new.items ≡ joined blocks.old.items) }
{
    if count(blocks, ends) == usize::MAX {
        return Err(AllocError);
    }
    let new = blocks[k].insert(row)?;
    if new {
        raise(ends, k);
    }
    Ok(new)
}

/// Whether the row is above all others.
#[inline]
fn is_last(blocks: &[Packing], row: &[u8]) -> bool
    requires { AreInOrder blocks.now }
    ensures behind { result ≡ true → AreBelow (joined blocks.now) row.now }
    ensures some { result ≡ false → 0 < length blocks.now }
{
    let n = blocks.len();
    if n == 0 {
        return true;
    }
    let block = &blocks[n - 1];
    is_below(block.row(block.len() - 1), row)
}

/// Packs all rows into full blocks anew. Without memory all is as before.
fn pack(blocks: &mut Vec<Packing>, ends: &mut Vec<usize>, alloc: Global) -> Result<(), AllocError>
    requires stacked { AreStacked blocks.old.items ends.old.items }
    ensures stacked { AreStacked blocks.new.items ends.new.items }
    ensures same { joined blocks.new.items ≡ joined blocks.old.items }
{
    let mut packed = Vec::new(alloc);
    let mut counts = Vec::new(alloc);
    for i in 0..count(blocks, ends) {
        push_last(&mut packed, &mut counts, alloc, row(blocks, ends, i))?;
    }
    *blocks = packed;
    *ends = counts;
    Ok(())
}

/// Packs all rows anew where the blocks are so many that most are less than a quarter full. Without memory all is as
/// before.
fn tighten(
    blocks: &mut Vec<Packing>,
    ends: &mut Vec<usize>,
    alloc: Global,
) -> Result<(), AllocError>
    requires stacked { AreStacked blocks.old.items ends.old.items }
    ensures stacked { AreStacked blocks.new.items ends.new.items }
    ensures same { joined blocks.new.items ≡ joined blocks.old.items }
{
    if blocks.len() / 4 > count(blocks, ends) / ROOM + 1 {
        return pack(blocks, ends, alloc);
    }
    Ok(())
}

/// Takes the row in where it stands or would stand, and makes two of a block that is full. Without memory all is as
/// before.
fn put_in(blocks: &mut Vec<Packing>, ends: &mut Vec<usize>, row: &[u8]) -> Result<bool, AllocError>
    requires stacked { AreStacked blocks.old.items ends.old.items }
    requires some { 0 < length blocks.old.items }
    ensures stacked { AreStacked blocks.new.items ends.new.items }
    ensures new { IfOk result (λ new. new ≡ not (holds (joined blocks.old.items) row.now)) }
    ensures ok { OnOk result (joined blocks.new.items ≡ put row.now (joined blocks.old.items)) }
    ensures err { OnErr result (joined blocks.new.items ≡ joined blocks.old.items) }
{
    let k = home_of(blocks, row);
    if blocks[k].len() < ROOM {
        return put_home(blocks, ends, k, row);
    }
    split(blocks, ends, k)?;
    let k = home_of(blocks, row);
    put_home(blocks, ends, k, row)
}

/// Takes the row in, and answers whether it is new. Without memory all is as before.
#[inline]
pub(crate) fn insert(
    blocks: &mut Vec<Packing>,
    ends: &mut Vec<usize>,
    alloc: Global,
    row: &[u8],
) -> Result<bool, AllocError>
    requires stacked { AreStacked blocks.old.items ends.old.items }
    ensures stacked { AreStacked blocks.new.items ends.new.items }
    ensures new { IfOk result (λ new. new ≡ not (holds (joined blocks.old.items) row.now)) }
    ensures ok { OnOk result (joined blocks.new.items ≡ put row.now (joined blocks.old.items)) }
    ensures err { OnErr result (joined blocks.new.items ≡ joined blocks.old.items) }
{
    if is_last(blocks, row) {
        push_last(blocks, ends, alloc, row)?;
        return Ok(true);
    }
    tighten(blocks, ends, alloc)?;
    put_in(blocks, ends, row)
}

/// Takes the block at place `k` away, which has one row. It takes no memory.
fn close(blocks: &mut Vec<Packing>, ends: &mut Vec<usize>, k: usize)
    requires stacked { AreStacked blocks.old.items ends.old.items }
    requires within { k < length blocks.old.items }
    requires one { length (slice_index_or blocks.old.items k []) ≡ 1 }
    ensures stacked { AreStacked blocks.new.items ends.new.items }
    ensures rest { blocks.new.items ≡ remove blocks.old.items k }
{
    let _block = blocks.remove(k);
    let _end = ends.remove(k);
    lower(ends, k);
}

/// Takes the row out of the block in which it would stand. It takes no memory.
fn take_home(blocks: &mut Vec<Packing>, ends: &mut Vec<usize>, k: usize, row: &[u8]) -> bool
    requires stacked { AreStacked blocks.old.items ends.old.items }
    requires home { IsHome blocks.old.items row.now k }
    ensures stacked { AreStacked blocks.new.items ends.new.items }
    ensures found { result ≡ holds (joined blocks.old.items) row.now }
    ensures removed { joined blocks.new.items ≡ without row.now (joined blocks.old.items) }
{
    if !blocks[k].has(row) {
        return false;
    }
    if blocks[k].len() == 1 {
        close(blocks, ends, k);
        return true;
    }
    let _there = blocks[k].remove(row);
    lower(ends, k);
    true
}

/// Takes the row out, and answers whether it was there. It takes no memory.
pub(crate) fn remove(blocks: &mut Vec<Packing>, ends: &mut Vec<usize>, row: &[u8]) -> bool
    requires stacked { AreStacked blocks.old.items ends.old.items }
    ensures stacked { AreStacked blocks.new.items ends.new.items }
    ensures found { result ≡ holds (joined blocks.old.items) row.now }
    ensures removed { joined blocks.new.items ≡ without row.now (joined blocks.old.items) }
{
    if blocks.is_empty() {
        return false;
    }
    let k = home_of(blocks, row);
    take_home(blocks, ends, k, row)
}

/// Blocks of their own with the same rows.
pub(crate) fn copy(alloc: Global, blocks: &[Packing]) -> Result<Vec<Packing>, AllocError>
    ensures { IfOk result (λ copy. copy.items ≡ blocks.now) }
{
    let mut copies = Vec::with_capacity(alloc, blocks.len())?;
    for block in blocks {
        copies.push(block.copy()?)?;
    }
    Ok(copies)
}

/// Whether both have the same blocks.
pub(crate) fn equal(blocks: &[Packing], others: &[Packing]) -> bool
    ensures { result ≡ true → blocks.now ≡ others.now }
{
    if blocks.len() != others.len() {
        return false;
    }
    for k in 0..blocks.len() {
        if !blocks[k].equal(&others[k]) {
            return false;
        }
    }
    true
}

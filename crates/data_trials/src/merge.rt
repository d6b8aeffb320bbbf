//! Smashes and merges, and both in place.
use delta_atoms::Delta;
use hera_meaning::{RelId, Sign};
use smash_merge::{merge, merge_into, smash, smash_into, smash_under};
use std::alloc::{AllocError, Global};
use std::test::Fail;

/// A copy of the first delta that was made the smash of both.
fn smashed(first: &Delta, second: &Delta) -> Result<Delta, AllocError> {
    let mut place = first.copy()?;
    smash_into(&mut place, second)?;
    Ok(place)
}

/// A copy of the second delta that was made the smash of both.
fn smashed_below(first: &Delta, second: &Delta) -> Result<Delta, AllocError> {
    let mut place = second.copy()?;
    smash_under(&mut place, first)?;
    Ok(place)
}

/// A copy of the first delta that was made the merge of both.
fn merged(first: &Delta, second: &Delta) -> Result<Delta, AllocError> {
    let mut place = first.copy()?;
    merge_into(&mut place, second)?;
    Ok(place)
}

/// Whether the delta is found.
fn is(found: Result<Delta, AllocError>, wanted: &Delta) -> bool {
    match found {
        Ok(found) => found.equal(wanted),
        Err(_) => false,
    }
}

/// Whether `fail` is found.
fn fails(found: Result<Delta, AllocError>) -> bool {
    match found {
        Ok(found) => found.is_fail(),
        Err(_) => false,
    }
}

/// Whether the smash of an atom and its opposite is the second one, in place too, and their merge fails.
fn second_wins(alloc: Global, plus: &Delta, minus: &Delta) -> bool {
    is(smash(alloc, plus, minus), minus)
        && is(smashed(plus, minus), minus)
        && is(smashed_below(plus, minus), minus)
        && fails(merge(alloc, plus, minus))
}

/// Whether the merge of two atoms in place is both, and fails with the opposite of one.
fn both_are_kept(minus: &Delta, other: &Delta, both: &Delta, plus: &Delta) -> bool {
    if both.is_fail() {
        return false;
    }
    both.count() == 2 && is(merged(minus, other), both) && fails(merged(both, plus))
}

#[test]
fn the_second_delta_wins_in_place(rt: HostRuntime) -> Result<(), Fail> {
    let alloc = rt.alloc();
    let plus = Delta::atom(alloc, Sign::Plus, RelId(0), b"a")?;
    let minus = Delta::atom(alloc, Sign::Minus, RelId(0), b"a")?;
    let other = Delta::atom(alloc, Sign::Minus, RelId(1), b"a")?;
    let both = merge(alloc, &other, &minus)?;
    let wins = second_wins(alloc, &plus, &minus);
    let is_kept = both_are_kept(&minus, &other, &both, &plus);
    drop(plus);
    drop(minus);
    drop(other);
    drop(both);
    assert!(rt; wins);
    assert!(rt; is_kept);
    Ok(())
}

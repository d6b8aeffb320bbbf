//! Sets of so many rows that they stand in several blocks.
use hera_rows::{RowSet, Sorted, Spot};
use std::alloc::AllocError;
use std::process::Abort;
use std::test::Fail;

/// The number of the block of the last row, counted from 0.
fn last_block(set: &RowSet) -> usize {
    match set.len() {
        0 => 0,
        count => set
            .not_below_near(set.row(count - 1), Spot::start())
            .spot
            .block,
    }
}

/// Puts so many rows in, of numbers that are so far apart; each is new.
fn fill(rt: &impl Abort, set: &mut RowSet, count: u16, step: u16) -> Result<(), AllocError> {
    for i in 0..count {
        assert!(rt; set.insert(&i.wrapping_mul(step).to_be_bytes())?);
    }
    Ok(())
}

/// Whether a walk finds all rows, from a spot that is none and without spots.
fn walk_finds_all(set: &RowSet) -> bool {
    let mut last: Option<&[u8]> = None;
    let mut near = set.above_near(None, Spot { block: 7, row: 7 });
    for i in 0..set.len() {
        let row = set.row(i);
        if set.above(last) != Some(row) || near.row != Some(row) {
            return false;
        }
        near = set.above_near(Some(row), near.spot);
        last = Some(row);
    }
    near.row.is_none()
}

/// Whether each of so many rows, of numbers that are so far apart, is there and taken out.
fn empty(set: &mut RowSet, count: u16, step: u16) -> bool {
    for i in 0..count {
        if !set.remove(&i.wrapping_mul(step).to_be_bytes()) {
            return false;
        }
    }
    true
}

/// Whether all rows are taken out of the set, and none out of its copy.
fn copy_stays(set: &mut RowSet) -> Result<bool, AllocError> {
    let copy = set.copy()?;
    let was_same = copy.equal(set);
    let is_empty = empty(set, 1100, 40_503) && set.len() == 0 && set.above(None).is_none();
    let is_same = copy.equal(set);
    drop(copy);
    Ok(was_same && is_empty && !is_same)
}

/// Rows that are put in in any order are walked in order, copied and taken out.
fn come_in_order(rt: &impl Abort, set: &mut RowSet) -> Result<(), AllocError> {
    fill(rt, set, 1100, 40_503)?;
    assert!(rt; !set.insert(&40_503u16.to_be_bytes())?);
    assert!(rt; last_block(set) > 1 && set.len() == 1100);
    assert!(rt; walk_finds_all(set));
    assert!(rt; copy_stays(set)?);
    Ok(())
}

#[test]
fn rows_in_any_order_come_in_order(rt: HostRuntime) -> Result<(), Fail> {
    let mut set = RowSet::new(rt.alloc());
    let tried = come_in_order(&rt, &mut set);
    drop(set);
    Ok(tried?)
}

/// Whether a search that begins at the spot finds what one without it finds, whatever the bound.
fn finds_all_from(set: &RowSet, spot: Spot) -> bool {
    for i in [0u16, 7, 8, 9, 500, 3000, 40_000, 65_534, 65_535] {
        let bound = i.to_be_bytes();
        let past = set.above_near(Some(&bound), spot).row;
        let from = set.not_below_near(&bound, spot).row;
        let is_there = set.has(&bound);
        if past != set.above(Some(&bound)) || is_there != (from == Some(&bound[..])) {
            return false;
        }
        if !is_there && from != past {
            return false;
        }
    }
    true
}

/// The block and the row of the first of some spots from which a search finds something else than without it.
fn first_wrong_spot(set: &RowSet) -> Option<(usize, usize)> {
    for block in 0..5 {
        for row in [0, 1, 100, 511] {
            if !finds_all_from(set, Spot { block, row }) {
                return Some((block, row));
            }
        }
    }
    None
}

#[test]
fn rows_from_a_bound_on_are_found_from_any_spot(rt: HostRuntime) -> Result<(), Fail> {
    let mut set = RowSet::new(rt.alloc());
    let filled = fill(&rt, &mut set, 1100, 40_504);
    let wrong = first_wrong_spot(&set);
    drop(set);
    filled?;
    assert_eq!(rt; wrong, None);
    Ok(())
}

/// Takes out all rows of the numbers up to 8,999 but each 500th.
fn thin(rt: &impl Abort, set: &mut RowSet) {
    for i in 0..9000u16 {
        assert!(rt; i % 500 == 0 || set.remove(&i.to_be_bytes()));
    }
}

/// A row that is put in where most blocks have few rows packs all rows into one.
fn is_packed(rt: &impl Abort, set: &mut RowSet) -> Result<(), AllocError> {
    fill(rt, set, 9000, 1)?;
    thin(rt, set);
    assert!(rt; last_block(set) > 7);
    assert!(rt; set.insert(&7u16.to_be_bytes())? && last_block(set) == 0 && set.len() == 19);
    Ok(())
}

#[test]
fn thin_blocks_are_packed_anew(rt: HostRuntime) -> Result<(), Fail> {
    let mut set = RowSet::new(rt.alloc());
    let tried = is_packed(&rt, &mut set);
    drop(set);
    Ok(tried?)
}

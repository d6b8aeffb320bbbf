//! Views of a relation of 64 rows, after layers that move some.
use crate::samples::{pad, put_rows, row};
use delta_atoms::Delta;
use hera_meaning::{RelId, Sign};
use hera_rows::{RowSet, Sorted, Spot, collect};
use rel_pages::{Base, read_half};
use std::alloc::{AllocError, Global};
use std::process::Abort;
use std::test::Fail;
use when_overlay::{Hyp, Layers, View, ViewMark};

/// A base with the relation R(a int), which holds the ints 1 to 64.
fn base(alloc: Global) -> Result<Base, Fail> {
    let head = b"HERA0001\0\x01\x01R\x01\x01a\x01\0\0\0\x01\0\0\0\x40";
    let mut bytes = Vec::from_slice(alloc, head)?;
    put_rows(&mut bytes, 1, 65)?;
    pad(&mut bytes, 8213)?;
    Ok(read_half(alloc, bytes)?)
}

/// The delta that takes one int out of R and puts another one in.
fn change(alloc: Global, out: u16, into: u16) -> Result<Delta, Fail> {
    let mut delta = Delta::atom(alloc, Sign::Minus, RelId(0), &row(out))?;
    delta.smash_with(&Delta::atom(alloc, Sign::Plus, RelId(0), &row(into))?)?;
    Ok(delta)
}

/// Puts a layer upon the newest one.
fn put(rt: &impl Abort, layers: &mut Layers, delta: Delta) -> Result<(), Fail> {
    assert!(rt; !delta.is_fail());
    layers.reserve(1)?;
    let number = layers.len();
    if number == 0 {
        layers.push(None, delta);
    } else {
        layers.push(Some(number - 1), delta);
    }
    assert_eq!(rt; layers.len(), number + 1);
    Ok(())
}

/// The rows of R after the layers up to the newest one.
fn seen(rt: &impl Abort, alloc: Global, base: &Base, layers: &Layers) -> Result<RowSet, Fail> {
    assert!(rt; base.catalogue().len() == 1 && layers.len() > 0);
    let view = View {
        base,
        commits: &[],
        layers,
        tip: Some(layers.len() - 1),
    };
    Ok(view.indexed(RelId(0)).again().collect(alloc)?)
}

/// How many rows R has after the layers up to the newest one.
fn counted(rt: &impl Abort, base: &Base, layers: &Layers) -> Option<u64> {
    assert!(rt; base.catalogue().len() == 1 && layers.len() > 0);
    let view = View {
        base,
        commits: &[],
        layers,
        tip: Some(layers.len() - 1),
    };
    view.indexed(RelId(0)).count()
}

/// Puts 64 layers, of which each moves an int by 100.
fn move_all(rt: &impl Abort, alloc: Global, layers: &mut Layers) -> Result<(), Fail> {
    for n in 1..65 {
        put(rt, layers, change(alloc, n, n + 100)?)?;
    }
    Ok(())
}

/// Whether these are the ints 101 to 164.
fn are_moved(rows: &RowSet) -> bool {
    for n in 1..65 {
        if !rows.has(&row(n + 100)) || rows.has(&row(n)) {
            return false;
        }
    }
    rows.len() == 64
}

/// Whether R has the ints 101 to 164 after the layers, and no others.
fn have_moved(rt: &impl Abort, alloc: Global, base: &Base, layers: &Layers) -> Result<bool, Fail> {
    let rows = seen(rt, alloc, base, layers)?;
    let are_moved = are_moved(&rows);
    drop(rows);
    Ok(are_moved)
}

/// Each of 64 layers moves a row, and a further one moves none.
fn each_layer_moves_a_row(
    rt: &impl Abort,
    alloc: Global,
    base: &Base,
    layers: &mut Layers,
) -> Result<(), Fail> {
    move_all(rt, alloc, layers)?;
    assert!(rt; have_moved(rt, alloc, base, layers)?);
    assert!(rt; counted(rt, base, layers) == Some(64));
    // a row that never was there is taken out, and one that is there put in again
    put(rt, layers, change(alloc, 200, 101)?)?;
    assert!(rt; counted(rt, base, layers) == Some(64));
    Ok(())
}

#[test]
fn sixty_four_layers_move_each_row(rt: HostRuntime) -> Result<(), Fail> {
    let base = base(rt.alloc())?;
    let mut layers = Layers::new(rt.alloc());
    let tried = each_layer_moves_a_row(&rt, rt.alloc(), &base, &mut layers);
    drop(layers);
    drop(base);
    tried
}

/// Adds moves of some ints to a delta.
fn add_moves(alloc: Global, delta: &mut Delta, moves: &[(u16, u16)]) -> Result<(), Fail> {
    for (out, into) in moves {
        delta.smash_with(&change(alloc, *out, *into)?)?;
    }
    Ok(())
}

/// The delta that puts in a row that is there, and moves two more.
fn newest_moves(alloc: Global) -> Result<Delta, Fail> {
    let mut delta = change(alloc, 64, 3)?;
    match add_moves(alloc, &mut delta, &[(10, 80), (105, 120)]) {
        Ok(()) => Ok(delta),
        Err(e) => {
            drop(delta);
            Err(e)
        }
    }
}

/// Some ints moved by two layers, of which the newest puts in one that is there, and two more.
fn moved(rt: &impl Abort, alloc: Global, layers: &mut Layers) -> Result<(), Fail> {
    put(rt, layers, change(alloc, 5, 105)?)?;
    put(rt, layers, newest_moves(alloc)?)
}

/// Whether wrong marks find the row behind this one that is found without a mark.
fn finds_by_any_mark(rel: &Hyp<'_>, row: &[u8], mark: ViewMark) -> bool {
    let behind = rel.above(Some(row));
    for n in [0, 1, 2, 4, usize::MAX] {
        let wrong = ViewMark {
            put_in: Spot {
                block: n / 2,
                row: n,
            },
            ..mark
        };
        if rel.above_near(Some(row), wrong).row != behind {
            return false;
        }
    }
    true
}

/// Whether a walk by marks finds these rows, by wrong marks too, and no others.
fn walk_finds(rel: &Hyp<'_>, rows: &RowSet) -> bool {
    let mut next = rel.above_near(None, ViewMark::start());
    for i in 0..rows.len() {
        let row = rows.row(i);
        if next.row != Some(row) || !finds_by_any_mark(rel, row, next.mark) {
            return false;
        }
        next = rel.above_near(Some(row), next.mark);
    }
    next.row.is_none()
}

/// How many rows R has, and `None` where a walk by marks does not find them.
fn walked(alloc: Global, rel: &Hyp<'_>) -> Result<Option<usize>, AllocError> {
    let rows = collect(alloc, rel)?;
    let count = match walk_finds(rel, &rows) {
        true => Some(rows.len()),
        false => None,
    };
    drop(rows);
    Ok(count)
}

/// Whether walks by marks see what is there without a layer, behind the first one and behind both.
fn walks_see_all(alloc: Global, base: &Base, layers: &Layers) -> Result<bool, AllocError> {
    if base.catalogue().len() != 1 || layers.len() != 2 {
        return Ok(false);
    }
    let mut view = View {
        base,
        commits: &[],
        layers,
        tip: None,
    };
    let bare = walked(alloc, &view.rel(RelId(0)))?;
    view.tip = Some(0);
    let first = walked(alloc, &view.rel(RelId(0)))?;
    view.tip = Some(1);
    let both = walked(alloc, &view.rel(RelId(0)))?;
    Ok(bare == Some(64) && first == Some(64) && both == Some(63))
}

/// Walks by marks see what is there before and behind two layers that move some ints.
fn moves_are_seen(
    rt: &impl Abort,
    alloc: Global,
    base: &Base,
    layers: &mut Layers,
) -> Result<(), Fail> {
    moved(rt, alloc, layers)?;
    assert!(rt; walks_see_all(alloc, base, layers)?);
    Ok(())
}

#[test]
fn a_walk_by_marks_sees_what_is_there(rt: HostRuntime) -> Result<(), Fail> {
    let base = base(rt.alloc())?;
    let mut layers = Layers::new(rt.alloc());
    let tried = moves_are_seen(&rt, rt.alloc(), &base, &mut layers);
    drop(layers);
    drop(base);
    tried
}

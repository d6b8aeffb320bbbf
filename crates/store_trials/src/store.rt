//! What a stop at each call on a file leaves, and what refusals tell.
ghost use Rattle.hera_meaning.specs.Commits.{IsCommitOf};
ghost use Rattle.std.specs.Prelude.{IfOk, IfSome};

use crate::samples::{add, catalogue_of};
use delta_atoms::Delta;
use hera_causes::Failed;
use hera_meaning::{Kind, RelId, Sign};
use hera_row::{Catalogue, check_row};
use hera_rows::Sorted;
use hera_store::{
    CheckFault, CommitFault, InitFault, OpenFault, Store, WidenFault, init_store, open_store,
};
use hera_volume::{FileId, MemOutside, Outside, rewrite_and_sync};
use rel_format::HALF_LIMIT;
use std::alloc::{AllocError, Global};
use std::process::Abort;
use std::test::Fail;
use when_overlay::{Layers, View};

/// The row of the tuple (1).
const ROW: [u8; 8] = [128, 0, 0, 0, 0, 0, 0, 1];

/// The row of the tuple (1, "").
const WIDE: [u8; 9] = [128, 0, 0, 0, 0, 0, 0, 1, 0];

/// The relations: R(a int).
const RELATIONS: [(&str, Kind); 1] = [("R", Kind::Int)];

/// The delta {+R(1)}, where R is the first relation.
fn plus(alloc: Global, rels: &Catalogue) -> Result<Option<Delta>, AllocError>
    ensures { IfOk result (λ delta. IfSome delta (IsCommitOf rels.now)) }
{
    if rels.len() == 0 {
        return Ok(None);
    }
    if !check_row(&rels.decl(RelId(0)).schema, &ROW) {
        return Ok(None);
    }
    let delta = Delta::atom(alloc, Sign::Plus, RelId(0), &ROW)?;
    Ok(Some(delta))
}

/// Whether the store's database has this row in the relation of this number.
fn has_row(alloc: Global, store: &Store, rel: u16, row: &[u8]) -> bool {
    if store.base().catalogue().len() <= rel as usize {
        return false;
    }
    let layers = Layers::new(alloc);
    let view = View {
        base: store.base(),
        commits: store.commits(),
        layers: &layers,
        tip: None,
    };
    view.rel(RelId(rel)).has(row)
}

/// How far a run comes whose commit is stored, by the answer of its checkpoint.
fn moved(answer: Result<(), CheckFault>) -> usize {
    match answer {
        Ok(()) => 4,
        Err(_) => 3,
    }
}

/// How far a run comes: 1 made, 2 opened, 3 with R(1) stored, 4 moved to the other half.
fn run<W: Outside>(
    rt: &impl Abort,
    alloc: Global,
    outside: &mut W,
    catalogue: &Catalogue,
) -> usize {
    if init_store(alloc, outside, catalogue).is_err() {
        return 0;
    }
    let Ok(mut store) = open_store(alloc, outside) else {
        return 1;
    };
    let Ok(Some(delta)) = plus(alloc, store.base().catalogue()) else {
        drop(store);
        return 1;
    };
    match store.commit(outside, delta, HALF_LIMIT) {
        Ok(()) => moved(store.checkpoint(outside, HALF_LIMIT)),
        Err(_) => {
            let again = store.commit(outside, Delta::empty(alloc), HALF_LIMIT);
            drop(store);
            assert!(rt; matches!(again, Err(CommitFault::Closed)));
            2
        }
    }
}

/// What a stop of a run leaves, where this byte stands wherever it may be any.
#[derive(Clone, Copy, PartialEq, Eq)]
struct Left {
    /// How far the run came.
    far: usize,
    /// The byte of `select`, if there is one.
    select: Option<u8>,
    /// Whether R(1) is stored, in the database that is found.
    row: Option<bool>,
}

/// The calls of a run are 10 of the making, 7 of the opening, 4 of the commit and 5 of the
/// checkpoint. The one at which all stops takes effect without a sync.
fn expected(stop: u64, fill: u8) -> Left {
    Left {
        far: match stop {
            0..10 => 0,
            10..17 => 1,
            17..21 => 2,
            21..26 => 3,
            _ => 4,
        },
        select: match stop {
            0..8 => None,
            8 | 9 | 24 | 25 => Some(fill),
            10..24 => Some(0),
            _ => Some(1),
        },
        row: match stop {
            0..8 => None,
            8..19 => Some(false),
            19 | 20 => Some(fill == 1),
            _ => Some(true),
        },
    }
}

/// Whether the database that is found has R(1) in its first relation, and R(1, "") in its second one.
fn found_rows<W: Outside>(alloc: Global, outside: &mut W) -> Option<(bool, bool)> {
    match open_store(alloc, outside) {
        Ok(store) => {
            let narrow = has_row(alloc, &store, 0, &ROW);
            let wide = has_row(alloc, &store, 1, &WIDE);
            drop(store);
            Some((narrow, wide))
        }
        Err(_) => None,
    }
}

/// The run over an outside that stops at a call, and a crash.
fn stopped(rt: &impl Abort, alloc: Global, rels: &Catalogue, stop: u64, fill: u8) -> Left {
    let mut outside = MemOutside::new(alloc, Vec::new(alloc), Some(stop), Vec::new(alloc));
    let far = run(rt, alloc, &mut outside, rels);
    let mut found = outside.crash(fill);
    let select = found.file(FileId::Select).first().copied();
    let row = match found_rows(alloc, &mut found) {
        Some((narrow, _)) => Some(narrow),
        None => None,
    };
    Left { far, select, row }
}

/// The first stop of a run, and the byte, that leave something else than is expected.
fn first_wrong_stop(rt: &impl Abort, alloc: Global, rels: &Catalogue) -> Option<(u64, u8)> {
    for stop in 0..28 {
        for fill in [0, 1, 255] {
            if stopped(rt, alloc, rels, stop, fill) != expected(stop, fill) {
                return Some((stop, fill));
            }
        }
    }
    None
}

#[test]
fn a_stop_at_each_call_leaves_before_or_after(rt: HostRuntime) -> Result<(), Fail> {
    let rels = catalogue_of(rt.alloc(), &RELATIONS)?;
    let wrong = first_wrong_stop(&rt, rt.alloc(), &rels);
    drop(rels);
    assert_eq!(rt; wrong, None);
    Ok(())
}

/// Puts these bytes into `select` and into the right half.
fn put<W: Outside>(outside: &mut W, select: &[u8], half: &[u8]) -> Result<(), Failed> {
    rewrite_and_sync(outside, FileId::Right, half)?;
    rewrite_and_sync(outside, FileId::Select, select)
}

/// The file that is damaged, and the place in it.
fn damage_of<W: Outside>(alloc: Global, outside: &mut W) -> Option<(FileId, u64)> {
    match open_store(alloc, outside) {
        Err(OpenFault::Damaged { file, at }) => Some((file, at)),
        Err(_) => None,
        Ok(store) => {
            drop(store);
            None
        }
    }
}

/// Whether no database is made, since there is one.
fn is_there<W: Outside>(alloc: Global, outside: &mut W, rels: &Catalogue) -> bool {
    matches!(init_store(alloc, outside, rels), Err(InitFault::Exists))
}

/// Whether these bytes in `select` and in the right half are a database that is damaged at this place, and stay.
fn are_damaged(
    alloc: Global,
    rels: &Catalogue,
    select: &[u8],
    half: &[u8],
    place: (FileId, u64),
) -> bool {
    let mut outside = MemOutside::new(alloc, Vec::new(alloc), None, Vec::new(alloc));
    let are_damaged = put(&mut outside, select, half).is_ok()
        && is_there(alloc, &mut outside, rels)
        && damage_of(alloc, &mut outside) == Some(place)
        && outside.file(FileId::Right) == half;
    drop(outside);
    are_damaged
}

/// Each damage is told with its file and its place.
fn damages_are_told(rt: &impl Abort, alloc: Global, rels: &Catalogue) {
    let table: [(&[u8], &[u8], FileId, u64); 4] = [
        (b"\x01\x01", b"", FileId::Select, 1),
        (b"\x01", b"HERA000", FileId::Right, 0),
        (
            b"\x01",
            b"HERA0001\0\x01\x01R\x01\x01a\x04\0\0\0\0\0",
            FileId::Right,
            15,
        ),
        (
            b"\x01",
            b"HERA0001\0\x01\x01R\x01\x01a\x01\0\0\0\0\x01\0\0\0\x01\x03",
            FileId::Right,
            25,
        ),
    ];
    for (select, half, damaged, place) in table {
        assert!(rt;
            are_damaged(alloc, rels, select, half, (damaged, place)),
            "place {place}"
        );
    }
}

#[test]
fn damaged_files_tell_their_place(rt: HostRuntime) -> Result<(), Fail> {
    let rels = catalogue_of(rt.alloc(), &RELATIONS)?;
    damages_are_told(&rt, rt.alloc(), &rels);
    drop(rels);
    Ok(())
}

/// The need that a commit tells.
fn commit_need(answer: Result<(), CommitFault>) -> u128 {
    match answer {
        Err(CommitFault::Full { need, .. }) => need,
        _ => 0,
    }
}

/// The need that a checkpoint tells.
fn check_need(answer: Result<(), CheckFault>) -> u128 {
    match answer {
        Err(CheckFault::Full { need, .. }) => need,
        _ => 0,
    }
}

/// The needs that an empty commit and then a checkpoint tell, each with one byte too few.
fn needs<W: Outside>(
    alloc: Global,
    outside: &mut W,
    catalogue: &Catalogue,
) -> Result<(u128, u128), Fail> {
    init_store(alloc, outside, catalogue)?;
    let mut store = open_store(alloc, outside)?;
    let first = commit_need(store.commit(outside, Delta::empty(alloc), 25));
    let stored = store.commit(outside, Delta::empty(alloc), 26);
    let second = check_need(store.checkpoint(outside, 20));
    stored?;
    Ok((first, second))
}

/// Whether a commit and a checkpoint with one byte too few tell their needs, and write nothing.
fn needs_are_told(alloc: Global, rels: &Catalogue) -> Result<bool, Fail> {
    let mut outside = MemOutside::new(alloc, Vec::new(alloc), None, Vec::new(alloc));
    let told = needs(alloc, &mut outside, rels);
    let stays = outside.calls() == 21 && outside.file(FileId::Left).len() == 26;
    drop(outside);
    Ok(told? == (26, 21) && stays)
}

#[test]
fn what_is_too_long_is_not_written(rt: HostRuntime) -> Result<(), Fail> {
    let rels = catalogue_of(rt.alloc(), &RELATIONS)?;
    let are_told = needs_are_told(rt.alloc(), &rels);
    drop(rels);
    assert!(rt; are_told?);
    Ok(())
}

/// Makes the database with R(1) and widens it to this catalogue. `None` where it is not made or not opened.
fn widen<W: Outside>(
    alloc: Global,
    outside: &mut W,
    old: &Catalogue,
    new: &Catalogue,
) -> Option<Result<(), WidenFault>> {
    if init_store(alloc, outside, old).is_err() {
        return None;
    }
    let Ok(mut store) = open_store(alloc, outside) else {
        return None;
    };
    let Ok(Some(delta)) = plus(alloc, store.base().catalogue()) else {
        drop(store);
        return None;
    };
    let _committed = store.commit(outside, delta, HALF_LIMIT);
    Some(store.widen(outside, new, HALF_LIMIT))
}

/// Whether a widening is refused since it narrows R.
fn is_narrowing(answer: &Option<Result<(), WidenFault>>) -> bool {
    match answer {
        Some(Err(WidenFault::Narrows { relation })) => relation.bytes() == b"R".as_slice(),
        _ => false,
    }
}

/// Whether the widening from the one catalogue to the other is refused since it narrows R.
fn narrows(alloc: Global, old: &Catalogue, new: &Catalogue) -> bool {
    let mut outside = MemOutside::new(alloc, Vec::new(alloc), None, Vec::new(alloc));
    is_narrowing(&widen(alloc, &mut outside, old, new))
}

/// What a stop of a widening leaves, where this byte stands wherever it may be any.
#[derive(Clone, Copy, PartialEq, Eq)]
struct Width {
    /// Whether the widening went well.
    done: bool,
    /// Whether the first relation has R(1).
    narrow: bool,
    /// Whether the second relation has R(1, "").
    wide: bool,
}

/// The calls before the widening are 21, and its own are 5, of which the fourth writes `select`.
fn expected_width(stop: u64, fill: u8) -> Width {
    let moved = stop == 26 || stop >= 24 && fill == 1;
    Width {
        done: stop == 26,
        narrow: !moved,
        wide: moved,
    }
}

/// The widening over an outside that stops at a call, and a crash.
fn stopped_width(alloc: Global, old: &Catalogue, new: &Catalogue, stop: u64, fill: u8) -> Width {
    let mut outside = MemOutside::new(alloc, Vec::new(alloc), Some(stop), Vec::new(alloc));
    let done = matches!(widen(alloc, &mut outside, old, new), Some(Ok(())));
    let mut found = outside.crash(fill);
    let (narrow, wide) = found_rows(alloc, &mut found).unwrap_or((false, false));
    Width { done, narrow, wide }
}

/// The first stop of a widening, and the byte, that leave something else than is expected.
fn first_wrong_width(alloc: Global, old: &Catalogue, new: &Catalogue) -> Option<(u64, u8)> {
    for stop in 21..27 {
        for fill in [0, 1, 255] {
            if stopped_width(alloc, old, new, stop, fill) != expected_width(stop, fill) {
                return Some((stop, fill));
            }
        }
    }
    None
}

/// A catalogue without R is refused, and with R, wider, what a stop leaves is expected.
fn widenings_are_tried(
    rt: &impl Abort,
    alloc: Global,
    old: &Catalogue,
    new: &mut Catalogue,
) -> Result<(), Fail> {
    assert!(rt; narrows(alloc, old, new));
    add(alloc, new, "R", &[("a", Kind::Int), ("b", Kind::Text)])?;
    assert_eq!(rt; first_wrong_width(alloc, old, new), None);
    Ok(())
}

/// The database of a catalogue is widened to one of S(a bool), and then to one with R too.
fn is_widened(rt: &impl Abort, alloc: Global, old: &Catalogue) -> Result<(), Fail> {
    let mut new = catalogue_of(alloc, &[("S", Kind::Bool)])?;
    let tried = widenings_are_tried(rt, alloc, old, &mut new);
    drop(new);
    tried
}

#[test]
fn a_stop_at_each_call_leaves_narrow_or_wide(rt: HostRuntime) -> Result<(), Fail> {
    let old = catalogue_of(rt.alloc(), &RELATIONS)?;
    let tried = is_widened(&rt, rt.alloc(), &old);
    drop(old);
    tried
}

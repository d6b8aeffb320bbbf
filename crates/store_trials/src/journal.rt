//! Journals of the relations R(a int) and S(a bool).

ghost use Rattle.std.specs.Prelude.{◌≡◌};

use crate::samples::catalogue_of;
use commit_journal::{PrepareFault, Prepared, ScanFault, prepare, scan, seal};
use delta_atoms::Delta;
use hera_causes::Failed;
use hera_meaning::{Kind, RelId, Sign};
use hera_row::Catalogue;
use hera_volume::{FileId, MemOutside, Outside, rewrite_and_sync};
use std::alloc::{AllocError, Global};
use std::process::Abort;
use std::test::Fail;

/// A half without pages, with one record of +R(1). Its journal begins at 26.
const HALF: &[u8] =
    b"HERA0001\0\x02\x01R\x01\x01a\x01\x01S\x01\x01a\x02\0\0\0\0\x01\0\0\0\x01\x01\0\0\x80\0\0\0\0\0\0\x01\0";

/// The row of R(1).
const ONE: &[u8] = b"\x80\0\0\0\0\0\0\x01";

/// The relations.
const RELATIONS: [(&str, Kind); 2] = [("R", Kind::Int), ("S", Kind::Bool)];

/// The place of the damage in a journal that begins at a place.
fn damage_of(alloc: Global, rels: &Catalogue, bytes: &[u8], at: usize) -> Option<u64> {
    match scan(alloc, bytes, at, rels) {
        Err(ScanFault::Damaged { at }) => Some(at),
        _ => None,
    }
}

/// The first length to which the half is cut for which the damage does not stand at its place.
fn first_wrong_cut(alloc: Global, rels: &Catalogue) -> Option<usize> {
    let places = [
        26, 27, 27, 27, 27, 31, 32, 32, 34, 34, 34, 34, 34, 34, 34, 34, 42,
    ];
    for len in 26..43 {
        let front = HALF.split_at(len).0;
        if damage_of(alloc, rels, front, 26) != Some(places[len - 26]) {
            return Some(len);
        }
    }
    None
}

#[test]
fn a_record_that_is_cut_off_tells_its_last_field(rt: HostRuntime) -> Result<(), Fail> {
    let rels = catalogue_of(rt.alloc(), &RELATIONS)?;
    let wrong = first_wrong_cut(rt.alloc(), &rels);
    drop(rels);
    assert_eq!(rt; wrong, None);
    Ok(())
}

/// Each damage stands at its place.
fn damages_have_places(rt: &impl Abort, alloc: Global, rels: &Catalogue) {
    for (name, journal, place) in [
        (
            "a sign of 3",
            b"\x01\0\0\0\x01\x03\0\0\x80\0\0\0\0\0\0\x01\0".as_slice(),
            5,
        ),
        (
            "a relation that is none",
            b"\x01\0\0\0\x01\x01\0\x02\x80\0\0\0\0\0\0\x01\0",
            6,
        ),
        (
            "an atom too few",
            b"\x01\0\0\0\x02\x01\0\0\x80\0\0\0\0\0\0\x01\0",
            16,
        ),
        (
            "a relation below the one before",
            b"\x01\0\0\0\x02\x01\0\x01\x01\x01\0\0\x80\0\0\0\0\0\0\x01\0",
            10,
        ),
        ("a row that is none", b"\x01\0\0\0\x01\x01\0\x01\x02\0", 8),
        (
            "a row twice",
            b"\x01\0\0\0\x02\x01\0\x01\x01\x02\0\x01\x01\0",
            12,
        ),
        (
            "a row below the one before",
            b"\x01\0\0\0\x02\x01\0\x01\x01\x01\0\x01\0\0",
            12,
        ),
    ] {
        assert_eq!(rt; damage_of(alloc, rels, journal, 0), Some(place), "{name}");
    }
}

#[test]
fn damaged_records_tell_their_place(rt: HostRuntime) -> Result<(), Fail> {
    let rels = catalogue_of(rt.alloc(), &RELATIONS)?;
    damages_have_places(&rt, rt.alloc(), &rels);
    drop(rels);
    Ok(())
}

/// So many bytes of the half, and more behind them.
fn half_up_to(alloc: Global, len: usize, more: &[u8]) -> Result<Vec<u8>, AllocError> {
    let mut bytes = Vec::from_slice(alloc, HALF)?;
    bytes.truncate(len);
    bytes.extend_from_slice(more)?;
    Ok(bytes)
}

/// Whether the deltas are +R(1) and -S(true).
fn are_both(alloc: Global, deltas: &[Delta]) -> Result<bool, AllocError> {
    let plus = Delta::atom(alloc, Sign::Plus, RelId(0), ONE)?;
    let minus = Delta::atom(alloc, Sign::Minus, RelId(1), &[1])?;
    Ok(deltas.len() == 2 && deltas[0].equal(&plus) && deltas[1].equal(&minus))
}

/// Whether the journal behind the first 26 bytes is read up to 51 and has both deltas.
fn is_read(alloc: Global, rels: &Catalogue, bytes: &[u8]) -> Result<bool, Fail> {
    let journal = scan(alloc, bytes, 26, rels)?;
    let end = journal.end;
    let are_both = are_both(alloc, &journal.deltas);
    drop(journal);
    Ok(are_both? && end == 51)
}

/// Whether a record that follows on that of the half is read up to the first closed gate.
fn is_read_to_gate(alloc: Global, rels: &Catalogue) -> Result<bool, Fail> {
    // a record of -S(true), a closed gate, and bytes that are none of the journal's
    let more = b"\x01\0\0\0\x01\x02\0\x01\x01\x07\x01";
    let bytes = half_up_to(alloc, 42, more)?;
    let is_read = is_read(alloc, rels, &bytes);
    drop(bytes);
    is_read
}

#[test]
fn a_journal_is_read_to_its_first_closed_gate(rt: HostRuntime) -> Result<(), Fail> {
    let rels = catalogue_of(rt.alloc(), &RELATIONS)?;
    let is_read = is_read_to_gate(rt.alloc(), &rels);
    drop(rels);
    assert!(rt; is_read?);
    Ok(())
}

/// Writes the bytes before the record with a closed gate behind them, and seals the record there.
fn write_half<W: Outside>(outside: &mut W, front: &[u8], prepared: Prepared) -> Result<(), Failed>
    requires { prepared.end ≡ 26 }
{
    if front.len() != 27 || front[26] == 1 {
        return Err(Failed);
    }
    rewrite_and_sync(outside, FileId::Left, front)?;
    seal(outside, FileId::Left, prepared)
}

/// Whether a record of the delta behind 26 bytes needs 43, one more than this limit allows.
fn is_refused(alloc: Global, delta: &Delta) -> bool {
    if delta.is_fail() {
        return false;
    }
    match prepare(alloc, delta, 26, 42) {
        Err(PrepareFault::Full { need, limit }) => need == 43 && limit == 42,
        Err(PrepareFault::Memory) => false,
        Ok(prepared) => {
            drop(prepared);
            false
        }
    }
}

/// Prepares a record of the delta behind 26 bytes, and seals it behind these.
fn write_record<W: Outside>(
    alloc: Global,
    outside: &mut W,
    front: &[u8],
    delta: &Delta,
) -> Result<(), Fail> {
    if delta.is_fail() {
        return Err("the delta fails".into());
    }
    let prepared = prepare(alloc, delta, 26, 43)?;
    Ok(write_half(outside, front, prepared)?)
}

/// Whether sealing a record of the delta gives the half, in seven calls.
fn is_sealed(alloc: Global, delta: &Delta) -> Result<bool, Fail> {
    let front = half_up_to(alloc, 26, &[0])?;
    let mut outside = MemOutside::new(alloc, Vec::new(alloc), None, Vec::new(alloc));
    let written = write_record(alloc, &mut outside, &front, delta);
    // a cut, a write and a sync, and then two writes, each with a sync
    let is_half = outside.file(FileId::Left) == HALF && outside.calls() == 7;
    drop(front);
    drop(outside);
    written?;
    Ok(is_half)
}

#[test]
fn a_record_is_prepared_within_its_limit_and_sealed(rt: HostRuntime) -> Result<(), Fail> {
    let delta = Delta::atom(rt.alloc(), Sign::Plus, RelId(0), ONE)?;
    let is_refused = is_refused(rt.alloc(), &delta);
    let is_sealed = is_sealed(rt.alloc(), &delta);
    drop(delta);
    assert!(rt; is_sealed?);
    assert!(rt; is_refused);
    Ok(())
}

//! Calls over files in memory, and what a crash leaves of them.
use hera_causes::{Failed, Output, Piece};
use hera_volume::{FileId, MemOutside, Outside, rewrite_and_sync, say, sync_all, write_and_sync};
use std::alloc::{AllocError, Global};
use std::test::Fail;

/// Each call once. The number is that of the bytes read.
fn walk<W: Outside>(outside: &mut W, front: &mut [u8]) -> Result<usize, Failed> {
    write_and_sync(outside, FileId::Right, 0, b"hello")?;
    rewrite_and_sync(outside, FileId::Select, &[1])?;
    sync_all(outside)?;
    say(outside, b"done\n")?;
    outside.len(FileId::Left)?;
    outside.read(FileId::Right, 1, front)
}

/// Whether ten calls are made, which read four bytes.
fn reads_four(outside: &mut MemOutside) -> bool {
    let mut front = [0u8; 8];
    walk(outside, &mut front) == Ok(4) && front == *b"ello\0\0\0\0" && outside.calls() == 10
}

/// Whether the right half and what was said are there.
fn has_all(found: &MemOutside) -> bool {
    found.file(FileId::Right) == b"hello".as_slice() && found.bytes() == b"done\n".as_slice()
}

#[test]
fn each_call_does_its_work(rt: HostRuntime) -> Result<(), Fail> {
    let alloc = rt.alloc();
    let pieces = [Piece::Take(1), Piece::Take(0)].to_vec(alloc)?;
    let mut outside = MemOutside::new(alloc, Vec::new(alloc), None, pieces);
    let reads = reads_four(&mut outside);
    let found = outside.crash(b'.');
    let has_all = has_all(&found);
    drop(found);
    assert!(rt; reads);
    assert!(rt; has_all);
    Ok(())
}

/// A file is written, changed and emptied, each with its sync.
fn change<W: Outside>(outside: &mut W) -> Result<(), Failed> {
    write_and_sync(outside, FileId::Left, 0, b"ab")?;
    write_and_sync(outside, FileId::Left, 0, b"x")?;
    rewrite_and_sync(outside, FileId::Left, b"")
}

/// Whether a change over an outside that stops at one call and fails at another leaves these bytes behind a crash.
fn leaves(alloc: Global, stop: u64, fails: u64, left: &[u8]) -> Result<bool, AllocError> {
    let fails = [fails].to_vec(alloc)?;
    let mut outside = MemOutside::new(alloc, fails, Some(stop), Vec::new(alloc));
    let goes = change(&mut outside).is_ok();
    let says = outside.emit(b"!").is_ok();
    let found = outside.crash(b'.');
    let is_left = found.file(FileId::Left) == left;
    drop(found);
    Ok(is_left && goes == left.is_empty() && says == (stop == 7))
}

#[test]
fn a_crash_fills_what_no_sync_has_settled(rt: HostRuntime) -> Result<(), Fail> {
    let table: [(u64, u64, &[u8]); 9] = [
        (0, 9, b".."),
        (1, 9, b".."),
        (2, 9, b".b"),
        (3, 9, b".b"),
        (4, 9, b".."),
        (5, 9, b".."),
        (6, 9, b".."),
        (7, 2, b"ab"),
        (7, 9, b""),
    ];
    for (stop, fails, left) in table {
        assert!(rt; leaves(rt.alloc(), stop, fails, left)?, "stop {stop}");
    }
    Ok(())
}

//! Sources that are read whole, and outputs that take pieces.
use hera_causes::{
    MemOutput, MemSource, Piece, QuietOutput, QuietSource, ReadFail, emit_all, read_all,
};
use std::alloc::{AllocError, Global};
use std::test::Fail;

/// Whether what was read is `hello`, or why nothing was read.
fn told_of(read: &Result<Vec<u8>, ReadFail>) -> &'static str {
    match read {
        Ok(bytes) if bytes.as_slice() == b"hello".as_slice() => "hello",
        Ok(_) => "other bytes",
        Err(ReadFail::Fault) => "a fault",
        Err(ReadFail::TooLong) => "too long",
        Err(ReadFail::Memory) => "no memory",
    }
}

/// What is told of a source of `hello` that gives these pieces, up to a limit.
fn read(alloc: Global, pieces: &[Piece], limit: u8) -> Result<&'static str, AllocError> {
    let pieces = pieces.to_vec(alloc)?;
    let mut source = MemSource::new(b"hello".to_vec(alloc)?, pieces);
    let read = read_all(alloc, &mut source, usize::from(limit));
    let told = told_of(&read);
    drop(read);
    drop(source);
    Ok(told)
}

/// What is told of a source of `hello` that never fails, up to a limit.
fn read_quietly(alloc: Global, limit: u8) -> Result<&'static str, AllocError> {
    let mut source = QuietSource::new(b"hello".to_vec(alloc)?);
    let read = read_all(alloc, &mut source, usize::from(limit));
    let told = told_of(&read);
    drop(read);
    drop(source);
    Ok(told)
}

#[test]
fn a_source_is_read_whole_or_refused(rt: HostRuntime) -> Result<(), Fail> {
    for (pieces, limit, told) in [
        ([Piece::Take(2), Piece::Take(1)].as_slice(), 5, "hello"),
        (&[Piece::Take(4), Piece::Fail], 4, "a fault"),
    ] {
        assert!(rt; read(rt.alloc(), pieces, limit)? == told);
    }
    assert!(rt; read_quietly(rt.alloc(), 4)? == "too long");
    Ok(())
}

/// Whether an output takes four bytes of five before its fault, and then all.
fn takes_before_fault(output: &mut MemOutput) -> bool {
    emit_all(output, b"hello").is_err()
        && output.bytes() == b"hell".as_slice()
        && emit_all(output, b"!\n").is_ok()
        && output.bytes() == b"hell!\n".as_slice()
}

#[test]
fn what_is_taken_before_a_fault_is_emitted(rt: HostRuntime) -> Result<(), Fail> {
    let pieces = [Piece::Take(3), Piece::Take(0), Piece::Fail].to_vec(rt.alloc())?;
    let mut output = MemOutput::new(rt.alloc(), pieces);
    let takes = takes_before_fault(&mut output);
    drop(output);
    assert!(rt; takes);
    assert!(rt; emit_all(&mut QuietOutput::new(), b"hello").is_ok());
    Ok(())
}

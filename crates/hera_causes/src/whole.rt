ghost use Rattle.std.specs.Prelude.{ℕ, ◌≡◌, ◌^◌, ◌<◌, ◌≤◌, List, take, IsErrOf};
ghost use Rattle.std.specs.Io.KnownBytes.{Appends};
ghost use Rattle.hera_causes.specs.Causes.{Rose, HasCause, TakesFirst, Came};

use crate::{Failed, Output, ReadFail, Source};
use std::alloc::Global;

const CHUNK: usize = 4096;

/// Reads all that is left, if that is at most `limit` bytes. Each turn of its loop takes at least one byte, or it ends.
///
/// `Fault` comes only where the source's count of faults rose, and at every other answer that count is as it was.
/// `TooLong` comes exactly where more than `limit` bytes came before any fault, and `Memory` where the bytes could not be
/// kept. The bytes that came are gone from the source then.
pub fn read_all<S: Source>(alloc: Global, src: &mut S, limit: usize) -> Result<Vec<u8>, ReadFail>
    requires { limit < 2 ^ 32 }
    ensures came { (bytes : List ℕ) × Came (S.left src.old) (S.left src.new) limit result bytes }
    ensures later { S.faults src.old ≤ S.faults src.new }
    ensures fault { IsErrOf result ReadFail.Fault → Rose (S.faults src.old) (S.faults src.new) }
    ensures still { ¬ IsErrOf result ReadFail.Fault → S.faults src.new ≡ S.faults src.old }
{
    let mut bytes = Vec::new(alloc);
    let mut chunk = [0u8; CHUNK];
    while bytes.len() <= limit {
        let n = src.read(&mut chunk)?;
        if n == 0 {
            return Ok(bytes);
        }
        bytes.extend_from_slice(&chunk[..n])?;
    }
    Err(ReadFail::TooLong)
}

/// Emits all the bytes, or some of them up to the first failure. It takes no memory, and each turn of its loop emits at
/// least one byte, or it ends. `Failed` comes only where the output's count of faults rose, and after an `Ok` that count
/// is as it was.
pub fn emit_all<W: Output>(out: &mut W, bytes: &[u8]) -> Result<(), Failed>
    ensures first { (n : ℕ) × TakesFirst result bytes.now n
        × Appends (W.emitted out.old) (W.emitted out.new) (take n bytes.now)
        × W.passed out.old out.new bytes.now n }
    ensures cause { HasCause (W.output_faults out.old) (W.output_faults out.new) result }
{
    let mut rest = bytes;
    while !rest.is_empty() {
        let n = out.emit(rest)?;
        rest = &rest[n..];
    }
    Ok(())
}

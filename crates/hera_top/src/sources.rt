//! What a source gives, whole.
ghost use Rattle.std.specs.Prelude.{◌^◌, ◌<◌, ◌≤◌, IfOk, IfErr};
ghost use Rattle.hera_top.specs.Sources.{seen, IsWhole};
ghost use Rattle.hera_top.specs.Stopping.{IsMissing};

use hera_causes::{ReadFail, Source, read_all};
use hera_outcome::{Refusal, Stop};
use hera_script::Cause;
use std::alloc::Global;

/// Reads all that a source gives, where that is at most `limit` bytes.
pub(crate) fn read_source<S: Source>(
    alloc: Global,
    source: &mut S,
    limit: usize,
) -> Result<Vec<u8>, Stop>
    requires small { limit < 2 ^ 32 }
    ensures whole { IfOk result (λ bytes. IsWhole limit (seen S.left S.faults source.old) (seen S.left S.faults source.new) bytes.items) }
    ensures missing { IfErr result (IsMissing limit (seen S.left S.faults source.old) (seen S.left S.faults source.new)) }
    ensures later { S.faults source.old ≤ S.faults source.new }
{
    match read_all(alloc, source, limit) {
        Ok(bytes) => Ok(bytes),
        Err(ReadFail::Fault) => Err(Stop::Refused(Refusal::Unread)),
        Err(ReadFail::TooLong) => Err(Stop::Refused(Refusal::Script {
            cause: Cause::TooLong,
            at: limit as u32,
        })),
        Err(ReadFail::Memory) => Err(Stop::Memory),
    }
}

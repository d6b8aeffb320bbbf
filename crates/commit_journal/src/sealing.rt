//! Records sealed behind their gates.
ghost use Rattle.std.specs.Prelude.{◌≡◌, ◌≢◌, ◌≤◌, ◌+◌, max, length, take, OnOk};
ghost use Rattle.hera_causes.specs.Causes.{HasCause};
ghost use Rattle.hera_volume.specs.Disk.{IsSettled};
ghost use Rattle.hera_volume.specs.Time.{LeavesOnly};
ghost use Rattle.hera_volume.specs.declared.file_id.FileId.{FileId};
ghost use Rattle.commit_journal.specs.Gate.{IsReady, IsWith, IsBeforeOrAfter};

use crate::Prepared;
use hera_causes::Failed;
use hera_volume::{FileId, Outside, write_and_sync};

/// The byte of an open gate.
const OPEN: u8 = 1;

/// Writes the record and the next gate, closed, behind the record's own gate, which is still closed
/// too, and then opens that gate: two writes, each with a sync of its own. It takes no memory.
///
/// Where the file is told, its only image has to be what a read gives, and the place for which the
/// record was prepared has to be that of its first gate that is not open. It answers `Failed` only
/// where the count of device faults rose.
pub fn seal<W: Outside>(outside: &mut W, file: FileId, prepared: Prepared) -> Result<(), Failed>
    requires { W.told → IsReady (W.disk outside.old file) prepared.end }
    // At each moment the journal is with the record or without.
    ensures any_moment { W.told → LeavesOnly W.moment W.left_since outside.old outside.new
        (IsBeforeOrAfter (W.disk outside.old) (W.emitted outside.old) file (take prepared.end (W.disk outside.old file).bytes) prepared.body) }
    ensures settled { W.told → OnOk result (IsSettled (W.disk outside.new file)) }
    ensures sealed { W.told → OnOk result (IsWith (take prepared.end (W.disk outside.old file).bytes) prepared.body (W.disk outside.new file).bytes) }
    ensures no_longer { W.told → OnOk result (length (W.disk outside.new file).bytes ≤ max (length (W.disk outside.old file).bytes) (prepared.end + length prepared.body + 2)) }
    ensures others { W.told → (f : FileId) → f ≢ file → W.disk outside.new f ≡ W.disk outside.old f }
    ensures emitted { W.emitted outside.new ≡ W.emitted outside.old }
    ensures output { W.output_faults outside.new ≡ W.output_faults outside.old }
    ensures cause { HasCause (W.device_faults outside.old) (W.device_faults outside.new) result }
{
    let end = prepared.end();
    write_and_sync(outside, file, end + 1, prepared.bytes())?;
    write_and_sync(outside, file, end, &[OPEN])
}

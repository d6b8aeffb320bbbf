ghost use Rattle.std.specs.Io.KnownBytes.{Appends};
ghost use Rattle.std.specs.Prelude.{◌≡◌, ◌≢◌, ◌≤◌, List, ℕ, length, take, OnOk};
ghost use Rattle.hera_causes.specs.Causes.{HasCause, TakesFirst};
ghost use Rattle.hera_volume.specs.Disk.{IsSettled, after_write, after_sync};
ghost use Rattle.hera_volume.specs.Time.{IsImageOf, IsImageIn, IsImageAmid, IsImageBut, LeavesOnly};
ghost use Rattle.hera_volume.specs.declared.file_id.FileId.{FileId};

use crate::{FileId, Outside};
use hera_causes::{Failed, emit_all};

/// Writes and then syncs the file. `at` may not lie past its end, where that is told. It answers `Failed` only where the
/// count of device faults rose.
pub fn write_and_sync<W: Outside>(
    outside: &mut W,
    file: FileId,
    at: u64,
    bytes: &[u8],
) -> Result<(), Failed>
    requires { W.told → at ≤ length (W.disk outside.old file).bytes }
    ensures done { W.told → OnOk result (W.disk outside.new file ≡ after_sync (after_write (W.disk outside.old file) at bytes.now)) }
    ensures others { W.told → (f : FileId) → f ≢ file → W.disk outside.new f ≡ W.disk outside.old f }
    ensures any_moment { W.told → LeavesOnly W.moment W.left_since outside.old outside.new
        (IsImageIn (W.disk outside.old) (W.emitted outside.old) file (after_write (W.disk outside.old file) at bytes.now)) }
    ensures emitted { W.emitted outside.new ≡ W.emitted outside.old }
    ensures output { W.output_faults outside.new ≡ W.output_faults outside.old }
    ensures cause { HasCause (W.device_faults outside.old) (W.device_faults outside.new) result }
{
    outside.write_at(file, at, bytes)?;
    outside.sync(file)
}

/// Emits all the bytes, or some of them up to the first failure. It answers `Failed` only where the count of the output's
/// faults rose. The files stay as they are.
pub fn say<W: Outside>(outside: &mut W, bytes: &[u8]) -> Result<(), Failed>
    ensures first { (n : ℕ) × TakesFirst result bytes.now n × Appends (W.emitted outside.old) (W.emitted outside.new) (take n bytes.now) }
    ensures files { W.told → (f : FileId) → W.disk outside.new f ≡ W.disk outside.old f }
    ensures any_moment { W.told → LeavesOnly W.moment W.left_since outside.old outside.new (IsImageAmid (W.disk outside.old) (W.emitted outside.old) bytes.now) }
    ensures syncs { W.told → (f : FileId) → W.synced_at outside.new f ≡ W.synced_at outside.old f }
    ensures device { W.device_faults outside.new ≡ W.device_faults outside.old }
    ensures cause { HasCause (W.output_faults outside.old) (W.output_faults outside.new) result }
{
    emit_all(outside, bytes)
}

/// Cuts the file to 0, writes these bytes and syncs it. It answers `Failed` only where the count of device faults rose.
/// A crash meanwhile may leave anything of this file.
pub fn rewrite_and_sync<W: Outside>(
    outside: &mut W,
    file: FileId,
    bytes: &[u8],
) -> Result<(), Failed>
    ensures done { W.told → OnOk result (IsSettled (W.disk outside.new file) × ((W.disk outside.new file).bytes ≡ bytes.now)) }
    ensures others { W.told → (f : FileId) → f ≢ file → W.disk outside.new f ≡ W.disk outside.old f }
    ensures any_moment { W.told → LeavesOnly W.moment W.left_since outside.old outside.new (IsImageBut (W.disk outside.old) (W.emitted outside.old) file) }
    ensures emitted { W.emitted outside.new ≡ W.emitted outside.old }
    ensures output { W.output_faults outside.new ≡ W.output_faults outside.old }
    ensures cause { HasCause (W.device_faults outside.old) (W.device_faults outside.new) result }
{
    outside.cut(file, 0)?;
    write_and_sync(outside, file, 0, bytes)
}

/// Syncs the three files, whatever is pending in them. It answers `Failed` only where the count of device faults rose.
/// At every answer a read gives what it gave before.
pub fn sync_all<W: Outside>(outside: &mut W) -> Result<(), Failed>
    ensures settled { W.told → OnOk result ((f : FileId) → IsSettled (W.disk outside.new f)) }
    ensures reads { W.told → (f : FileId) → (W.disk outside.new f).bytes ≡ (W.disk outside.old f).bytes }
    ensures any_moment { W.told → LeavesOnly W.moment W.left_since outside.old outside.new (IsImageOf (W.disk outside.old) (W.emitted outside.old)) }
    ensures synced { W.told → OnOk result ((f : FileId) → W.moment outside.old ≤ W.synced_at outside.new f) }
    ensures emitted { W.emitted outside.new ≡ W.emitted outside.old }
    ensures output { W.output_faults outside.new ≡ W.output_faults outside.old }
    ensures cause { HasCause (W.device_faults outside.old) (W.device_faults outside.new) result }
{
    outside.sync(FileId::Select)?;
    outside.sync(FileId::Left)?;
    outside.sync(FileId::Right)
}

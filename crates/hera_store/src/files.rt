//! Calls on the files of a folder.
ghost use Rattle.std.specs.Prelude.{◌≡◌, ◌≢◌, ◌∷◌, [], OnOk, OnErr, IfOk};
ghost use Rattle.hera_causes.specs.Causes.{HasCause};
ghost use Rattle.hera_volume.specs.Disk.{IsSettled, after_write, after_sync};
ghost use Rattle.hera_volume.specs.Time.{IsImageIn, LeavesOnly};
ghost use Rattle.hera_volume.specs.declared.file_id.FileId.{FileId};
ghost use Rattle.hera_volume.specs.declared.file_id.FileId.TheVariants.{Select, Left, Right};
ghost use Rattle.hera_store.specs.Standing.{select_byte};
ghost use Rattle.hera_store.specs.Moments.{IsUntouched, IsUnsynced, LeavesOnceSynced};

use hera_causes::Failed;
use hera_volume::{FileId, Outside, write_and_sync};

/// Syncs a file.
pub(crate) fn sync_file<W: Outside>(outside: &mut W, file: FileId) -> Result<(), Failed>
    ensures settled { W.told → OnOk result (IsSettled (W.disk outside.new file)) }
    ensures others { W.told → (f : FileId) → f ≢ file → W.disk outside.new f ≡ W.disk outside.old f }
    ensures untouched { W.told → IsUntouched W.disk W.emitted W.moment W.left_since outside.old outside.new }
    ensures synced_now { W.told → OnOk result (W.synced_at outside.new file ≡ W.moment outside.new) }
    ensures not_synced { W.told → OnErr result (IsUnsynced W.synced_at outside.old outside.new file) }
    ensures other_syncs { W.told → (f : FileId) → f ≢ file → IsUnsynced W.synced_at outside.old outside.new f }
    ensures emitted { W.emitted outside.new ≡ W.emitted outside.old }
    ensures output { W.output_faults outside.new ≡ W.output_faults outside.old }
    ensures cause { HasCause (W.device_faults outside.old) (W.device_faults outside.new) result }
{
    outside.sync(file)
}

/// Syncs the three files, whatever is pending in them.
pub(crate) fn sync_files<W: Outside>(outside: &mut W) -> Result<(), Failed>
    ensures settled { W.told → OnOk result ((f : FileId) → IsSettled (W.disk outside.new f)) }
    ensures untouched { W.told → IsUntouched W.disk W.emitted W.moment W.left_since outside.old outside.new }
    ensures moments { W.told → OnOk result (LeavesOnceSynced W.disk W.emitted W.moment W.left_since W.synced_at outside.old outside.new) }
    ensures not_synced { W.told → OnErr result (IsUnsynced W.synced_at outside.old outside.new Right) }
    ensures emitted { W.emitted outside.new ≡ W.emitted outside.old }
    ensures output { W.output_faults outside.new ≡ W.output_faults outside.old }
    ensures cause { HasCause (W.device_faults outside.old) (W.device_faults outside.new) result }
{
    sync_file(outside, FileId::Select)?;
    sync_file(outside, FileId::Left)?;
    sync_file(outside, FileId::Right)
}

/// The byte of `select` that names a half.
fn select_byte(half: FileId) -> u8
    ensures { result ≡ select_byte half }
{
    match half {
        FileId::Right => 1,
        FileId::Left => 0,
        FileId::Select => 0,
    }
}

/// Writes the byte that names this half over `select`, and syncs it.
pub(crate) fn select_half<W: Outside>(outside: &mut W, half: FileId) -> Result<(), Failed>
    ensures done { W.told → OnOk result (W.disk outside.new Select ≡ after_sync (after_write (W.disk outside.old Select) 0 (select_byte half ∷ []))) }
    ensures others { W.told → (f : FileId) → f ≢ Select → W.disk outside.new f ≡ W.disk outside.old f }
    ensures any_moment { W.told → LeavesOnly W.moment W.left_since outside.old outside.new
        (IsImageIn (W.disk outside.old) (W.emitted outside.old) Select (after_write (W.disk outside.old Select) 0 (select_byte half ∷ []))) }
    ensures emitted { W.emitted outside.new ≡ W.emitted outside.old }
    ensures output { W.output_faults outside.new ≡ W.output_faults outside.old }
    ensures cause { HasCause (W.device_faults outside.old) (W.device_faults outside.new) result }
{
    write_and_sync(outside, FileId::Select, 0, &[select_byte(half)])
}

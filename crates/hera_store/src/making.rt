//! Databases made.
ghost use Rattle.std.specs.Prelude.{◌≡◌, ◌≢◌, ◌≤◌, ◌⊎◌, ◌∷◌, [], Err, OnOk, IfOk};
ghost use Rattle.hera_causes.specs.Causes.{HasCause, Rose};
ghost use Rattle.hera_volume.specs.Disk.{IsSettled};
ghost use Rattle.hera_volume.specs.Time.{LeavesOnly};
ghost use Rattle.hera_volume.specs.declared.file_id.FileId.{FileId};
ghost use Rattle.hera_volume.specs.declared.file_id.FileId.TheVariants.{Select, Left, Right};
ghost use Rattle.rel_format.specs.Versions.{IsHalfOf};
ghost use Rattle.rel_pages.specs.Stored.{empty_state};
ghost use Rattle.hera_store.specs.Databases.{Database, empty_database, Holds};
ghost use Rattle.hera_store.specs.Faults.{half_with};
ghost use Rattle.hera_store.specs.Moments.{IsNoneOr, IsUntouched, IsUnsynced, LeavesOnceNamed, LeavesOnceSettled};

use crate::InitFault;
use crate::files::{select_half, sync_file};
use hera_causes::Failed;
use hera_row::Catalogue;
use hera_volume::{FileId, Outside, rewrite_and_sync};
use rel_format::{Version, header_bytes};
use std::alloc::{AllocError, Global};

impl From<Failed> for InitFault {
    ghost use Rattle.std.specs.Prelude.{◌≡◌};
    ghost use Rattle.hera_store.specs.declared.faults.InitFault.TheVariants.{Device};

    ghost from_gives = { λ _ e. e ≡ Device };

    fn from(_: Failed) -> Self {
        InitFault::Device
    }
}

impl From<AllocError> for InitFault {
    ghost use Rattle.std.specs.Prelude.{◌≡◌};
    ghost use Rattle.hera_store.specs.declared.faults.InitFault.TheVariants.{Memory};

    ghost from_gives = { λ _ e. e ≡ Memory };

    fn from(_: AllocError) -> Self {
        InitFault::Memory
    }
}

/// Makes the database of this catalogue without rows, where the file `select` is empty: both halves
/// are written, each with a sync, and then `select`.
pub fn init_store<W: Outside>(
    alloc: Global,
    outside: &mut W,
    catalogue: &Catalogue,
) -> Result<(), InitFault>
    ensures vacant { W.told → OnOk result ((W.disk outside.old Select).bytes ≡ []) }
    ensures exists { W.told → result ≡ Err InitFault.Exists → (W.disk outside.old Select).bytes ≢ [] }
    // After Ok each file is settled, and both halves are that of the database.
    ensures settled { W.told → OnOk result ((f : FileId) → IsSettled (W.disk outside.new f)) }
    ensures select { W.told → OnOk result ((W.disk outside.new Select).bytes ≡ 0 ∷ []) }
    ensures left { W.told → OnOk result ((W.disk outside.new Left).bytes ≡ half_with (empty_database catalogue.now)) }
    ensures right { W.told → OnOk result ((W.disk outside.new Right).bytes ≡ half_with (empty_database catalogue.now)) }
    ensures holds { W.told → OnOk result (Holds (λ f. (W.disk outside.new f).bytes) (empty_database catalogue.now)) }
    // Where there is a database, or no memory, nothing is touched.
    ensures occupied { W.told → (W.disk outside.old Select).bytes ≢ [] → IsUntouched W.disk W.emitted W.moment W.left_since outside.old outside.new }
    ensures memory { W.told → result ≡ Err InitFault.Memory → IsUntouched W.disk W.emitted W.moment W.left_since outside.old outside.new }
    // Where it ends without a call that failed, `select` is synced: from then on a crash leaves what it may leave at the end,
    // where there is a database or no memory, and else no database is found or the empty one.
    ensures named { W.told → (result ≡ Err InitFault.Exists) ⊎ (result ≡ Err InitFault.Memory) → LeavesOnceNamed W.disk W.emitted W.moment W.left_since W.synced_at outside.old outside.new }
    ensures any_moment { W.told → (W.disk outside.old Select).bytes ≡ [] → result ≢ Err InitFault.Device →
        LeavesOnceSettled W.disk W.emitted W.moment W.left_since W.synced_at outside.old outside.new (IsNoneOr (empty_database catalogue.now) (W.emitted outside.old)) }
    // Where a call failed, the same holds, or nothing is touched and `select` was not synced.
    ensures failing { W.told → (W.disk outside.old Select).bytes ≡ [] → result ≡ Err InitFault.Device →
        LeavesOnceSettled W.disk W.emitted W.moment W.left_since W.synced_at outside.old outside.new (IsNoneOr (empty_database catalogue.now) (W.emitted outside.old))
        ⊎ (IsUntouched W.disk W.emitted W.moment W.left_since outside.old outside.new × IsUnsynced W.synced_at outside.old outside.new Select) }
    // Where one failed and there is a database, its images are those of a settled `select` too, or that was not synced.
    ensures stopped { W.told → (W.disk outside.old Select).bytes ≢ [] → result ≡ Err InitFault.Device →
        LeavesOnceNamed W.disk W.emitted W.moment W.left_since W.synced_at outside.old outside.new ⊎ IsUnsynced W.synced_at outside.old outside.new Select }
    // The same is found of the files as they read, at every answer.
    ensures reads { W.told → (W.disk outside.old Select).bytes ≡ [] →
        ((W.disk outside.new Select).bytes ≡ []) ⊎ Holds (λ f. (W.disk outside.new f).bytes) (empty_database catalogue.now) }
    ensures emitted { W.emitted outside.new ≡ W.emitted outside.old }
    ensures output { W.output_faults outside.new ≡ W.output_faults outside.old }
    ensures device { result ≡ Err InitFault.Device → Rose (W.device_faults outside.old) (W.device_faults outside.new) }
    ensures device_later { W.device_faults outside.old ≤ W.device_faults outside.new }
    ensures device_still { result ≢ Err InitFault.Device → W.device_faults outside.new ≡ W.device_faults outside.old }
{
    find_none(outside)?;
    let bytes = empty_half(alloc, catalogue)?;
    fill_files(outside, &bytes)?;
    Ok(())
}

/// Syncs `select` and looks whether it is empty.
fn find_none<W: Outside>(outside: &mut W) -> Result<(), InitFault>
    ensures vacant { W.told → OnOk result ((W.disk outside.old Select).bytes ≡ []) }
    ensures exists { W.told → result ≡ Err InitFault.Exists → (W.disk outside.old Select).bytes ≢ [] }
    ensures settled { W.told → OnOk result (IsSettled (W.disk outside.new Select)) }
    ensures untouched { W.told → IsUntouched W.disk W.emitted W.moment W.left_since outside.old outside.new }
    ensures named { W.told → result ≢ Err InitFault.Device → IsSettled (W.disk outside.new Select) × LeavesOnceNamed W.disk W.emitted W.moment W.left_since W.synced_at outside.old outside.new }
    ensures failing { W.told → result ≡ Err InitFault.Device →
        (IsSettled (W.disk outside.new Select) × LeavesOnceNamed W.disk W.emitted W.moment W.left_since W.synced_at outside.old outside.new) ⊎ IsUnsynced W.synced_at outside.old outside.new Select }
    ensures memory { result ≢ Err InitFault.Memory }
    ensures emitted { W.emitted outside.new ≡ W.emitted outside.old }
    ensures output { W.output_faults outside.new ≡ W.output_faults outside.old }
    ensures device { result ≡ Err InitFault.Device → Rose (W.device_faults outside.old) (W.device_faults outside.new) }
    ensures device_later { W.device_faults outside.old ≤ W.device_faults outside.new }
    ensures device_still { result ≢ Err InitFault.Device → W.device_faults outside.new ≡ W.device_faults outside.old }
{
    sync_file(outside, FileId::Select)?;
    let len = outside.len(FileId::Select)?;
    if len > 0 {
        return Err(InitFault::Exists);
    }
    Ok(())
}

/// The half of the database of a catalogue without rows.
fn empty_half(alloc: Global, catalogue: &Catalogue) -> Result<Vec<u8>, AllocError>
    ensures half { IfOk result (λ bytes. bytes.items ≡ half_with (empty_database catalogue.now)) }
    ensures valid { IfOk result (λ bytes. IsHalfOf bytes.items catalogue.now (empty_state catalogue.now)) }
{
    let mut bytes = header_bytes(alloc, Version::Two.magic(), catalogue)?;
    // no pages, and a closed gate
    bytes.extend_from_slice(&[0, 0, 0, 0, 0])?;
    let _count = catalogue.len();
    Ok(bytes)
}

/// Writes both halves, each with a sync, and then `select`.
fn fill_files<W: Outside>(outside: &mut W, bytes: &[u8]) -> Result<(), Failed>
    requires settled { W.told → IsSettled (W.disk outside.old Select) }
    requires vacant { W.told → (W.disk outside.old Select).bytes ≡ [] }
    ensures settled { W.told → OnOk result ((f : FileId) → IsSettled (W.disk outside.new f)) }
    ensures select { W.told → OnOk result ((W.disk outside.new Select).bytes ≡ 0 ∷ []) }
    ensures left { W.told → OnOk result ((W.disk outside.new Left).bytes ≡ bytes.now) }
    ensures right { W.told → OnOk result ((W.disk outside.new Right).bytes ≡ bytes.now) }
    ensures any_moment { W.told → (db : Database) → IsHalfOf bytes.now db.catalogue db.state →
        LeavesOnly W.moment W.left_since outside.old outside.new (IsNoneOr db (W.emitted outside.old)) }
    ensures emitted { W.emitted outside.new ≡ W.emitted outside.old }
    ensures output { W.output_faults outside.new ≡ W.output_faults outside.old }
    ensures cause { HasCause (W.device_faults outside.old) (W.device_faults outside.new) result }
{
    rewrite_and_sync(outside, FileId::Left, bytes)?;
    rewrite_and_sync(outside, FileId::Right, bytes)?;
    select_half(outside, FileId::Left)
}

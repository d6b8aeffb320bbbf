//! The other half written and selected.
ghost use Rattle.std.specs.Prelude.{◌≡◌, ◌∷◌, [], OnOk};
ghost use Rattle.hera_causes.specs.Causes.{HasCause};
ghost use Rattle.hera_volume.specs.Disk.{IsSettled};
ghost use Rattle.hera_volume.specs.Time.{LeavesOnly};
ghost use Rattle.hera_volume.specs.declared.file_id.FileId.{FileId};
ghost use Rattle.hera_volume.specs.declared.file_id.FileId.TheVariants.{Select};
ghost use Rattle.rel_format.specs.Versions.{IsHalfOf};
ghost use Rattle.hera_store.specs.Databases.{Database, Names};
ghost use Rattle.hera_store.specs.Standing.{other_half, select_byte};
ghost use Rattle.hera_store.specs.Moments.{IsEither};

use crate::files::select_half;
use hera_causes::Failed;
use hera_volume::{FileId, Outside, rewrite_and_sync};

/// Writes this half, which is not selected, and selects it once it is synced.
pub(crate) fn switch_to<W: Outside>(
    outside: &mut W,
    half: FileId,
    bytes: &[u8],
) -> Result<(), Failed>
    requires settled { W.told → (f : FileId) → IsSettled (W.disk outside.old f) }
    requires named { W.told → Names (W.disk outside.old Select).bytes (other_half half) }
    ensures settled { W.told → OnOk result ((f : FileId) → IsSettled (W.disk outside.new f)) }
    ensures selects { W.told → OnOk result ((W.disk outside.new Select).bytes ≡ select_byte half ∷ []) }
    ensures written { W.told → OnOk result ((W.disk outside.new half).bytes ≡ bytes.now) }
    ensures former { W.told → W.disk outside.new (other_half half) ≡ W.disk outside.old (other_half half) }
    // The database of the former half is found at each moment, or that of the new one.
    ensures any_moment { W.told → (before after : Database) → IsHalfOf (W.disk outside.old (other_half half)).bytes before.catalogue before.state → IsHalfOf bytes.now after.catalogue after.state →
        LeavesOnly W.moment W.left_since outside.old outside.new (IsEither before after (W.emitted outside.old)) }
    ensures emitted { W.emitted outside.new ≡ W.emitted outside.old }
    ensures output { W.output_faults outside.new ≡ W.output_faults outside.old }
    ensures cause { HasCause (W.device_faults outside.old) (W.device_faults outside.new) result }
{
    rewrite_and_sync(outside, half, bytes)?;
    select_half(outside, half)?;
    Ok(())
}

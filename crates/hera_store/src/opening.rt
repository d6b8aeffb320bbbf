//! Databases opened.
ghost use Rattle.std.specs.Prelude.{◌≡◌, ◌≢◌, ◌≤◌, ◌<◌, ◌⊎◌, [], ℕ, List, false, Err, IfOk, length, All};
ghost use Rattle.hera_meaning.specs.Commits.{after_all, IsCommitOf};
ghost use Rattle.hera_causes.specs.Causes.{Rose};
ghost use Rattle.hera_meaning.specs.declared.schemas.RelDecl.{RelDecl};
ghost use Rattle.hera_meaning.specs.Deltas.{IsState};
ghost use Rattle.hera_volume.specs.Disk.{IsSettled, Within};
ghost use Rattle.hera_volume.specs.Time.{IsImageOf, LeavesOnly};
ghost use Rattle.hera_volume.specs.declared.file_id.FileId.{FileId};
ghost use Rattle.hera_volume.specs.declared.file_id.FileId.TheVariants.{Select};
ghost use Rattle.rel_format.specs.Versions.{format_of};
ghost use Rattle.rel_format.specs.Journal.{half_limit};
ghost use Rattle.rel_pages.specs.Halves.{IsPages};
ghost use Rattle.commit_journal.specs.Halves.{HasPages, IsHalfTo, IsDamageOfHalf};
ghost use Rattle.hera_store.specs.Databases.{IsFound, absent, spoilt, held, half_named, Names, IsDamagedHalf};
ghost use Rattle.hera_store.specs.Standing.{StandsFor, AreAsGood, database_of};
ghost use Rattle.hera_store.specs.Moments.{LeavesOnceSynced, IsUnsynced};

use crate::files::sync_files;
use crate::{OpenFault, Store};
use commit_journal::{ScanFault, scan};
use delta_atoms::Delta;
use hera_causes::Failed;
use hera_volume::{FileId, Outside};
use rel_format::HALF_LIMIT;
use rel_pages::{Base, PageFault, read_half};
use smash_merge::smash_all;
use std::alloc::{AllocError, Global};

impl From<Failed> for OpenFault {
    ghost use Rattle.std.specs.Prelude.{◌≡◌};
    ghost use Rattle.hera_store.specs.declared.faults.OpenFault.TheVariants.{Device};

    ghost from_gives = { λ _ e. e ≡ Device };

    fn from(_: Failed) -> Self {
        OpenFault::Device
    }
}

impl From<AllocError> for OpenFault {
    ghost use Rattle.std.specs.Prelude.{◌≡◌};
    ghost use Rattle.hera_store.specs.declared.faults.OpenFault.TheVariants.{Memory};

    ghost from_gives = { λ _ e. e ≡ Memory };

    fn from(_: AllocError) -> Self {
        OpenFault::Memory
    }
}

/// Opens the database of the files, once all three are synced. The deltas of its journal become one
/// commit.
pub fn open_store<W: Outside>(alloc: Global, outside: &mut W) -> Result<Store, OpenFault>
    // What was found at the start.
    ensures held { W.told → IfOk result (λ store. IsFound (λ f. (W.disk outside.old f).bytes) (held (database_of store))) }
    ensures absent { W.told → result ≡ Err OpenFault.NoDatabase → IsFound (λ f. (W.disk outside.old f).bytes) absent }
    ensures damaged { W.told → (file : FileId) (at : ℕ) → result ≡ Err (OpenFault.Damaged file at) → IsFound (λ f. (W.disk outside.old f).bytes) (spoilt file at) }
    // What the store is.
    ensures stands { W.told → IfOk result (λ store. StandsFor (W.disk outside.new) store) }
    ensures open { IfOk result (λ store. store.closed ≡ false) }
    ensures one { IfOk result (λ store. length store.commits ≤ 1) }
    ensures state { IfOk result (λ store. IsState store.base.catalogue (database_of store).state) }
    ensures read { W.told → IfOk result (λ store. store.base.bytes ≡ (W.disk outside.old store.half).bytes) }
    // Only syncs change what a crash leaves, and all files were synced unless one failed.
    ensures synced { W.told → result ≢ Err OpenFault.Device → (f : FileId) → IsSettled (W.disk outside.new f) }
    ensures reads { W.told → (f : FileId) → (W.disk outside.new f).bytes ≡ (W.disk outside.old f).bytes }
    ensures within { W.told → (f : FileId) → Within (W.disk outside.new f) (W.disk outside.old f) }
    ensures any_moment { W.told → LeavesOnly W.moment W.left_since outside.old outside.new (IsImageOf (W.disk outside.old) (W.emitted outside.old)) }
    // From the last sync on a crash leaves what it may leave at the end. Where a call failed, this holds, or a file was not synced.
    ensures moments { W.told → result ≢ Err OpenFault.Device → LeavesOnceSynced W.disk W.emitted W.moment W.left_since W.synced_at outside.old outside.new }
    ensures failing { W.told → result ≡ Err OpenFault.Device →
        LeavesOnceSynced W.disk W.emitted W.moment W.left_since W.synced_at outside.old outside.new ⊎ ((f : FileId) × IsUnsynced W.synced_at outside.old outside.new f) }
    ensures emitted { W.emitted outside.new ≡ W.emitted outside.old }
    ensures output { W.output_faults outside.new ≡ W.output_faults outside.old }
    ensures device { result ≡ Err OpenFault.Device → Rose (W.device_faults outside.old) (W.device_faults outside.new) }
    ensures device_later { W.device_faults outside.old ≤ W.device_faults outside.new }
    ensures device_still { result ≢ Err OpenFault.Device → W.device_faults outside.new ≡ W.device_faults outside.old }
{
    sync_files(outside)?;
    let half = find_half(outside)?;
    let bytes = read_file(alloc, outside, half)?;
    store_of(alloc, half, bytes)
}

/// The half that `select` names.
fn find_half<W: Outside>(outside: &mut W) -> Result<FileId, OpenFault>
    ensures named { W.told → IfOk result (λ half. Names (W.disk outside.old Select).bytes half) }
    ensures absent { W.told → result ≡ Err OpenFault.NoDatabase → (W.disk outside.old Select).bytes ≡ [] }
    ensures damaged { W.told → (file : FileId) (at : ℕ) → result ≡ Err (OpenFault.Damaged file at) → (1 < length (W.disk outside.old Select).bytes) × (file ≡ Select) × (at ≡ 1) }
    ensures files { W.told → (f : FileId) → W.disk outside.new f ≡ W.disk outside.old f }
    ensures any_moment { W.told → LeavesOnly W.moment W.left_since outside.old outside.new (IsImageOf (W.disk outside.old) (W.emitted outside.old)) }
    ensures syncs { W.told → (f : FileId) → W.synced_at outside.new f ≡ W.synced_at outside.old f }
    ensures emitted { W.emitted outside.new ≡ W.emitted outside.old }
    ensures output { W.output_faults outside.new ≡ W.output_faults outside.old }
    ensures device { result ≡ Err OpenFault.Device → Rose (W.device_faults outside.old) (W.device_faults outside.new) }
    ensures device_later { W.device_faults outside.old ≤ W.device_faults outside.new }
    ensures device_still { result ≢ Err OpenFault.Device → W.device_faults outside.new ≡ W.device_faults outside.old }
{
    let len = outside.len(FileId::Select)?;
    if len > 1 {
        return Err(OpenFault::Damaged {
            file: FileId::Select,
            at: 1,
        });
    }
    let mut byte = [0u8; 1];
    let count = outside.read(FileId::Select, 0, &mut byte)?;
    if count == 0 {
        return Err(OpenFault::NoDatabase);
    }
    Ok(half_named(byte[0]))
}

/// The half that a byte names.
fn half_named(byte: u8) -> FileId
    ensures { result ≡ half_named byte }
{
    if byte == 1 {
        FileId::Right
    } else {
        FileId::Left
    }
}

/// The bytes of a half.
fn read_file<W: Outside>(alloc: Global, outside: &mut W, half: FileId) -> Result<Vec<u8>, OpenFault>
    ensures bytes { W.told → IfOk result (λ bytes. bytes.items ≡ (W.disk outside.old half).bytes) }
    ensures present { result ≢ Err OpenFault.NoDatabase }
    ensures damaged { W.told → (file : FileId) (at : ℕ) → result ≡ Err (OpenFault.Damaged file at) → (half_limit < length (W.disk outside.old half).bytes) × (file ≡ half) × (at ≡ half_limit) }
    ensures files { W.told → (f : FileId) → W.disk outside.new f ≡ W.disk outside.old f }
    ensures any_moment { W.told → LeavesOnly W.moment W.left_since outside.old outside.new (IsImageOf (W.disk outside.old) (W.emitted outside.old)) }
    ensures syncs { W.told → (f : FileId) → W.synced_at outside.new f ≡ W.synced_at outside.old f }
    ensures emitted { W.emitted outside.new ≡ W.emitted outside.old }
    ensures output { W.output_faults outside.new ≡ W.output_faults outside.old }
    ensures device { result ≡ Err OpenFault.Device → Rose (W.device_faults outside.old) (W.device_faults outside.new) }
    ensures device_later { W.device_faults outside.old ≤ W.device_faults outside.new }
    ensures device_still { result ≢ Err OpenFault.Device → W.device_faults outside.new ≡ W.device_faults outside.old }
{
    let len = outside.len(half)?;
    if len > HALF_LIMIT {
        return Err(OpenFault::Damaged {
            file: half,
            at: HALF_LIMIT,
        });
    }
    let mut bytes = vec![in alloc; 0u8; len as usize]?;
    let count = outside.read(half, 0, &mut bytes)?;
    bytes.truncate(count);
    Ok(bytes)
}

/// The store over the bytes of this half.
fn store_of(alloc: Global, half: FileId, bytes: Vec<u8>) -> Result<Store, OpenFault>
    ensures held { IfOk result (λ store. IsHalfTo (format_of store.base.version) bytes.items store.base.catalogue (after_all store.base.state store.commits) store.end) }
    ensures half { IfOk result (λ store. store.half ≡ half) }
    ensures read { IfOk result (λ store. store.base.bytes ≡ bytes.items) }
    ensures open { IfOk result (λ store. store.closed ≡ false) }
    ensures one { IfOk result (λ store. length store.commits ≤ 1) }
    ensures state { IfOk result (λ store. IsState store.base.catalogue (after_all store.base.state store.commits)) }
    ensures damaged { (file : FileId) (at : ℕ) → result ≡ Err (OpenFault.Damaged file at) → (file ≡ half) × IsDamagedHalf bytes.items at }
    ensures present { result ≢ Err OpenFault.NoDatabase }
    ensures device { result ≢ Err OpenFault.Device }
{
    let base = base_of(alloc, half, bytes)?;
    let (commits, end) = journal_of(alloc, half, &base)?;
    Ok(Store::opened(alloc, base, commits, half, end))
}

/// The half read up to its first gate.
fn base_of(alloc: Global, half: FileId, bytes: Vec<u8>) -> Result<Base, OpenFault>
    ensures pages { IfOk result (IsPages bytes.items) }
    ensures damaged { (file : FileId) (at : ℕ) → result ≡ Err (OpenFault.Damaged file at) → (file ≡ half) × IsDamagedHalf bytes.items at }
    ensures present { result ≢ Err OpenFault.NoDatabase }
    ensures device { result ≢ Err OpenFault.Device }
{
    match read_half(alloc, bytes) {
        Ok(base) => Ok(base),
        Err(PageFault::Damaged { at }) => Err(OpenFault::Damaged { file: half, at }),
        Err(PageFault::Memory) => Err(OpenFault::Memory),
    }
}

/// The commits of the half's journal, as one, and the place of its first gate that is not open.
fn journal_of(alloc: Global, half: FileId, base: &Base) -> Result<(Vec<Delta>, u64), OpenFault>
    ensures held { HasPages (format_of base.now.version) base.now.bytes base.now.catalogue base.now.state base.now.journal →
        IfOk result (λ x. IsHalfTo (format_of base.now.version) base.now.bytes base.now.catalogue (after_all base.now.state x.0.items) x.1) }
    ensures proper { IfOk result (λ x. All (IsCommitOf base.now.catalogue) x.0.items) }
    ensures one { IfOk result (λ x. length x.0.items ≤ 1) }
    ensures damaged { (file : FileId) (at : ℕ) → result ≡ Err (OpenFault.Damaged file at) →
        (file ≡ half) × (HasPages (format_of base.now.version) base.now.bytes base.now.catalogue base.now.state base.now.journal → IsDamageOfHalf (format_of base.now.version) base.now.bytes at) }
    ensures present { result ≢ Err OpenFault.NoDatabase }
    ensures device { result ≢ Err OpenFault.Device }
{
    match scan(alloc, base.bytes(), base.journal_at(), base.catalogue()) {
        Ok(journal) => {
            let commits = as_one(alloc, &journal.deltas)?;
            Ok((commits, journal.end))
        }
        Err(ScanFault::Damaged { at }) => Err(OpenFault::Damaged { file: half, at }),
        Err(ScanFault::Memory) => Err(OpenFault::Memory),
    }
}

/// The smash of deltas in order, as the only commit, where there are any.
fn as_one(alloc: Global, deltas: &[Delta]) -> Result<Vec<Delta>, AllocError>
    ensures one { IfOk result (λ commits. length commits.items ≤ 1) }
    ensures good { (rels : List RelDecl) → All (IsCommitOf rels) deltas.now → IfOk result (λ commits. AreAsGood rels deltas.now commits.items) }
{
    let mut commits = Vec::new(alloc);
    if deltas.is_empty() {
        return Ok(commits);
    }
    let all = smash_all(alloc, deltas)?;
    commits.push(all)?;
    Ok(commits)
}

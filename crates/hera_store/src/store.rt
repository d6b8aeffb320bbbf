//! Stores: databases that are open.
ghost use Rattle.std.specs.Prelude.{◌≡◌, ◌≢◌, ◌≤◌, ◌⊎◌, ◌++◌, [], ◌∷◌, false, true, Some, Err, OnOk, OnErr, IfOk, IfErr, IfSome, ◌+◌, take, length, All};
ghost use Rattle.hera_meaning.specs.Commits.{IsCommitOf};
ghost use Rattle.hera_meaning.specs.Wider.{Wider};
ghost use Rattle.hera_causes.specs.Causes.{Rose};
ghost use Rattle.hera_meaning.specs.Deltas.{is_fail, IsDelta, IsDeltaOf, IsState};
ghost use Rattle.delta_atoms.specs.Atoms.{atoms_in};
ghost use Rattle.hera_volume.specs.Disk.{IsSettled};
ghost use Rattle.hera_volume.specs.Time.{LeavesOnly};
ghost use Rattle.hera_volume.specs.declared.file_id.FileId.{FileId};
ghost use Rattle.hera_volume.specs.declared.file_id.FileId.TheVariants.{Select};
ghost use Rattle.rel_format.specs.Journal.{record_of, half_limit};
ghost use Rattle.rel_format.specs.Versions.{is_old};
ghost use Rattle.commit_journal.specs.Gate.{IsWith};
ghost use Rattle.commit_journal.specs.Prepare.{need_of};
ghost use Rattle.hera_store.specs.Databases.{Holds};
ghost use Rattle.hera_store.specs.Standing.{StandsFor, AreOver, database_of, database_after, end_with, other_half, select_byte};
ghost use Rattle.hera_store.specs.Faults.{IsRecordRefusal, IsCommitRefusal, IsCheckRefusal, IsWidenRefusal, commit_need, half_with};
ghost use Rattle.hera_store.specs.Widened.{widened};
ghost use Rattle.hera_store.specs.Moments.{IsEither, IsStill};

use crate::printing::half_bytes;
use crate::switching::switch_to;
use crate::widening::widened_bytes;
use crate::{CheckFault, CommitFault, WidenFault};
use commit_journal::{PrepareFault, Prepared, prepare, seal};
use delta_atoms::Delta;
use hera_row::Catalogue;
use hera_volume::{FileId, Outside};
use rel_pages::Base;
use std::alloc::{AllocError, Global};
use std::marker::Model;

/// A database that is open: the half as it was read, and the commits since.
#[derive(Drop)]
pub struct Store {
    base: Base,
    commits: Vec<Delta>,
    half: FileId,
    end: u64,
    closed: bool,
    alloc: Global,
}

impl From<AllocError> for CommitFault {
    ghost use Rattle.std.specs.Prelude.{◌≡◌};
    ghost use Rattle.hera_store.specs.declared.faults.CommitFault.TheVariants.{Memory};

    ghost from_gives = { λ _ e. e ≡ Memory };

    fn from(_: AllocError) -> Self {
        CommitFault::Memory
    }
}

impl Model for Store {
    ghost use Rattle.hera_store.specs.Standing.{Standing, AreOver};

    ghost Value = { Standing };

    ghost view = { λ s. record { base = s.base; commits = s.commits.items; half = s.half; end = s.end; closed = s.closed } };

    ghost invariant = { λ s. AreOver s.base s.commits.items };
}

impl Store {
    /// The store of this half, whose first gate that is not open is at `end`.
    pub(crate) fn opened(
        alloc: Global,
        base: Base,
        commits: Vec<Delta>,
        half: FileId,
        end: u64,
    ) -> Store
        requires { AreOver base commits.items }
        ensures { result ≡ record { base = base; commits = commits.items; half = half; end = end; closed = false } }
    {
        Store {
            base,
            commits,
            half,
            end,
            closed: false,
            alloc,
        }
    }

    /// The base under the commits.
    pub fn base(&self) -> &Base
        ensures base { result.now ≡ self.now.base }
        ensures state { IsState self.now.base.catalogue (database_of self.now).state }
    {
        &self.base
    }

    /// Whether the selected half has format 1, which is read and never written. It takes no memory.
    pub fn old_format(&self) -> bool
        ensures { result ≡ is_old self.now.base.version }
    {
        self.base.version().is_old()
    }

    /// The commits since, in order. None is `fail`, and each names relations and rows of the base's
    /// catalogue.
    pub fn commits(&self) -> &[Delta]
        ensures commits { result.now ≡ self.now.commits }
        ensures proper { All (IsCommitOf self.now.base.catalogue) self.now.commits }
    {
        &self.commits
    }

    /// Stores one commit more: its record is written behind the last gate and synced, and then that
    /// gate is opened and synced.
    ///
    /// The store has to be closed or to stand for the outside. `Full` comes exactly where the record
    /// and the next gate end behind the limit. A store that answered `Device` answers `Closed` from
    /// then on. Where it answers anything else than Ok and `Device`, no call on a file was made.
    pub fn commit<W: Outside>(
        &mut self,
        outside: &mut W,
        delta: Delta,
        limit: u64,
    ) -> Result<(), CommitFault>
        requires stands { W.told → self.old.closed ≡ false → StandsFor (W.disk outside.old) self.old }
        requires proper { is_fail delta ≡ false }
        requires known { IsDeltaOf self.old.base.catalogue delta }
        requires limit { limit ≤ half_limit }
        // The store afterwards.
        ensures base { self.new.base ≡ self.old.base }
        ensures half { self.new.half ≡ self.old.half }
        ensures stored { OnOk result (self.new.commits ≡ self.old.commits ++ delta ∷ []) }
        ensures end { OnOk result (self.new.end ≡ end_with self.old delta) }
        ensures stands { W.told → self.new.closed ≡ false → StandsFor (W.disk outside.new) self.new }
        ensures open { result ≢ Err CommitFault.Device → self.new.closed ≡ self.old.closed }
        ensures refused { OnErr result (self.new.commits ≡ self.old.commits) }
        // Why it is refused.
        ensures closed { result ≡ Err CommitFault.Closed → self.old.closed ≡ true }
        ensures closes { result ≡ Err CommitFault.Device → self.new.closed ≡ true }
        ensures stays_closed { self.old.closed ≡ true → result ≡ Err CommitFault.Closed }
        ensures fits { OnOk result (commit_need self.old delta ≤ limit) }
        ensures refusal { IfErr result (IsCommitRefusal self.old delta limit) }
        ensures unchanged { OnErr result (result ≢ Err CommitFault.Device → self.new ≡ self.old) }
        ensures untouched { OnErr result (result ≢ Err CommitFault.Device → outside.new ≡ outside.old) }
        // The files: the delta's record stands behind the former bytes of the half up to its last gate.
        ensures sealed { W.told → OnOk result (IsWith (take self.old.end (W.disk outside.old self.old.half).bytes) (record_of (atoms_in delta)) (W.disk outside.new self.old.half).bytes) }
        ensures others { W.told → (f : FileId) → f ≢ self.old.half → W.disk outside.new f ≡ W.disk outside.old f }
        // At each moment the database is the one before or the one after.
        ensures any_moment { W.told → self.old.closed ≡ false → LeavesOnly W.moment W.left_since outside.old outside.new
            (IsEither (database_of self.old) (database_after self.old delta) (W.emitted outside.old)) }
        // That is what the files hold as they read too, at every answer.
        ensures reads { W.told → self.old.closed ≡ false → Holds (λ f. (W.disk outside.new f).bytes) (database_of self.old) ⊎ Holds (λ f. (W.disk outside.new f).bytes) (database_after self.old delta) }
        ensures emitted { W.emitted outside.new ≡ W.emitted outside.old }
        ensures output { W.output_faults outside.new ≡ W.output_faults outside.old }
        ensures device { result ≡ Err CommitFault.Device → Rose (W.device_faults outside.old) (W.device_faults outside.new) }
        ensures device_later { W.device_faults outside.old ≤ W.device_faults outside.new }
        ensures device_still { result ≢ Err CommitFault.Device → W.device_faults outside.new ≡ W.device_faults outside.old }
    {
        if self.closed {
            return Err(CommitFault::Closed);
        }
        self.commits.reserve(1)?;
        let (prepared, next) = record_behind(self.alloc, &delta, self.end, limit)?;
        match seal(outside, self.half, prepared) {
            Ok(()) => {
                self.end = next;
                self.commits.push(delta).unwrap();
                Ok(())
            }
            Err(_) => {
                self.closed = true;
                drop(delta);
                Err(CommitFault::Device)
            }
        }
    }

    /// Writes the other half with all that is stored in its pages, and selects it.
    ///
    /// The store has to be closed or to stand for the outside, and is used up. `Full` comes exactly
    /// where the half has more bytes than the limit. Where it answers anything else than Ok and
    /// `Device`, no call on a file was made.
    pub fn checkpoint<W: Outside>(self, outside: &mut W, limit: u64) -> Result<(), CheckFault>
        requires stands { W.told → self.closed ≡ false → StandsFor (W.disk outside.old) self }
        requires limit { limit ≤ half_limit }
        // The files: the other half is selected, and is printed anew; the former one stays.
        ensures settled { W.told → OnOk result ((f : FileId) → IsSettled (W.disk outside.new f)) }
        ensures selects { W.told → OnOk result ((W.disk outside.new Select).bytes ≡ select_byte (other_half self.half) ∷ []) }
        ensures renewed { W.told → OnOk result ((W.disk outside.new (other_half self.half)).bytes ≡ half_with (database_of self)) }
        ensures holds { W.told → OnOk result (Holds (λ f. (W.disk outside.new f).bytes) (database_of self)) }
        ensures former { W.told → W.disk outside.new self.half ≡ W.disk outside.old self.half }
        // Why it is refused.
        ensures closed { result ≡ Err CheckFault.Closed → self.closed ≡ true }
        ensures stays_closed { self.closed ≡ true → result ≡ Err CheckFault.Closed }
        ensures fits { OnOk result (length (half_with (database_of self)) ≤ limit) }
        ensures refusal { IfErr result (IsCheckRefusal (database_of self) limit) }
        ensures untouched { OnErr result (result ≢ Err CheckFault.Device → outside.new ≡ outside.old) }
        // At each moment the database is the same.
        ensures any_moment { W.told → self.closed ≡ false → LeavesOnly W.moment W.left_since outside.old outside.new
            (IsStill (database_of self) (W.emitted outside.old)) }
        // The files hold it as they read too, at every answer.
        ensures reads { W.told → self.closed ≡ false → Holds (λ f. (W.disk outside.new f).bytes) (database_of self) }
        ensures emitted { W.emitted outside.new ≡ W.emitted outside.old }
        ensures output { W.output_faults outside.new ≡ W.output_faults outside.old }
        ensures device { result ≡ Err CheckFault.Device → Rose (W.device_faults outside.old) (W.device_faults outside.new) }
        ensures device_later { W.device_faults outside.old ≤ W.device_faults outside.new }
        ensures device_still { result ≢ Err CheckFault.Device → W.device_faults outside.new ≡ W.device_faults outside.old }
    {
        if self.closed {
            return Err(CheckFault::Closed);
        }
        let bytes = half_bytes(self.alloc, &self.base, &self.commits, limit)?;
        match switch_to(outside, other_half(self.half), &bytes) {
            Ok(()) => Ok(()),
            Err(_) => Err(CheckFault::Device),
        }
    }

    /// Writes the other half with all that is stored in its pages, widened to the relations of this
    /// catalogue, and selects it.
    ///
    /// The store has to be closed or to stand for the outside, and is used up. `Narrows` tells the first
    /// stored relation that the catalogue does not keep. `Full` comes only for a catalogue that keeps all,
    /// exactly where the half has more bytes than the limit. Where it answers anything else than Ok and
    /// `Device`, no call on a file was made.
    pub fn widen<W: Outside>(
        self,
        outside: &mut W,
        catalogue: &Catalogue,
        limit: u64,
    ) -> Result<(), WidenFault>
        requires stands { W.told → self.closed ≡ false → StandsFor (W.disk outside.old) self }
        requires limit { limit ≤ half_limit }
        // The files: the other half is selected, and is printed anew; the former one stays.
        ensures settled { W.told → OnOk result ((f : FileId) → IsSettled (W.disk outside.new f)) }
        ensures selects { W.told → OnOk result ((W.disk outside.new Select).bytes ≡ select_byte (other_half self.half) ∷ []) }
        ensures renewed { W.told → OnOk result ((W.disk outside.new (other_half self.half)).bytes ≡ half_with (widened (database_of self) catalogue.now)) }
        ensures holds { W.told → OnOk result (Holds (λ f. (W.disk outside.new f).bytes) (widened (database_of self) catalogue.now)) }
        ensures former { W.told → W.disk outside.new self.half ≡ W.disk outside.old self.half }
        // Why it is refused.
        ensures closed { result ≡ Err WidenFault.Closed → self.closed ≡ true }
        ensures stays_closed { self.closed ≡ true → result ≡ Err WidenFault.Closed }
        ensures wider { OnOk result (Wider self.base.catalogue catalogue.now) }
        ensures fits { OnOk result (length (half_with (widened (database_of self) catalogue.now)) ≤ limit) }
        ensures refusal { IfErr result (IsWidenRefusal (database_of self) catalogue.now limit) }
        ensures untouched { OnErr result (result ≢ Err WidenFault.Device → outside.new ≡ outside.old) }
        // At each moment the database is the one before or the widened one.
        ensures any_moment { W.told → self.closed ≡ false → LeavesOnly W.moment W.left_since outside.old outside.new
            (IsEither (database_of self) (widened (database_of self) catalogue.now) (W.emitted outside.old)) }
        // That is what the files hold as they read too, at every answer.
        ensures reads { W.told → self.closed ≡ false → Holds (λ f. (W.disk outside.new f).bytes) (database_of self) ⊎ Holds (λ f. (W.disk outside.new f).bytes) (widened (database_of self) catalogue.now) }
        ensures emitted { W.emitted outside.new ≡ W.emitted outside.old }
        ensures output { W.output_faults outside.new ≡ W.output_faults outside.old }
        ensures device { result ≡ Err WidenFault.Device → Rose (W.device_faults outside.old) (W.device_faults outside.new) }
        ensures device_later { W.device_faults outside.old ≤ W.device_faults outside.new }
        ensures device_still { result ≢ Err WidenFault.Device → W.device_faults outside.new ≡ W.device_faults outside.old }
    {
        if self.closed {
            return Err(WidenFault::Closed);
        }
        let bytes = widened_bytes(self.alloc, &self.base, &self.commits, catalogue, limit)?;
        match switch_to(outside, other_half(self.half), &bytes) {
            Ok(()) => Ok(()),
            Err(_) => Err(WidenFault::Device),
        }
    }
}

/// The other of two halves.
fn other_half(half: FileId) -> FileId
    ensures { result ≡ other_half half }
{
    match half {
        FileId::Left => FileId::Right,
        FileId::Right => FileId::Left,
        FileId::Select => FileId::Select,
    }
}

/// The delta's record, whose gate is at `end`, and the place of the gate behind it.
fn record_behind(
    alloc: Global,
    delta: &Delta,
    end: u64,
    limit: u64,
) -> Result<(Prepared, u64), CommitFault>
    requires proper { is_fail delta.now ≡ false }
    requires limit { limit ≤ half_limit }
    ensures body { IfOk result (λ x. x.0.body ≡ record_of (atoms_in delta.now)) }
    ensures end { IfOk result (λ x. x.0.end ≡ end) }
    ensures next { IfOk result (λ x. x.1 ≡ end + length (record_of (atoms_in delta.now)) + 1) }
    ensures fits { OnOk result (need_of (atoms_in delta.now) end ≤ limit) }
    ensures delta { OnOk result (IsDelta delta.now) }
    ensures refusal { IfErr result (IsRecordRefusal (atoms_in delta.now) end limit) }
{
    let _fails = delta.is_fail();
    match prepare(alloc, delta, end, limit) {
        Ok(prepared) => {
            let next = prepared.next_gate();
            Ok((prepared, next))
        }
        Err(PrepareFault::Full { need, limit }) => Err(CommitFault::Full { need, limit }),
        Err(PrepareFault::Memory) => Err(CommitFault::Memory),
    }
}

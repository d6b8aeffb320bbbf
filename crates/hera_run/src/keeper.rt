//! What keeps the commits of a run.
ghost use Rattle.std.specs.Prelude.{◌≡◌, [], ◌∷◌, true, false, ℕ, List, Option, None, Err, IfOk, IfErr, OnOk};
ghost use Rattle.std.specs.List.{list_all};
ghost use Rattle.hera_meaning.specs.Deltas.{State, apply_of};
ghost use Rattle.hera_meaning.specs.Fits.{is_delta_of};
ghost use Rattle.hera_machine.specs.Over.{state_over};
ghost use Rattle.rel_pages.specs.Stored.{Stored};
ghost use Rattle.hera_volume.specs.Disk.{Disk, IsImage};
ghost use Rattle.hera_volume.specs.Time.{LeavesOnly};
ghost use Rattle.hera_volume.specs.declared.file_id.FileId.{FileId};
ghost use Rattle.hera_store.specs.Databases.{Database};
ghost use Rattle.hera_store.specs.Standing.{database_of};
ghost use Rattle.hera_outcome.specs.Answers.{IsSpoken};
ghost use Rattle.hera_outcome.specs.Cut.{IsCutWith, with_state};
ghost use Rattle.hera_outcome.specs.Passages.{passage};
ghost use Rattle.hera_outcome.specs.Told.{FaultsBy};
ghost use Rattle.hera_run.specs.Action.{event_of, IsProper};
ghost use Rattle.hera_run.specs.Fitting.{fits, gate_behind};
ghost use Rattle.hera_run.specs.Keeping.{IsLevelled, database_with};
ghost use Rattle.hera_run.specs.declared.carry.Action.{Action};

use crate::carry::keep_in;
use commit_levels::Levels;
use delta_atoms::Delta;
use hera_meaning::Line;
use hera_outcome::Stop;
use hera_store::Store;
use hera_volume::Outside;
use rel_pages::Base;
use std::alloc::{AllocError, Global};

/// Keeps the commits of a run one by one: in memory, or in the store of a folder.
pub trait Keeper {
    /// What the commits rest on.
    ghost rests_on: { Self → Stored };

    /// The database with all that is kept.
    ghost database: { Self → Database };

    /// The gate behind which the record of the next commit goes, where it goes to a half.
    ghost gate: { Self → Option ℕ };

    /// The line in place of a commit that is refused, with this state behind it.
    ghost refusal: { Self → State → Option (List ℕ) };

    /// Whether it takes a commit more.
    ghost ready: { Self → Type 0 };

    /// Whether these files are as it keeps them.
    ghost stands: { (FileId → Disk) → Self → Type 0 };

    /// Whether this state is found in files that a stop leaves of such disks, or of what becomes of them.
    ghost finds: { Self → (FileId → Disk) → (FileId → List ℕ) → State → Type 0 };

    /// Whether it makes no call on a file.
    ghost apart: { Type 0 };

    /// The base.
    fn base(&self) -> &Base
        ensures base { result.now ≡ rests_on self.now };

    /// Few deltas that do what the commits do.
    fn deltas(&self) -> &[Delta]
        ensures state { ready self.now → state_over (rests_on self.now).state result.now ≡ (database self.now).state }
        ensures known { ready self.now → list_all (is_delta_of (rests_on self.now).catalogue) result.now ≡ true };

    /// Tests a commit before it is kept, and gives the line in its place where it is refused.
    fn test(&self, alloc: Global, delta: &Delta) -> Result<Option<Line>, AllocError>
        requires ready { ready self.now }
        requires proper { IsProper (database self.now).catalogue (Action.Store delta.now) }
        ensures refusal { IfOk result (λ line. line ≡ refusal self.now (apply_of (database self.now).state delta.now)) };

    /// Keeps one commit more, that is not refused. At each moment it is kept or not. `Full` comes only for one that does
    /// not fit, which is never kept, and then no call on a file is made.
    fn keep<W: Outside>(&mut self, outside: &mut W, delta: Delta) -> Result<(), Stop>
        requires ready { ready self.old }
        requires stands { W.told → stands (W.disk outside.old) self.old }
        requires proper { IsProper (database self.old).catalogue (Action.Store delta) }
        requires allowed { refusal self.old (apply_of (database self.old).state delta) ≡ None }
        ensures ready { OnOk result (ready self.new) }
        ensures stands { W.told → OnOk result (stands (W.disk outside.new) self.new) }
        ensures kept { OnOk result (database self.new ≡ with_state (database self.old) (apply_of (database self.old).state delta)) }
        ensures gate { OnOk result (gate self.new ≡ gate_behind (gate self.old) delta) }
        ensures refusal { OnOk result (refusal self.new ≡ refusal self.old) }
        ensures fits { OnOk result (fits (gate self.old) delta ≡ true) }
        ensures full { result ≡ Err Stop.Full → fits (gate self.old) delta ≡ false }
        ensures full_kept { result ≡ Err Stop.Full → database self.new ≡ database self.old }
        ensures full_stands { W.told → result ≡ Err Stop.Full → stands (W.disk outside.new) self.new }
        ensures nothing_done { fits (gate self.old) delta ≡ false → outside.new ≡ outside.old }
        ensures said { W.emitted outside.new ≡ W.emitted outside.old }
        ensures any_moment { W.told → LeavesOnly W.moment W.left_since outside.old outside.new
            (IsCutWith (finds self.old (W.disk outside.old)) (event_of (Action.Store delta) (database self.old).state ∷ []) (database self.old).state (W.emitted outside.old)) }
        ensures finds { W.told → OnOk result ((files : FileId → List ℕ) (s : State) → finds self.new (W.disk outside.new) files s → finds self.old (W.disk outside.old) files s) }
        ensures faults { FaultsBy result (passage W.Output W.Outside.own outside.old outside.new) }
        ensures apart { apart → outside.new ≡ outside.old }
        ensures spoken { apart → IfErr result IsSpoken };

    /// What a stop leaves of files that are as it keeps them is found with its own state.
    ghost finds_own: { (k : Self) (disks : FileId → Disk) (files : FileId → List ℕ) → stands disks k → ((f : FileId) → IsImage (disks f) (files f)) → finds k disks files (database k).state };
}

/// Keeps commits in the store of a folder.
#[derive(Drop)]
pub struct InFolder {
    /// The store.
    pub store: Store,
    /// What its commits do, in few deltas.
    pub levels: Levels,
}

impl InFolder {
    /// Keeps what comes in this store.
    pub fn over(alloc: Global, store: Store) -> Result<InFolder, AllocError>
        ensures store { IfOk result (λ keeper. keeper.store ≡ store) }
        ensures levelled { IfOk result (λ keeper. IsLevelled keeper.levels store) }
    {
        let levels = Levels::of(alloc, store.commits())?;
        Ok(InFolder { store, levels })
    }
}

impl Keeper for InFolder {
    ghost use Rattle.std.specs.Prelude.{Some, None};
    ghost use Rattle.hera_store.specs.Standing.{StandsFor, database_of};
    ghost use Rattle.hera_outcome.specs.Cut.{HoldsWith};
    ghost use Rattle.hera_run.specs.Keeping.{IsReadyWith, finds_settled};

    ghost rests_on = { λ k. k.store.base };

    ghost database = { λ k. database_of k.store };

    ghost gate = { λ k. Some k.store.end };

    ghost refusal = { λ k s. None };

    ghost ready = { λ k. IsReadyWith k.levels k.store };

    ghost stands = { λ disks k. StandsFor disks k.store };

    ghost finds = { λ k disks files s. HoldsWith (database_of k.store) files s };

    ghost apart = { ⊥ };

    fn base(&self) -> &Base {
        self.store.base()
    }

    fn deltas(&self) -> &[Delta] {
        self.levels.deltas()
    }

    fn test(&self, alloc: Global, delta: &Delta) -> Result<Option<Line>, AllocError> {
        let _ = alloc;
        let _ = delta;
        Ok(None)
    }

    fn keep<W: Outside>(&mut self, outside: &mut W, delta: Delta) -> Result<(), Stop> {
        self.levels.push(&delta)?;
        keep_in(outside, &mut self.store, delta)
    }

    ghost finds_own = { λ k disks files stands images. finds_settled disks k.store files stands images };
}

/// Keeps commits in memory, over a base.
#[derive(Drop)]
pub struct InMemory {
    /// The base.
    pub base: Base,
    /// What the commits do, in few deltas.
    pub levels: Levels,
}

impl InMemory {
    /// Keeps what comes over this base.
    pub fn over(alloc: Global, base: Base) -> InMemory
        ensures base { result.base ≡ base }
        ensures levels { result.levels ≡ [] }
    {
        InMemory {
            base,
            levels: Levels::new(alloc),
        }
    }
}

impl Keeper for InMemory {
    ghost use Rattle.std.specs.Prelude.{◌≡◌, true, None};
    ghost use Rattle.std.specs.List.{list_all};
    ghost use Rattle.hera_meaning.specs.Fits.{is_delta_of};
    ghost use Rattle.hera_run.specs.Keeping.{database_with, AreLeft};

    ghost rests_on = { λ k. k.base };

    ghost database = { λ k. database_with k.base k.levels };

    ghost gate = { λ k. None };

    ghost refusal = { λ k s. None };

    ghost ready = { λ k. list_all (is_delta_of k.base.catalogue) k.levels ≡ true };

    ghost stands = { λ disks k. Unit {0} };

    ghost finds = { λ k disks files s. AreLeft disks files };

    ghost apart = { Unit {0} };

    fn base(&self) -> &Base {
        &self.base
    }

    fn deltas(&self) -> &[Delta] {
        self.levels.deltas()
    }

    fn test(&self, alloc: Global, delta: &Delta) -> Result<Option<Line>, AllocError> {
        let _ = alloc;
        let _ = delta;
        Ok(None)
    }

    fn keep<W: Outside>(&mut self, outside: &mut W, delta: Delta) -> Result<(), Stop> {
        let _ = outside;
        self.levels.push(&delta)?;
        Ok(())
    }

    ghost finds_own = { λ k disks files stands images. images };
}

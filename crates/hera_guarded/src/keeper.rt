//! What keeps the commits of a guarded run.
use crate::rules::Rules;
use delta_atoms::Delta;
use hera_guard::added_rows_suffice;
use hera_meaning::Line;
use hera_outcome::Stop;
use hera_run::{InFolder, Keeper};
use hera_volume::Outside;
use rel_pages::Base;
use std::alloc::{AllocError, Global};

/// Keeps commits in the store of a folder, but none behind which a row breaks a guard.
#[derive(Drop)]
pub struct GuardedFolder<'a> {
    /// The folder.
    pub kept: InFolder,
    /// The guards.
    pub rules: Rules<'a>,
}

impl<'a> Keeper for GuardedFolder<'a> {
    ghost use Rattle.std.specs.Prelude.{Some};
    ghost use Rattle.hera_store.specs.Standing.{StandsFor, database_of};
    ghost use Rattle.hera_guard.specs.Guarded.{refusal_of};
    ghost use Rattle.hera_outcome.specs.Cut.{HoldsWith};
    ghost use Rattle.hera_run.specs.Keeping.{finds_settled};
    ghost use Rattle.hera_guarded.specs.Guarding.{IsGuardedStore};

    ghost rests_on = { λ k. k.kept.store.base };

    ghost database = { λ k. database_of k.kept.store };

    ghost gate = { λ k. Some k.kept.store.end };

    ghost refusal = { λ k s. refusal_of k.rules.hosts.now.names k.rules.table k.kept.store.base.catalogue s };

    ghost ready = { λ k. IsGuardedStore k.rules.hosts.now.names k.rules.lines.now k.rules.table k.kept.levels k.kept.store };

    ghost stands = { λ disks k. StandsFor disks k.kept.store };

    ghost finds = { λ k disks files s. HoldsWith (database_of k.kept.store) files s };

    ghost apart = { ⊥ };

    fn base(&self) -> &Base {
        self.kept.base()
    }

    fn deltas(&self) -> &[Delta] {
        self.kept.deltas()
    }

    fn test(&self, alloc: Global, delta: &Delta) -> Result<Option<Line>, AllocError> {
        added_rows_suffice();
        let _ = delta.is_fail();
        self.rules
            .added(alloc, self.kept.store.base().catalogue(), delta)
    }

    fn keep<W: Outside>(&mut self, outside: &mut W, delta: Delta) -> Result<(), Stop> {
        self.kept.keep(outside, delta)
    }

    ghost finds_own = { λ k disks files stands images. finds_settled disks k.kept.store files stands images };
}

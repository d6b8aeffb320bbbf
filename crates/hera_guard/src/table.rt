//! Tables of guards.
ghost use Rattle.std.specs.Prelude.{◌≡◌, ◌++◌, ◌∷◌, [], false, IfOk, IfSome, OnOk, OnErr};
ghost use Rattle.hera_meaning.specs.Deltas.{IsState, IsDeltaOf, is_fail};
ghost use Rattle.hera_host.specs.Tables.{specs_of};
ghost use Rattle.when_overlay.specs.Changed.{after_all};
ghost use Rattle.when_overlay.specs.Layered.{IsTip, path};
ghost use Rattle.hera_guard.specs.Guards.{IsGuard, AreGuards, IsBreakOf, breaks, first, added_of};

use crate::walk::{first_added, first_stored};
use delta_atoms::Delta;
use hera_host::HostTable;
use hera_meaning::RelId;
use hera_row::Catalogue;
use hera_rows::RowBuf;
use std::alloc::{AllocError, Global};
use std::marker::Model;
use when_overlay::View;

/// A guard: rows of the relation are to have, at this place counted from 0, a field for which the host function of this
/// number answers true.
#[derive(Clone, Copy)]
pub struct Guard {
    pub rel: RelId,
    pub place: usize,
    pub host: u32,
}

/// A row that breaks a guard: the number of the guard, counted from 0, and the row with its relation.
#[derive(Drop)]
pub struct Break {
    pub guard: usize,
    pub rel: RelId,
    pub row: RowBuf,
}

/// Guards in the order in which they were added. A guard's number is its place.
#[derive(Drop)]
pub struct GuardTable {
    guards: Vec<Guard>,
}

impl Model for GuardTable {
    ghost use Rattle.std.specs.Prelude.{List};
    ghost use Rattle.hera_guard.specs.declared.table.Guard.{Guard};

    ghost Value = { List Guard };

    ghost view = { λ t. t.guards.items };
}

impl GuardTable {
    /// No guards. It takes no memory.
    pub fn new(alloc: Global) -> GuardTable
        ensures { result ≡ [] }
    {
        GuardTable {
            guards: Vec::new(alloc),
        }
    }

    /// Puts a guard behind the others: rows of the relation must pass the host of this number with their field at the
    /// place. Without memory the table is as before.
    pub fn add(
        &mut self,
        catalogue: &Catalogue,
        hosts: &HostTable,
        rel: RelId,
        place: usize,
        host: u32,
    ) -> Result<(), AllocError>
        requires { IsGuard catalogue.now hosts.now.names (record { rel = rel; place = place; host = host }) }
        ensures added { OnOk result (self.new ≡ self.old ++ record { rel = rel; place = place; host = host } ∷ []) }
        ensures unchanged { OnErr result (self.new ≡ self.old) }
    {
        prove!(usize::from(rel.0) < catalogue.len());
        prove!(host < hosts.len());
        self.guards.push(Guard { rel, place, host })?;
        Ok(())
    }

    /// The first row of the view's state that breaks a guard, in order of relation, then row, then guard; `None` exactly
    /// where there is none. It looks at each row of each relation that has a guard, up to that row.
    pub fn test_all(&self, view: &View<'_>, hosts: &HostTable) -> Result<Option<Break>, AllocError>
        requires guards { AreGuards view.now.base.now.catalogue hosts.now.names self.now }
        requires tip { IsTip view.now.layers.now.layers view.now.tip }
        requires state { IsState view.now.base.now.catalogue (after_all view.now.base.now.state (view.now.commits.now ++ path view.now.layers.now.layers view.now.tip)) }
        ensures known { IfOk result (λ found. IfSome found (IsBreakOf view.now.base.now.catalogue self.now)) }
        ensures first { IfOk result (λ found. found ≡ first (breaks (specs_of hosts.now.names) self.now view.now.base.now.catalogue (after_all view.now.base.now.state (view.now.commits.now ++ path view.now.layers.now.layers view.now.tip)))) }
    {
        let alloc = *self.guards.allocator();
        first_stored(alloc, &self.guards, view, hosts)
    }

    /// The first of the rows that the delta puts in that breaks a guard, in order of relation, then row, then guard; `None`
    /// exactly where there is none. It looks at no other row.
    pub fn test_added(
        &self,
        catalogue: &Catalogue,
        delta: &Delta,
        hosts: &HostTable,
    ) -> Result<Option<Break>, AllocError>
        requires guards { AreGuards catalogue.now hosts.now.names self.now }
        requires proper { is_fail delta.now ≡ false }
        requires rows { IsDeltaOf catalogue.now delta.now }
        ensures known { IfOk result (λ found. IfSome found (IsBreakOf catalogue.now self.now)) }
        ensures first { IfOk result (λ found. found ≡ first (breaks (specs_of hosts.now.names) self.now catalogue.now (added_of catalogue.now delta.now))) }
    {
        let alloc = *self.guards.allocator();
        first_added(alloc, &self.guards, catalogue, delta, hosts)
    }
}

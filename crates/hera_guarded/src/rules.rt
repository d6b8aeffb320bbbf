//! The guards of a folder, with the lines that ask for them.
ghost use Rattle.std.specs.Prelude.{◌≡◌, ◌<◌, IfOk, IfSome, Some, false, length, slice_get};
ghost use Rattle.std.specs.Option.{option_map};
ghost use Rattle.hera_meaning.specs.Deltas.{IsState, IsDelta, IsDeltaOf, is_fail};
ghost use Rattle.hera_host.specs.Tables.{specs_of};
ghost use Rattle.hera_store.specs.Standing.{database_of};
ghost use Rattle.hera_guard.specs.Guards.{IsBreakOf, breaks, first, added_of};
ghost use Rattle.hera_guard.specs.Guarded.{break_text, guard_name, refusal_of};
ghost use Rattle.hera_guard_lines.specs.declared.lines.GuardLine.{GuardLine};
ghost use Rattle.hera_guarded.specs.Guarding.{AreRules};

use delta_atoms::Delta;
use hera_guard::{Break, GuardTable, break_line};
use hera_guard_lines::GuardLines;
use hera_host::HostTable;
use hera_meaning::Line;
use hera_row::Catalogue;
use hera_store::Store;
use std::alloc::{AllocError, Global};
use when_overlay::{Layers, View};

/// Guards, the lines that they were read from, and the hosts that both name.
#[derive(Drop)]
pub struct Rules<'a> {
    /// The guards.
    pub table: GuardTable,
    /// The lines, one a guard.
    pub lines: &'a GuardLines,
    /// The hosts.
    pub hosts: &'a HostTable,
}

impl<'a> Rules<'a> {
    /// The name of the host of the guard of this number.
    fn host_name(&self, number: usize) -> &[u8]
        requires there { number < length self.now.lines.now }
        ensures { (line : GuardLine) → slice_get self.now.lines.now number ≡ Some line → result.now ≡ line.host.name }
    {
        self.lines.items()[number].host.name.bytes()
    }

    /// The line that tells the break that was found, if one was.
    pub(crate) fn line(
        &self,
        alloc: Global,
        catalogue: &Catalogue,
        found: Option<Break>,
    ) -> Result<Option<Line>, AllocError>
        requires rules { AreRules catalogue.now self.now.hosts.now.names self.now.lines.now self.now.table }
        requires known { IfSome found (IsBreakOf catalogue.now self.now.table) }
        ensures { IfOk result (λ line. line ≡ option_map (λ b. break_text catalogue.now (guard_name self.now.hosts.now.names self.now.table b.guard) b) found) }
    {
        match found {
            None => Ok(None),
            Some(found) => {
                let line = break_line(alloc, catalogue, self.host_name(found.guard), &found)?;
                Ok(Some(line))
            }
        }
    }

    /// The line of the first row of the store that breaks a guard.
    pub(crate) fn stored(&self, alloc: Global, store: &Store) -> Result<Option<Line>, AllocError>
        requires rules { AreRules store.now.base.catalogue self.now.hosts.now.names self.now.lines.now self.now.table }
        requires state { IsState store.now.base.catalogue (database_of store.now).state }
        ensures { IfOk result (λ line. line ≡ refusal_of self.now.hosts.now.names self.now.table store.now.base.catalogue (database_of store.now).state) }
    {
        let layers = Layers::new(alloc);
        let view = View {
            base: store.base(),
            commits: store.commits(),
            layers: &layers,
            tip: None,
        };
        let found = self.table.test_all(&view, self.hosts)?;
        self.line(alloc, store.base().catalogue(), found)
    }

    /// The line of the first of the rows that a commit puts in that breaks a guard.
    pub(crate) fn added(
        &self,
        alloc: Global,
        catalogue: &Catalogue,
        delta: &Delta,
    ) -> Result<Option<Line>, AllocError>
        requires rules { AreRules catalogue.now self.now.hosts.now.names self.now.lines.now self.now.table }
        requires proper { is_fail delta.now ≡ false }
        requires rows { IsDeltaOf catalogue.now delta.now }
        ensures line { IfOk result (λ line. line ≡ refusal_of self.now.hosts.now.names self.now.table catalogue.now (added_of catalogue.now delta.now)) }
    {
        let found = self.table.test_added(catalogue, delta, self.hosts)?;
        self.line(alloc, catalogue, found)
    }
}

//! Folders opened for guarded runs.
ghost use Rattle.std.specs.Prelude.{◌≡◌, ◌<◌, ◌⊎◌, IfOk, IfErr, Some, length, slice_get};
ghost use Rattle.hera_meaning.specs.declared.schemas.RelDecl.{RelDecl};
ghost use Rattle.hera_bind.specs.Having.{AllHas};
ghost use Rattle.hera_outcome.specs.Passages.{passage};
ghost use Rattle.hera_run.specs.Opening.{IsOpen};
ghost use Rattle.hera_guarded.specs.Guarding.{AreRules, IsUnruled};
ghost use Rattle.hera_guarded.specs.Opening.{IsRenewedUnder, IsUnrenewed, IsReadyUnder, IsUnreadyUnder};

use hera_bind::first_missing;
use hera_guard::GuardTable;
use hera_guard_lines::{GuardLines, NameFault, guards_of};
use hera_host::HostTable;
use hera_meaning::RelDecl;
use hera_outcome::{Refusal, Stop};
use hera_row::Catalogue;
use hera_run::{open_folder, rewrite};
use hera_script::Cause;
use hera_store::Store;
use hera_volume::Outside;
use std::alloc::Global;

/// The refusal of a program whose relation at this place the catalogue lacks.
fn differing(own: &[RelDecl], place: usize) -> Stop
    requires there { place < length own.now }
    ensures { (d : RelDecl) → slice_get own.now place ≡ Some d → (result ≡ Stop.Memory) ⊎ (result ≡ Stop.Refused (Refusal.Differing d.name)) }
{
    match own[place].name.copy() {
        Ok(relation) => Stop::Refused(Refusal::Differing { relation }),
        Err(_) => Stop::Memory,
    }
}

/// The guards that the lines mean over a catalogue that has all relations of a program.
pub(crate) fn guards_for(
    alloc: Global,
    own: &[RelDecl],
    lines: &GuardLines,
    catalogue: &Catalogue,
    hosts: &HostTable,
) -> Result<GuardTable, Stop>
    ensures has { IfOk result (λ table. AllHas catalogue.now own.now) }
    ensures rules { IfOk result (λ table. AreRules catalogue.now hosts.now.names lines.now table) }
    ensures unruled { IfErr result (IsUnruled hosts.now.names lines.now own.now catalogue.now) }
{
    match first_missing(catalogue, own) {
        None => match guards_of(alloc, lines, catalogue, hosts) {
            Ok(table) => Ok(table),
            Err(NameFault::Unknown { at }) => Err(faulty(Cause::Unknown, at)),
            Err(NameFault::Mismatch { at }) => Err(faulty(Cause::Mismatch, at)),
            Err(NameFault::Memory) => Err(Stop::Memory),
        },
        Some(place) => Err(differing(own, place)),
    }
}

/// The refusal of lines with a name that has this fault.
fn faulty(cause: Cause, at: u32) -> Stop
    ensures { result ≡ Stop.Refused (Refusal.Script cause at) }
{
    Stop::Refused(Refusal::Script { cause, at })
}

/// Writes an open folder anew in format 2, and gives it with the guards that the lines mean.
fn renew_under<W: Outside>(
    alloc: Global,
    own: &[RelDecl],
    lines: &GuardLines,
    store: Store,
    outside: &mut W,
    hosts: &HostTable,
) -> Result<(Store, GuardTable), Stop>
    requires opens { IsOpen store (passage W.Output W.Outside.own outside.old outside.old) }
    ensures renewed { IfOk result (λ both. IsRenewedUnder hosts.now.names lines.now own.now store both.0 both.1 (passage W.Output W.Outside.own outside.old outside.new)) }
    ensures unrenewed { IfErr result (λ stop. IsUnrenewed hosts.now.names lines.now own.now store stop (passage W.Output W.Outside.own outside.old outside.new)) }
{
    let next = rewrite(alloc, store, outside)?;
    let table = guards_for(alloc, own, lines, next.base().catalogue(), hosts)?;
    Ok((next, table))
}

/// Opens the folder for a program with these relations, under the guards that the lines mean. A half of format 1 is
/// rewritten in format 2 once all relations and names are found.
pub fn open_under<W: Outside>(
    alloc: Global,
    own: &[RelDecl],
    lines: &GuardLines,
    outside: &mut W,
    hosts: &HostTable,
) -> Result<(Store, GuardTable), Stop>
    ensures ready { IfOk result (λ both. IsReadyUnder hosts.now.names lines.now own.now both.0 both.1 (passage W.Output W.Outside.own outside.old outside.new)) }
    ensures unready { IfErr result (λ stop. IsUnreadyUnder hosts.now.names lines.now own.now stop (passage W.Output W.Outside.own outside.old outside.new)) }
{
    let store = open_folder(alloc, outside)?;
    let table = guards_for(alloc, own, lines, store.base().catalogue(), hosts)?;
    if store.old_format() {
        renew_under(alloc, own, lines, store, outside, hosts)
    } else {
        Ok((store, table))
    }
}

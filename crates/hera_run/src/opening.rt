//! Folders opened, and made ready for events.
ghost use Rattle.std.specs.Prelude.{◌≡◌, IfOk, IfErr, true, false, IsTrue, IsFalse};
ghost use Rattle.hera_bind.specs.Having.{AllHas};
ghost use Rattle.rel_format.specs.Versions.{is_old};
ghost use Rattle.hera_outcome.specs.Passages.{passage};
ghost use Rattle.hera_run.specs.Opening.{IsOpen, IsOpened, IsUnopened, IsRewritten, IsUnwritten, IsReady, IsUnready};

use hera_bind::first_missing;
use hera_meaning::RelDecl;
use hera_outcome::{Refusal, Stop};
use hera_row::Catalogue;
use hera_store::{CheckFault, OpenFault, Store, open_store};
use hera_volume::Outside;
use rel_format::HALF_LIMIT;
use std::alloc::Global;

/// Opens the database in the folder, once its files are synced.
pub fn open_folder<W: Outside>(alloc: Global, outside: &mut W) -> Result<Store, Stop>
    ensures opened { IfOk result (λ store. IsOpened store (passage W.Output W.Outside.own outside.old outside.new)) }
    ensures unopened { IfErr result (λ stop. IsUnopened stop (passage W.Output W.Outside.own outside.old outside.new)) }
{
    match open_store(alloc, outside) {
        Ok(store) => Ok(store),
        Err(OpenFault::NoDatabase) => Err(Stop::Refused(Refusal::NoDatabase)),
        Err(OpenFault::Damaged { file, at }) => Err(Stop::Refused(Refusal::Damaged { file, at })),
        Err(OpenFault::Device) => Err(Stop::Device),
        Err(OpenFault::Memory) => Err(Stop::Memory),
    }
}

/// Writes the other half of an open folder in format 2 with all that is stored in its pages, selects it, and opens the
/// folder again.
pub fn rewrite<W: Outside>(alloc: Global, store: Store, outside: &mut W) -> Result<Store, Stop>
    requires opens { IsOpen store (passage W.Output W.Outside.own outside.old outside.old) }
    ensures rewritten { IfOk result (λ next. IsRewritten store next (passage W.Output W.Outside.own outside.old outside.new)) }
    ensures unwritten { IfErr result (λ stop. IsUnwritten store stop (passage W.Output W.Outside.own outside.old outside.new)) }
{
    match store.checkpoint(outside, HALF_LIMIT) {
        Ok(()) => open_folder(alloc, outside),
        Err(CheckFault::Full { .. }) => Err(Stop::Full),
        Err(CheckFault::Device) => Err(Stop::Device),
        Err(CheckFault::Memory) => Err(Stop::Memory),
        Err(CheckFault::Closed) => unreachable!(),
    }
}

/// Opens the folder for a program with these relations. A half of format 1 that has all of them is rewritten in format 2.
pub fn open_for<W: Outside>(alloc: Global, own: &[RelDecl], outside: &mut W) -> Result<Store, Stop>
    ensures ready { IfOk result (λ store. IsReady own.now store (passage W.Output W.Outside.own outside.old outside.new)) }
    ensures unready { IfErr result (λ stop. IsUnready own.now stop (passage W.Output W.Outside.own outside.old outside.new)) }
{
    let store = open_folder(alloc, outside)?;
    if is_to_rewrite(own, &store) {
        rewrite(alloc, store, outside)
    } else {
        Ok(store)
    }
}

/// Whether the store's half has format 1, and all these relations.
fn is_to_rewrite(own: &[RelDecl], store: &Store) -> bool
    ensures old { IsTrue result → is_old store.now.base.version ≡ true }
    ensures has { IsTrue result → AllHas store.now.base.catalogue own.now }
    ensures new { IsFalse result → AllHas store.now.base.catalogue own.now → is_old store.now.base.version ≡ false }
{
    store.old_format() && has_all(store.base().catalogue(), own)
}

/// Whether a catalogue has each of these relations with an equal schema.
fn has_all(catalogue: &Catalogue, own: &[RelDecl]) -> bool
    ensures has { IsTrue result → AllHas catalogue.now own.now }
    ensures lacks { IsFalse result → ¬ AllHas catalogue.now own.now }
{
    match first_missing(catalogue, own) {
        None => true,
        Some(_) => false,
    }
}

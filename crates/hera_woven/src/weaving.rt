//! Sessions woven over the folder, step by step.
ghost use Rattle.std.specs.Prelude.{◌≡◌, ◌<◌, ◌%◌, ◌++◌, ◌∷◌, [], ℕ, List, Some, IfErr, OnOk, is_some, length, slice_get};
ghost use Rattle.hera_host.specs.Tables.{specs_of};
ghost use Rattle.hera_store.specs.Standing.{StandsFor};
ghost use Rattle.hera_outcome.specs.Passages.{passage};
ghost use Rattle.hera_weave.specs.Looms.{seats_left};
ghost use Rattle.hera_weave.specs.Standing.{outcome_in};
ghost use Rattle.hera_woven.specs.Going.{Plan, Carries, events_next, IsBehind, IsBehindSome, IsWoven, IsHeldUp};

use crate::keeping::Folder;
use hera_host::HostTable;
use hera_outcome::Stop;
use hera_volume::Outside;
use hera_weave::{Rota, Weave, WeaveEvent};
use std::alloc::Global;

/// Makes the step of the session that is due, and carries out what it closes with, if it does.
fn step_on<W: Outside>(
    alloc: Global,
    weave: &mut Weave<'_>,
    rota: &mut Rota,
    folder: &mut Folder,
    session: usize,
    outside: &mut W,
    hosts: &HostTable,
) -> Result<(), Stop>
    requires behind { IsBehindSome (specs_of hosts.now.names) weave.old rota.old folder.old }
    requires due { slice_get rota.old.opens (rota.old.number % length rota.old.opens) ≡ Some session }
    requires stands { W.told → StandsFor (W.disk outside.old) folder.old.store }
    ensures carries { (plan : Plan) → (schedule : List ℕ) → IsBehind (specs_of hosts.now.names) plan schedule weave.old rota.old folder.old
        → Carries (events_next (specs_of hosts.now.names) plan schedule session) folder.old.store folder.new.store result (passage W.Output W.Outside.own outside.old outside.new) }
    ensures behind { (plan : Plan) → (schedule : List ℕ) → IsBehind (specs_of hosts.now.names) plan schedule weave.old rota.old folder.old
        → OnOk result (IsBehind (specs_of hosts.now.names) plan (schedule ++ session ∷ []) weave.new rota.new folder.new) }
    ensures less { OnOk result (seats_left weave.new.seats < seats_left weave.old.seats) }
{
    let event = weave.step(session, folder.store.base(), &folder.commits, hosts)?;
    let closes = has_closed(&event);
    folder.close(alloc, session, event, outside)?;
    rota.pass(session, closes);
    Ok(())
}

/// Whether the session closed.
fn has_closed(event: &WeaveEvent) -> bool
    ensures { result ≡ is_some (outcome_in event.now) }
{
    !matches!(event, WeaveEvent::Quiet)
}

/// Makes step after step, until all sessions have closed.
pub(crate) fn weave_all<W: Outside>(
    alloc: Global,
    weave: &mut Weave<'_>,
    rota: &mut Rota,
    folder: &mut Folder,
    outside: &mut W,
    hosts: &HostTable,
) -> Result<(), Stop>
    requires behind { (plan : Plan) × IsBehind (specs_of hosts.now.names) plan [] weave.old rota.old folder.old }
    requires stands { W.told → StandsFor (W.disk outside.old) folder.old.store }
    ensures woven { (plan : Plan) → IsBehind (specs_of hosts.now.names) plan [] weave.old rota.old folder.old → OnOk result (IsWoven (specs_of hosts.now.names) plan folder.new.store (passage W.Output W.Outside.own outside.old outside.new)) }
    ensures held_up { (plan : Plan) → IsBehind (specs_of hosts.now.names) plan [] weave.old rota.old folder.old → IfErr result (IsHeldUp (specs_of hosts.now.names) plan folder.new.store (passage W.Output W.Outside.own outside.old outside.new)) }
{
    'steps: while let Some(session) = rota.next() {
        step_on(alloc, weave, rota, folder, session, outside, hosts)?;
    }
    Ok(())
}

//! Deltas: layers under which the machine reads, and the pending delta. What names a relation is given its
//! rows before the pending delta is changed.
ghost use Rattle.std.specs.Prelude.{true, ◌≡◌, ◌+◌, ◌<◌, ◌^◌, false, suc, [], ◌∷◌, map, IfOk, OnOk, OnErr};
ghost use Rattle.hera_meaning.specs.Deltas.{State, atoms, is_fail, apply_of, smash_of};
ghost use Rattle.hera_meaning.specs.Fits.{is_delta_of};
ghost use Rattle.hera_code.specs.Machine.{quiet, commits, on_top, enters, leaves_layer, applies};
ghost use Rattle.hera_reads.specs.Branched.{pending_of};
ghost use Rattle.hera_frames.specs.Items.{AreHeld, collected};
ghost use Rattle.hera_reads.specs.Walking.{AreGiven};
ghost use Rattle.hera_steps.specs.Telling.{step_at};
ghost use Rattle.hera_steps.specs.Working.{machine_at, NameNone, NamesNothing};

use super::{Running, stuck};
use crate::events::{End, Told};
use delta_atoms::Delta;
use hera_fits::is_delta_of;
use hera_frames::{Callers, Operands, any_named, settle_frames, settle_walks};
use hera_meaning::{RelDecl, TrapName};
use hera_reads::{Changes, Stack};
use hera_values::let_go;
use smash_merge::smash_into;
use std::alloc::{AllocError, Global};
use std::mem::replace;
use when_overlay::Stored;

/// Collects the operands that name a relation. Without memory they are lost.
fn collect(
    alloc: Global,
    operands: &mut Operands,
    changes: &Changes,
    stored: &Stored<'_>,
) -> Result<(), AllocError>
    ensures done { let s = stored.now.state in OnOk result (operands.new.items ≡ map (collected s changes.now.layers) operands.old.items) }
    ensures err { OnErr result (operands.new.items ≡ []) }
{
    let named = replace(operands, Operands::new(alloc));
    let settled = named.settle(alloc, changes, stored)?;
    let_go(replace(operands, settled));
    Ok(())
}

impl Running<'_> {
    pub(super) fn enter(&mut self, at: u32) -> Result<Told, AllocError>
        requires { self.old.at + 1 < 2 ^ 64 }
        ensures step { (s : State) → IfOk result (λ told. step_at s told self.new ≡ on_top (machine_at s self.old).operands (λ v vs. enters self.old.relations at v vs (machine_at s self.old))) }
        ensures relations { self.new.relations ≡ self.old.relations }
    {
        let Some(v) = self.operands.pop() else {
            return stuck();
        };
        let Some(delta) = v.into_delta()? else {
            return stuck();
        };
        if delta.is_fail() {
            return Ok(Told::Ended(End::Trap(TrapName::WhenFail, at)));
        }
        if !is_delta_of(self.changes.catalogue(), &delta) {
            return stuck();
        }
        self.enter_layer(delta)?;
        self.at += 1;
        Ok(Told::Quiet)
    }

    /// Puts a layer upon the one under which the machine reads.
    fn enter_layer(&mut self, delta: Delta) -> Result<(), AllocError>
        requires known { is_fail delta ≡ false }
        requires of { is_delta_of self.old.relations delta ≡ true }
        ensures at { OnOk result (self.new.at ≡ self.old.at) }
        ensures over { (s : State) → OnOk result (machine_at s self.new ≡ record (machine_at s self.old) { layers = delta ∷ (machine_at s self.old).layers; own = suc (machine_at s self.old).own }) }
        ensures relations { self.new.relations ≡ self.old.relations }
    {
        // for the proof alone: so many layers as the frame calls its own are there, and their number fits
        let _tip = self.changes.tip();
        self.changes.enter(delta)?;
        self.own += 1;
        Ok(())
    }

    /// Goes back to the layer below. No layer is dropped here, and it takes no memory.
    pub(super) fn leave(&mut self) -> Told
        requires { self.old.at + 1 < 2 ^ 64 }
        ensures step { (s : State) → step_at s result self.new ≡ leaves_layer (machine_at s self.old).own (machine_at s self.old).layers (machine_at s self.old) }
        ensures relations { self.new.relations ≡ self.old.relations }
    {
        if self.own == 0 {
            return Told::Ended(End::Stuck);
        }
        self.changes.leave();
        self.own -= 1;
        self.at += 1;
        Told::Quiet
    }

    /// Collects the operands of the running frame that name a relation.
    fn settle_operands(&mut self, stored: &Stored<'_>) -> Result<(), AllocError>
        ensures rest { OnOk result (self.new ≡ record self.old { operands = self.new.operands; spare = self.new.spare }) }
        ensures same { let s = stored.now.state in OnOk result (machine_at s self.new ≡ machine_at s self.old) }
        ensures held { OnOk result (AreHeld self.new.operands) }
        ensures relations { self.new.relations ≡ self.old.relations }
    {
        if self.operands.has_names() {
            collect(self.alloc, &mut self.operands, &self.changes, stored)?;
        }
        Ok(())
    }

    /// Collects what is left of the walks of the running frame that name a relation.
    fn settle_walks(&mut self, stored: &Stored<'_>) -> Result<(), AllocError>
        ensures rest { OnOk result (self.new ≡ record self.old { walks = self.new.walks }) }
        ensures same { let s = stored.now.state in OnOk result (machine_at s self.new ≡ machine_at s self.old) }
        ensures given { OnOk result (AreGiven self.new.walks) }
        ensures relations { self.new.relations ≡ self.old.relations }
    {
        if any_named(&self.walks) {
            let walks = replace(&mut self.walks, Stack::new(self.alloc));
            self.walks = settle_walks(self.alloc, walks, &self.changes, stored)?;
        }
        Ok(())
    }

    /// Collects what the frames that wait name.
    fn settle_callers(&mut self, stored: &Stored<'_>) -> Result<(), AllocError>
        ensures rest { OnOk result (self.new ≡ record self.old { callers = self.new.callers }) }
        ensures same { let s = stored.now.state in OnOk result (machine_at s self.new ≡ machine_at s self.old) }
        ensures none { OnOk result (NameNone self.new.callers) }
        ensures relations { self.new.relations ≡ self.old.relations }
    {
        if self.names_below {
            let callers = replace(&mut self.callers, Callers::new(self.alloc));
            self.callers = settle_frames(self.alloc, callers, &self.changes, stored)?;
            self.names_below = false;
        }
        Ok(())
    }

    /// Collects all that names a relation, in the running frame and in those that wait. Then the pending
    /// delta may change.
    pub(super) fn settle(&mut self, stored: &Stored<'_>) -> Result<(), AllocError>
        ensures same { let s = stored.now.state in OnOk result (machine_at s self.new ≡ machine_at s self.old) }
        ensures at { OnOk result (self.new.at ≡ self.old.at) }
        ensures none { OnOk result (NamesNothing self.new) }
        ensures relations { self.new.relations ≡ self.old.relations }
    {
        self.settle_operands(stored)?;
        self.settle_walks(stored)?;
        self.settle_callers(stored)
    }

    /// Puts another delta in the pending one's place, and gives that one. It takes no memory.
    fn change_pending(&mut self, delta: Delta) -> Delta
        requires known { is_fail delta ≡ false }
        requires of { is_delta_of self.old.relations delta ≡ true }
        ensures of { is_delta_of self.old.relations result ≡ true }
        ensures old { result ≡ pending_of self.old.layers }
        ensures known { is_fail result ≡ false }
        ensures at { self.new.at ≡ self.old.at }
        ensures over { NamesNothing self.old → (s : State) → machine_at s self.new ≡ record (machine_at s self.old) { pending = delta } }
        ensures stored { delta ≡ atoms [] → (s : State) → machine_at (apply_of s result) self.new ≡ record (machine_at s self.old) { pending = atoms [] } }
        ensures none { NamesNothing self.old → NamesNothing self.new }
        ensures relations { self.new.relations ≡ self.old.relations }
    {
        self.changes.replace_pending(delta)
    }

    pub(super) fn apply(&mut self, stored: &Stored<'_>, at: u32) -> Result<Told, AllocError>
        requires { self.old.at + 1 < 2 ^ 64 }
        ensures step { let s = stored.now.state in IfOk result (λ told. step_at s told self.new ≡ on_top (machine_at s self.old).operands (λ v vs. applies self.old.relations at v vs (machine_at s self.old))) }
        ensures relations { self.new.relations ≡ self.old.relations }
    {
        let Some(v) = self.operands.pop() else {
            return stuck();
        };
        let Some(change) = v.delta() else {
            return stuck();
        };
        if change.is_fail() {
            return Ok(Told::Ended(End::Trap(TrapName::ApplyFail, at)));
        }
        if !is_delta_of(self.changes.catalogue(), change) {
            return stuck();
        }
        self.apply_delta(change, stored)?;
        self.at += 1;
        Ok(Told::Quiet)
    }

    /// Smashes a delta into the pending one.
    #[tactic(auto, using(crate::proofs::Smashed::smash_known))]
    fn apply_delta(&mut self, delta: &Delta, stored: &Stored<'_>) -> Result<(), AllocError>
        requires known { is_fail delta.now ≡ false }
        requires of { is_delta_of self.old.relations delta.now ≡ true }
        ensures over { let s = stored.now.state in OnOk result (machine_at s self.new ≡ record (machine_at s self.old) { pending = smash_of (machine_at s self.old).pending delta.now }) }
        ensures at { OnOk result (self.new.at ≡ self.old.at) }
        ensures relations { self.new.relations ≡ self.old.relations }
    {
        self.settle(stored)?;
        let mut pending = self.change_pending(Delta::empty(self.alloc));
        smash_into(&mut pending, delta)?;
        let_go(self.change_pending(pending));
        Ok(())
    }

    pub(super) fn commit(&mut self) -> Result<Told, AllocError>
        requires { self.old.at + 1 < 2 ^ 64 }
        ensures step { (s : State) → IfOk result (λ told. step_at s told self.new ≡ commits (machine_at s self.old).pending (record (machine_at s self.old) { at = (machine_at s self.old).at + 1; pending = atoms [] })) }
        ensures relations { self.new.relations ≡ self.old.relations }
    {
        let delta = self.change_pending(Delta::empty(self.alloc));
        self.at += 1;
        Ok(Told::Commit(delta))
    }

    pub(super) fn rollback(&mut self, stored: &Stored<'_>) -> Result<Told, AllocError>
        requires { self.old.at + 1 < 2 ^ 64 }
        ensures step { let s = stored.now.state in IfOk result (λ told. step_at s told self.new ≡ quiet (record (machine_at s self.old) { at = (machine_at s self.old).at + 1; pending = atoms [] })) }
        ensures relations { self.new.relations ≡ self.old.relations }
    {
        self.settle(stored)?;
        let_go(self.change_pending(Delta::empty(self.alloc)));
        self.at += 1;
        Ok(Told::Quiet)
    }
}

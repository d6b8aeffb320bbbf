//! A session at work.
ghost use Rattle.std.specs.Prelude.{◌≡◌, ◌≢◌, ◌≤◌, ◌+◌, ◌<◌, ◌^◌, ◌++◌, ◌∷◌, ℕ, List, [], None, Some, true, false, All, IfOk, OnOk, length};
ghost use Rattle.std.specs.List.{list_all};
ghost use Rattle.hera_meaning.specs.declared.schemas.RelDecl.{RelDecl as PlainDecl};
ghost use Rattle.hera_meaning.specs.Deltas as specs;
ghost use Rattle.hera_meaning.specs.Deltas.{State, apply_of, is_fail};
ghost use Rattle.hera_meaning.specs.Fits.{is_delta_of};
ghost use Rattle.hera_host.specs.Tables.{specs_of};
ghost use Rattle.hera_code.specs.Forward.{Forward};
ghost use Rattle.hera_code.specs.Reached.{start_of};
ghost use Rattle.hera_steps.specs.Descends.{left};
ghost use Rattle.hera_machine.specs.Ends.{last_text};
ghost use Rattle.hera_machine.specs.Over.{state_over};
ghost use Rattle.hera_machine.specs.Standing.{machine_over, IsLess, WaitsBy};
ghost use Rattle.hera_sessions.specs.Sessions.{Task};
ghost use Rattle.hera_sessions.specs.Scanning.{scanned};
ghost use Rattle.hera_sessions.specs.Weaving.{outcome_by, first_touch};
ghost use Rattle.hera_weave.specs.Standing.{IsAt, Stepped, Executed, Commits, given_by, given_of, outcome_in, HasText};

use crate::lines::put_conflict;
use crate::reads::first_touch;
use crate::weave::WeaveEvent;
use commit_levels::Levels;
use delta_atoms::Delta;
use hera_code::Code;
use hera_host::HostTable;
use hera_machine::{End, Event, Machine, Status, put_commit, put_end};
use hera_meaning::writing::put;
use hera_meaning::{Line, RelDecl};
use rel_pages::Base;
use smash_merge::smash_all;
use std::alloc::{AllocError, Global};
use std::marker::Model;

/// A session at work.
#[derive(Drop)]
pub(crate) struct Seat<'c> {
    alloc: Global,
    code: &'c Code,
    machine: Machine<'c>,
    /// Behind how many commits it began, once it made a step.
    begun: Option<usize>,
    /// Its own commits.
    own: Vec<Delta>,
    /// Once it has commits of its own: few deltas that do what those before its beginning and then its own do.
    levels: Levels,
    text: Vec<u8>,
}

impl<'c> Model for Seat<'c> {
    ghost use Rattle.hera_weave.specs.Seats.{Sitting};

    ghost Value = { Sitting };

    ghost view = { λ s. record { code = s.code.now; machine = s.machine; begun = s.begun; own = s.own.items; levels = s.levels; text = s.text.items } };
}

/// The deltas under which an instruction reads: those before the session's beginning, or, once it has commits of its
/// own, those that do what both do.
fn given<'s>(own: &[Delta], levels: &'s [Delta], prefix: &'s [Delta]) -> &'s [Delta]
    ensures { result.now ≡ given_by prefix.now own.now levels.now }
{
    if own.is_empty() { prefix } else { levels }
}

/// Makes the deltas those under which an instruction reads.
fn begin_levels(
    alloc: Global,
    own: &[Delta],
    levels: &mut Levels,
    prefix: &[Delta],
) -> Result<(), AllocError>
    ensures does { (s : State) → OnOk result (state_over s levels.new ≡ state_over s (given_by prefix.now own.now levels.old)) }
    ensures known { (rels : List PlainDecl) → list_all (is_delta_of rels) (given_by prefix.now own.now levels.old) ≡ true → OnOk result (list_all (is_delta_of rels) levels.new ≡ true) }
{
    if own.is_empty() {
        *levels = Levels::of(alloc, prefix)?;
    }
    Ok(())
}

/// Puts a commit behind the deltas under which an instruction reads.
fn push_level(
    alloc: Global,
    own: &[Delta],
    levels: &mut Levels,
    prefix: &[Delta],
    delta: &Delta,
) -> Result<(), AllocError>
    ensures does { (s : State) → OnOk result (state_over s levels.new ≡ apply_of (state_over s (given_by prefix.now own.now levels.old)) delta.now) }
    ensures known { (rels : List PlainDecl) → list_all (is_delta_of rels) (given_by prefix.now own.now levels.old) ≡ true → is_delta_of rels delta.now ≡ true → OnOk result (list_all (is_delta_of rels) levels.new ≡ true) }
{
    begin_levels(alloc, own, levels, prefix)?;
    levels.push(delta)
}

impl<'c> Seat<'c> {
    /// A session that made no step yet.
    pub(crate) fn new(
        alloc: Global,
        code: &'c Code,
        relations: &'c [RelDecl],
        turns: u64,
    ) -> Result<Seat<'c>, AllocError>
        ensures code { IfOk result (λ s. s.code ≡ code.now) }
        ensures machine_code { IfOk result (λ s. s.machine.code ≡ code.now) }
        ensures relations { IfOk result (λ s. s.machine.relations ≡ relations.now) }
        ensures start { IfOk result (λ s. (u : State) → machine_over u s.machine ≡ start_of code.now turns) }
        ensures works { IfOk result (λ s. s.machine.status ≡ Status.Working) }
        ensures nothing_waits { IfOk result (λ s. s.machine.waits ≡ None) }
        ensures begun { IfOk result (λ s. s.begun ≡ None) }
        ensures own { IfOk result (λ s. s.own ≡ []) }
        ensures levels { IfOk result (λ s. s.levels ≡ []) }
        ensures text { IfOk result (λ s. s.text ≡ []) }
    {
        Ok(Seat {
            alloc,
            code,
            machine: Machine::new(alloc, code, relations, turns)?,
            begun: None,
            own: Vec::new(alloc),
            levels: Levels::new(alloc),
            text: Vec::new(alloc),
        })
    }

    /// Behind how many commits it began, which is from now on the number handed in where it made no step yet.
    pub(crate) fn begin(&mut self, now: usize) -> usize
        ensures first { self.old.begun ≡ None → result ≡ now }
        ensures later { (n : ℕ) → self.old.begun ≡ Some n → result ≡ n }
        ensures begun { self.new ≡ record self.old { begun = Some result } }
    {
        let begun = match self.begun {
            None => now,
            Some(n) => n,
        };
        self.begun = Some(begun);
        begun
    }

    /// Executes one instruction, over the base's state behind the commits before its beginning and its own.
    /// None where the run goes on.
    pub(crate) fn step(
        &mut self,
        base: &Base,
        prefix: &[Delta],
        hosts: &HostTable,
    ) -> Result<Option<End>, AllocError>
        requires taken { self.old.machine.waits ≡ None }
        requires relations { self.old.machine.relations ≡ base.now.catalogue }
        requires known { list_all (is_delta_of base.now.catalogue) (given_of prefix.now self.old) ≡ true }
        ensures steps { (t : Task) (k : ℕ) → let s = state_over base.now.state prefix.now in IsAt t (specs_of hosts.now.names) base.now.state s k self.old → IfOk result (λ end. Stepped t (specs_of hosts.now.names) base.now.state s k self.new end) }
        ensures begun { self.new.begun ≡ self.old.begun }
        ensures code { self.new.code ≡ self.old.code }
        ensures less { Forward self.old.machine.code → IfOk result (λ end. end ≡ None → left (length self.old.machine.code.instrs) self.new.machine.state < left (length self.old.machine.code.instrs) self.old.machine.state) }
    {
        match self.execute(base, prefix, hosts)? {
            Event::Quiet => Ok(None),
            Event::Out(line) => {
                self.say(line.bytes())?;
                Ok(None)
            }
            Event::Commit => {
                self.commit(prefix)?;
                Ok(None)
            }
            Event::Ended(end) => {
                self.finish(end)?;
                Ok(Some(end))
            }
        }
    }

    /// What the instruction tells. The place for one more operand is made before it.
    fn execute(
        &mut self,
        base: &Base,
        prefix: &[Delta],
        hosts: &HostTable,
    ) -> Result<Event, AllocError>
        requires taken { self.old.machine.waits ≡ None }
        requires known { list_all (is_delta_of base.now.catalogue) (given_of prefix.now self.old) ≡ true }
        ensures moved { self.old.machine.status ≡ Status.Working → IfOk result (Executed (specs_of hosts.now.names) base.now.state prefix.now self.old self.new) }
        ensures waits { IfOk result (WaitsBy self.new.machine.waits) }
        ensures begun { self.new.begun ≡ self.old.begun }
        ensures code { self.new.code ≡ self.old.code }
        ensures less { Forward self.old.machine.code → IfOk result (IsLess (length self.old.machine.code.instrs) self.old.machine.state self.new.machine.state) }
    {
        self.machine.reserve(1)?;
        let given = given(&self.own, self.levels.deltas(), prefix);
        self.machine.step(base, given, hosts)
    }

    /// Puts a text behind its own.
    fn say(&mut self, text: &[u8]) -> Result<(), AllocError>
        ensures said { OnOk result (self.new ≡ record self.old { text = self.old.text ++ text.now }) }
        ensures begun { self.new.begun ≡ self.old.begun }
        ensures code { self.new.code ≡ self.old.code }
    {
        put(&mut self.text, text)
    }

    /// Puts the last line of a run that ends so.
    fn finish(&mut self, end: End) -> Result<(), AllocError>
        ensures said { OnOk result (self.new ≡ record self.old { text = self.old.text ++ last_text end }) }
        ensures begun { self.new.begun ≡ self.old.begun }
        ensures code { self.new.code ≡ self.old.code }
    {
        put_end(&mut self.text, end)
    }

    /// Keeps the commit that waits, and puts its line.
    fn commit(&mut self, prefix: &[Delta]) -> Result<(), AllocError>
        requires { self.old.machine.waits ≢ None }
        ensures begun { self.new.begun ≡ self.old.begun }
        ensures code { self.new.code ≡ self.old.code }
        ensures kept { (d : specs.Delta) → self.old.machine.waits ≡ Some d → OnOk result (Commits prefix.now d self.old self.new) }
    {
        let delta = self.machine.take_pending();
        push_level(self.alloc, &self.own, &mut self.levels, prefix, &delta)?;
        self.own.push(delta)?;
        put_commit(&mut self.text, self.own.len())
    }

    /// How it closes, behind commits since it began, the first of which has this number.
    pub(crate) fn close(self, number: usize, since: &[Delta]) -> Result<WeaveEvent, AllocError>
        requires proper { All (λ d. is_fail d ≡ false) since.now }
        requires short { number + length since.now < 2 ^ 64 }
        ensures told { IfOk result (λ e. outcome_in e ≡ Some (outcome_by self.entry.own self.entry.text (first_touch (scanned self.entry.code.instrs) number since.now))) }
        ensures text { IfOk result HasText }
    {
        let Seat {
            alloc,
            code,
            machine,
            own,
            levels,
            text,
            ..
        } = self;
        drop(machine);
        drop(levels);
        closing(alloc, code, &own, text, number, since)
    }
}

/// How a session with this code, these commits and this text closes.
fn closing(
    alloc: Global,
    code: &Code,
    own: &[Delta],
    text: Vec<u8>,
    number: usize,
    since: &[Delta],
) -> Result<WeaveEvent, AllocError>
    requires proper { All (λ d. is_fail d ≡ false) since.now }
    requires short { number + length since.now < 2 ^ 64 }
    ensures told { IfOk result (λ e. outcome_in e ≡ Some (outcome_by own.now text.items (first_touch (scanned code.now.instrs) number since.now))) }
    ensures text { IfOk result HasText }
{
    let text = Line::new(text);
    if own.is_empty() {
        return Ok(WeaveEvent::Read { text });
    }
    match first_touch(code, number, since) {
        None => Ok(WeaveEvent::Commit {
            delta: smash_all(alloc, own)?,
            text,
        }),
        Some(number) => {
            let mut line = Vec::new(alloc);
            put_conflict(&mut line, number)?;
            Ok(WeaveEvent::Conflict {
                commit: number as u64,
                text: Line::new(line),
            })
        }
    }
}

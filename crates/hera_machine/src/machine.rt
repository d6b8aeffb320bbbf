//! A machine that runs a program's code.
ghost use Rattle.std.specs.Prelude.{◌≡◌, ◌≢◌, ◌≤◌, [], true, Some, None, IfOk, IsErr, IsOk, OnOk, OnErr, length, slice_get};
ghost use Rattle.std.specs.List.{list_all};
ghost use Rattle.hera_meaning.specs.Deltas.{State};
ghost use Rattle.hera_meaning.specs.Fits.{is_delta_of};
ghost use Rattle.hera_meaning.specs.Hosts.{Hosts};
ghost use Rattle.hera_host.specs.Tables.{specs_of};
ghost use Rattle.hera_code.specs.Forward.{Forward};
ghost use Rattle.hera_code.specs.Machine.{code_step};
ghost use Rattle.hera_code.specs.Reached.{start_of};
ghost use Rattle.hera_machine.specs.Counted.{AreCountsOver, AreCountsBehind};
ghost use Rattle.hera_machine.specs.Over.{state_over};
ghost use Rattle.hera_steps.specs.Sparing.{is_sparing};
ghost use Rattle.hera_steps.specs.Descends.{left};
ghost use Rattle.hera_machine.specs.Standing.{machine_over, event_over, status_by, status_after, WaitsBy, IsNearer, GoesQuietly, Tells, IsLess};

use crate::counts::{count, foresee};
use crate::events::{Event, Status};
use crate::joins::join;
use crate::many::run_quick;
use delta_atoms::Delta;
use hera_code::Code;
use hera_host::HostTable;
use hera_meaning::RelDecl;
use hera_reads::Counts;
use hera_steps::{End, Running, Told};
use rel_pages::Base;
use std::alloc::{AllocError, Global};
use std::marker::Model;
use when_overlay::Stored;

/// A machine that runs a program's code.
#[derive(Drop)]
pub struct Machine<'c> {
    code: &'c Code,
    work: Running<'c>,
    status: Status,
    waiting: Option<Delta>,
}

impl<'c> Model for Machine<'c> {
    ghost use Rattle.std.specs.Prelude.{[], ◌≡◌, true, IfSome};
    ghost use Rattle.hera_meaning.specs.Fits.{is_delta_of};
    ghost use Rattle.hera_steps.specs.Working.{machine_at};
    ghost use Rattle.hera_machine.specs.Standing.{Standing};

    ghost Value = { Standing };

    ghost view = { λ m. record { code = m.code.now; relations = m.work.relations; work = m.work; state = machine_at [] m.work; spare = m.work.spare; status = m.status; waits = m.waiting } };

    ghost invariant = { λ m. IfSome m.waiting (λ d. is_delta_of m.work.relations d ≡ true) };
}

impl<'c> Machine<'c> {
    /// A machine at the start of main, with this many turns.
    pub fn new(
        alloc: Global,
        code: &'c Code,
        relations: &'c [RelDecl],
        turns: u64,
    ) -> Result<Machine<'c>, AllocError>
        ensures code { IfOk result (λ m. m.code ≡ code.now) }
        ensures relations { IfOk result (λ m. m.relations ≡ relations.now) }
        ensures start { IfOk result (λ m. (s : State) → machine_over s m ≡ start_of code.now turns) }
        ensures works { IfOk result (λ m. m.status ≡ Status.Working) }
        ensures nothing_waits { IfOk result (λ m. m.waits ≡ None) }
    {
        let slots = match code.bodies.get(0) {
            None => 0,
            Some(body) => body.slots,
        };
        Ok(Machine {
            code,
            work: Running::start(alloc, relations, slots, turns)?,
            status: Status::Working,
            waiting: None,
        })
    }

    /// Makes the place for at least `n` further operands. The state for which the machine stands never
    /// changes, and without memory the places stay as they are too.
    pub fn reserve(&mut self, n: usize) -> Result<(), AllocError>
        ensures spare { OnOk result (n ≤ self.new.spare) }
        ensures err { OnErr result (self.new ≡ self.old) }
        ensures over { (s : State) → machine_over s self.new ≡ machine_over s self.old }
        ensures state { self.new.state ≡ self.old.state }
        ensures status { self.new.status ≡ self.old.status }
        ensures waits { self.new.waits ≡ self.old.waits }
        ensures code { self.new.code ≡ self.old.code }
        ensures relations { self.new.relations ≡ self.old.relations }
    {
        self.work.reserve(n)
    }

    /// Executes one instruction, over the base's state after the commits.
    ///
    /// Each commit is a delta of the base's catalogue, so that no row has to be looked at to know its kinds. After
    /// an end it answers the same again, and after want of memory want of memory; no commit waits then. Each delta of
    /// a commit has to be taken before the next step. It takes no memory where it leaves a layer, counts
    /// the tuples of a relation, or asks whether it has any or one; nor where it names a relation and
    /// there is the place for one more operand.
    pub fn step(
        &mut self,
        base: &Base,
        commits: &[Delta],
        hosts: &HostTable,
    ) -> Result<Event, AllocError>
        requires waits { self.old.waits ≡ None }
        requires commits { list_all (is_delta_of base.now.catalogue) commits.now ≡ true }
        ensures steps { self.old.status ≡ Status.Working → let stored = state_over base.now.state commits.now in IfOk result (λ e. event_over stored e self.new ≡ code_step self.old.code self.old.relations (specs_of hosts.now.names) stored (machine_over stored self.old)) }
        ensures no_copy { self.old.status ≡ Status.Working → is_sparing self.old.spare (slice_get self.old.code.instrs self.old.state.at) ≡ true → IsOk result }
        ensures nearer { Forward self.old.code → IfOk result (IsNearer (length self.old.code.instrs) self.old.state self.new.state) }
        ensures again { (end : End) → self.old.status ≡ Status.Over end → result ≡ Ok (Event.Ended end) }
        ensures gave_up { self.old.status ≡ Status.GaveUp → IsErr result }
        ensures status { self.new.status ≡ status_after result }
        ensures waits { IfOk result (WaitsBy self.new.waits) }
        ensures none_waits { OnErr result (self.new.waits ≡ None) }
        ensures code { self.new.code ≡ self.old.code }
        ensures relations { self.new.relations ≡ self.old.relations }
    {
        match self.status {
            Status::Over(end) => return Ok(Event::Ended(end)),
            Status::GaveUp => return Err(AllocError),
            Status::Working => {}
        }
        let code = self.code;
        match self.work.one(code, &Stored::new(base, commits), hosts) {
            Err(e) => {
                self.status = Status::GaveUp;
                Err(e)
            }
            Ok(Told::Quiet) => Ok(Event::Quiet),
            Ok(Told::Out(line)) => Ok(Event::Out(line)),
            Ok(Told::Commit(delta)) => {
                self.waiting = Some(delta);
                Ok(Event::Commit)
            }
            Ok(Told::Ended(end)) => {
                self.status = Status::Over(end);
                Ok(Event::Ended(end))
            }
        }
    }

    /// Executes the instructions at hand that have the quick way, 20,480 at most, and a smash or a merge that is stored. It
    /// stops in front of a quick one for which memory is refused, and gives up where a smash or a merge lacks it.
    fn run_quick(&mut self, stored: &Stored<'_>) -> Result<(), AllocError>
        ensures quietly { self.old.status ≡ Status.Working → (hosts : Hosts) → let s = stored.now.state in OnOk result (GoesQuietly self.old.code self.old.relations hosts s (machine_over s self.old) (machine_over s self.new)) }
        ensures less { Forward self.old.code → OnOk result (left (length self.old.code.instrs) self.new.state ≤ left (length self.old.code.instrs) self.old.state) }
        ensures layers { self.new.work.layers ≡ self.old.work.layers }
        ensures status { OnOk result (self.new.status ≡ self.old.status) }
        ensures waits { self.new.waits ≡ self.old.waits }
        ensures code { self.new.code ≡ self.old.code }
        ensures relations { self.new.relations ≡ self.old.relations }
    {
        match self.status {
            Status::Working => {}
            _ => return Ok(()),
        }
        run_quick(&mut self.work, self.code, stored);
        match join(&mut self.work, self.code, stored) {
            Ok(()) => Ok(()),
            Err(e) => {
                self.status = Status::GaveUp;
                Err(e)
            }
        }
    }

    /// Executes a count of a relation that is named, if that is the instruction at hand.
    fn count(&mut self, stored: &Stored<'_>, counts: &mut Counts)
        requires { AreCountsOver stored.now.state self.old counts.old }
        ensures quietly { self.old.status ≡ Status.Working → (hosts : Hosts) → let s = stored.now.state in GoesQuietly self.old.code self.old.relations hosts s (machine_over s self.old) (machine_over s self.new) }
        ensures less { Forward self.old.code → left (length self.old.code.instrs) self.new.state ≤ left (length self.old.code.instrs) self.old.state }
        ensures counted { AreCountsOver stored.now.state self.new counts.new }
        ensures status { self.new.status ≡ self.old.status }
        ensures waits { self.new.waits ≡ self.old.waits }
        ensures code { self.new.code ≡ self.old.code }
        ensures relations { self.new.relations ≡ self.old.relations }
    {
        if let Status::Working = self.status {
            count(&mut self.work, self.code, stored, counts);
        }
    }

    /// Executes instructions that have the quick way, as many as come and 20,480 at most, then a smash or a merge that is
    /// stored, a count, and then one as `step` does, with the place for one more operand made before it. A refusal of the
    /// place is want of memory.
    ///
    /// The counts are those of the state after the pending delta, and are so again behind it. A relation that was counted
    /// once is counted again by a look for each row that deltas name which are applied since, or entered.
    pub fn advance(
        &mut self,
        base: &Base,
        commits: &[Delta],
        counts: &mut Counts,
        hosts: &HostTable,
    ) -> Result<Event, AllocError>
        requires waits { self.old.waits ≡ None }
        requires commits { list_all (is_delta_of base.now.catalogue) commits.now ≡ true }
        requires counted { AreCountsOver (state_over base.now.state commits.now) self.old counts.old }
        ensures tells { self.old.status ≡ Status.Working → let stored = state_over base.now.state commits.now in IfOk result (λ e. Tells self.old.code self.old.relations (specs_of hosts.now.names) stored e self.old self.new) }
        ensures counted { self.old.status ≡ Status.Working → let stored = state_over base.now.state commits.now in IfOk result (λ e. AreCountsBehind stored counts.new (event_over stored e self.new)) }
        ensures less { Forward self.old.code → IfOk result (IsLess (length self.old.code.instrs) self.old.state self.new.state) }
        ensures status { IfOk result (λ e. self.new.status ≡ status_by e) }
        ensures waits { IfOk result (WaitsBy self.new.waits) }
        ensures none_waits { OnErr result (self.new.waits ≡ None) }
        ensures code { self.new.code ≡ self.old.code }
        ensures relations { self.new.relations ≡ self.old.relations }
    {
        let stored = Stored::new(base, commits);
        self.run_quick(&stored)?;
        self.count(&stored, counts);
        self.reserve(1)?;
        self.foresee(&stored, counts);
        self.step(base, commits, hosts)
    }

    /// Goes on to the counts behind the instruction at hand.
    fn foresee(&self, stored: &Stored<'_>, counts: &mut Counts)
        requires { AreCountsOver stored.now.state self.now counts.old }
        ensures { (hosts : Hosts) → let s = stored.now.state in AreCountsBehind s counts.new (code_step self.now.code self.now.relations hosts s (machine_over s self.now)) }
    {
        foresee(&self.work, self.code, stored, counts);
    }

    /// The delta of the commit that waits, which is taken. It takes no memory.
    pub fn take_pending(&mut self) -> Delta
        requires { self.old.waits ≢ None }
        ensures delta { self.old.waits ≡ Some result }
        ensures known { is_delta_of self.old.relations result ≡ true }
        ensures taken { self.new ≡ record self.old { waits = None } }
    {
        match self.waiting.take() {
            Some(delta) => delta,
            None => unreachable!(),
        }
    }
}

ghost use Rattle.std.specs.Prelude.{◌∷◌, ◌≡◌, ◌≢◌, ◌+◌, ℕ, [], List, take, true, false, Err, IfOk, IfErr, OnOk, OnErr};
ghost use Rattle.std.specs.Io.KnownBytes.{Appends};
ghost use Rattle.hera_meaning.specs.Deltas.{State};
ghost use Rattle.hera_meaning.specs.Worlds.{out};
ghost use Rattle.hera_meaning.specs.Printed.{commit_text};
ghost use Rattle.hera_meaning.specs.Run.{Finish};
ghost use Rattle.hera_code.specs.Forward.{Forward};
ghost use Rattle.hera_code.specs.Machine.{ended};
ghost use Rattle.hera_codegen.specs.Correct.{events_in, AreStoresOf};
ghost use Rattle.hera_host.specs.Tables.{specs_of};
ghost use Rattle.hera_machine.specs.Counted.{AreCountsOver};
ghost use Rattle.hera_machine.specs.Ends.{last_text};
ghost use Rattle.hera_steps.specs.Telling.{stop_of};
ghost use Rattle.hera_steps.specs.declared.events.End.{End};
ghost use Rattle.hera_volume.specs.Time.{LeavesOnly};
ghost use Rattle.hera_volume.specs.declared.file_id.FileId.{FileId};
ghost use Rattle.hera_run.specs.Running.{job, at_step, ending_of as events_at_end, turns_of, IsAtStart, IsOver, IsDoneUpToFull, IsPartDone, IsStopped, IsCodeCut};
ghost use Rattle.hera_outcome.specs.Answers.{IsSpoken, number_of_ending};
ghost use Rattle.hera_outcome.specs.Cut.{IsCutWith, with_state};
ghost use Rattle.hera_outcome.specs.Outcomes.{status_of_finish};
ghost use Rattle.hera_outcome.specs.Passages.{passage, KeepsFiles};
ghost use Rattle.hera_outcome.specs.Told.{FaultsBy};
ghost use Rattle.hera_run.specs.Action.{event_of, state_with, action_fits, gate_with, IsProper, IsAllowed};

use crate::carry::{Action, carry_out};
use crate::keeper::Keeper;
use crate::lines::{commit_line, last_line};
use delta_atoms::Delta;
use hera_code::Code;
use hera_host::HostTable;
use hera_machine::{End, Event, Machine};
use hera_meaning::RelDecl;
use hera_outcome::{Ending, Stop, say};
use hera_reads::Counts;
use hera_volume::Outside;
use std::alloc::{AllocError, Global};

/// Emits the last line of a run that ends so, or a prefix of it up to the first failure.
fn say_end<K: Keeper, W: Outside>(
    alloc: Global,
    outside: &mut W,
    keeper: &K,
    end: End,
) -> Result<(), Stop>
    requires { W.told → K.stands (W.disk outside.old) keeper.now }
    ensures whole { OnOk result (Appends (W.emitted outside.old) (W.emitted outside.new) (last_text end)) }
    ensures part { OnErr result ((n : ℕ) × Appends (W.emitted outside.old) (W.emitted outside.new) (take n (last_text end))) }
    ensures any_moment { W.told → LeavesOnly W.moment W.left_since outside.old outside.new
        (IsCutWith (K.finds keeper.now (W.disk outside.old)) (events_at_end end) (K.database keeper.now).state (W.emitted outside.old)) }
    ensures faults { FaultsBy result (passage W.Output W.Outside.own outside.old outside.new) }
    ensures keeps { KeepsFiles (passage W.Output W.Outside.own outside.old outside.new) }
    ensures spoken { IfErr result IsSpoken }
{
    let _ = keeper;
    let line = last_line(alloc, end)?;
    say(outside, line.bytes())
}

/// Keeps a commit that is not refused, and then prints its line, for which memory is taken first.
pub fn commit<K: Keeper, W: Outside>(
    alloc: Global,
    outside: &mut W,
    keeper: &mut K,
    delta: Delta,
    number: usize,
) -> Result<(), Stop>
    requires ready { K.ready keeper.old }
    requires stands { W.told → K.stands (W.disk outside.old) keeper.old }
    requires proper { IsProper (K.database keeper.old).catalogue (Action.Store delta) }
    requires allowed { IsAllowed (K.refusal keeper.old) (K.database keeper.old).state (Action.Store delta) }
    ensures ready { OnOk result (K.ready keeper.new) }
    ensures stands { W.told → OnOk result (K.stands (W.disk outside.new) keeper.new) }
    ensures kept { OnOk result (K.database keeper.new ≡ with_state (K.database keeper.old) (state_with (K.database keeper.old).state (Action.Store delta))) }
    ensures gate { OnOk result (K.gate keeper.new ≡ gate_with (K.gate keeper.old) (Action.Store delta)) }
    ensures refusal { OnOk result (K.refusal keeper.new ≡ K.refusal keeper.old) }
    ensures whole { OnOk result (Appends (W.emitted outside.old) (W.emitted outside.new) (commit_text number)) }
    ensures part { OnErr result ((n : ℕ) × Appends (W.emitted outside.old) (W.emitted outside.new) (take n (commit_text number))) }
    ensures fits { OnOk result (action_fits (K.gate keeper.old) (Action.Store delta) ≡ true) }
    ensures full { result ≡ Err Stop.Full → action_fits (K.gate keeper.old) (Action.Store delta) ≡ false }
    ensures full_kept { result ≡ Err Stop.Full → K.database keeper.new ≡ K.database keeper.old }
    ensures full_stands { W.told → result ≡ Err Stop.Full → K.stands (W.disk outside.new) keeper.new }
    ensures nothing_done { action_fits (K.gate keeper.old) (Action.Store delta) ≡ false → outside.new ≡ outside.old }
    ensures any_moment { W.told → LeavesOnly W.moment W.left_since outside.old outside.new
        (IsCutWith (K.finds keeper.old (W.disk outside.old)) (event_of (Action.Store delta) (K.database keeper.old).state ∷ out (commit_text number) ∷ []) (K.database keeper.old).state (W.emitted outside.old)) }
    ensures finds { W.told → OnOk result ((files : FileId → List ℕ) (s : State) → K.finds keeper.new (W.disk outside.new) files s → K.finds keeper.old (W.disk outside.old) files s) }
    ensures faults { FaultsBy result (passage W.Output W.Outside.own outside.old outside.new) }
    ensures keeps { K.apart → KeepsFiles (passage W.Output W.Outside.own outside.old outside.new) }
    ensures spoken { K.apart → IfErr result IsSpoken }
{
    let text = commit_line(alloc, number)?;
    carry_out(outside, keeper, Action::Store(delta))?;
    carry_out(outside, keeper, Action::Say(text))
}

/// The number of the next commit. That of a commit behind 2^64 - 1 others is not kept, which is want of memory.
fn next_number(number: usize) -> Result<usize, AllocError>
    ensures { IfOk result (λ next. next ≡ number + 1) }
{
    match number.checked_add(1) {
        Some(next) => Ok(next),
        None => Err(AllocError),
    }
}

/// How a run is over.
#[derive(Clone, Copy)]
pub enum Close {
    /// Its code ended so.
    Ends(End),
    /// A commit was refused.
    Refused,
}

/// Runs code with at most so many turns, and carries out its events one by one over what keeps its commits. A commit that
/// this refuses is not kept: its line is printed in place of it, and the run is over. At each moment a stop leaves a cut of
/// the events of the code's first steps.
pub fn run_code<K: Keeper, W: Outside>(
    alloc: Global,
    code: &Code,
    relations: &[RelDecl],
    keeper: &mut K,
    turns: u64,
    outside: &mut W,
    hosts: &HostTable,
) -> Result<Close, Stop>
    requires forward { Forward code.now }
    requires ready { K.ready keeper.old }
    requires stands { W.told → K.stands (W.disk outside.old) keeper.old }
    requires proper { (k : ℕ) → AreStoresOf (K.database keeper.old).catalogue (events_in (at_step (job K.Keeper.own keeper.old code.now relations.now (specs_of hosts.now.names) turns) k)) }
    // After an end all events were carried out, after a refusal those before it; after `Full` those before the commit that
    // does not fit.
    ensures over { IfOk result (IsOver (job K.Keeper.own keeper.old code.now relations.now (specs_of hosts.now.names) turns) (W.emitted outside.old) (W.emitted outside.new) (K.database keeper.new)) }
    ensures full { result ≡ Err Stop.Full → IsDoneUpToFull (job K.Keeper.own keeper.old code.now relations.now (specs_of hosts.now.names) turns) (W.emitted outside.old) (W.emitted outside.new) (K.database keeper.new) }
    ensures cut { OnErr result (IsPartDone (job K.Keeper.own keeper.old code.now relations.now (specs_of hosts.now.names) turns) (W.emitted outside.old) (W.emitted outside.new)) }
    ensures stands { W.told → OnOk result (K.stands (W.disk outside.new) keeper.new) }
    ensures full_stands { W.told → result ≡ Err Stop.Full → K.stands (W.disk outside.new) keeper.new }
    // At each moment.
    ensures any_moment { W.told → LeavesOnly W.moment W.left_since outside.old outside.new
        (IsCodeCut (K.finds keeper.old (W.disk outside.old)) (job K.Keeper.own keeper.old code.now relations.now (specs_of hosts.now.names) turns) (W.emitted outside.old)) }
    ensures faults { FaultsBy result (passage W.Output W.Outside.own outside.old outside.new) }
    // Where no commit goes to a file.
    ensures keeps { K.apart → KeepsFiles (passage W.Output W.Outside.own outside.old outside.new) }
    ensures spoken { K.apart → IfErr result IsSpoken }
{
    let mut counts = Counts::new(alloc, relations.len())?;
    let mut machine = Machine::new(alloc, code, relations, turns)?;
    carry_all(alloc, &mut machine, &mut counts, keeper, outside, hosts)
}

/// Carries out the events of a machine at the start of its code, up to the end or a refusal.
fn carry_all<K: Keeper, W: Outside>(
    alloc: Global,
    machine: &mut Machine<'_>,
    counts: &mut Counts,
    keeper: &mut K,
    outside: &mut W,
    hosts: &HostTable,
) -> Result<Close, Stop>
    requires start { IsAtStart machine.old }
    requires forward { Forward machine.old.code }
    requires counted { AreCountsOver (K.database keeper.old).state machine.old counts.old }
    requires ready { K.ready keeper.old }
    requires stands { W.told → K.stands (W.disk outside.old) keeper.old }
    requires proper { (k : ℕ) → AreStoresOf (K.database keeper.old).catalogue (events_in (at_step (job K.Keeper.own keeper.old machine.old.code machine.old.relations (specs_of hosts.now.names) (turns_of machine.old)) k)) }
    ensures over { IfOk result (IsOver (job K.Keeper.own keeper.old machine.old.code machine.old.relations (specs_of hosts.now.names) (turns_of machine.old)) (W.emitted outside.old) (W.emitted outside.new) (K.database keeper.new)) }
    ensures stopped { IfErr result (IsStopped (job K.Keeper.own keeper.old machine.old.code machine.old.relations (specs_of hosts.now.names) (turns_of machine.old)) K.apart (W.emitted outside.old) (W.emitted outside.new) (K.database keeper.new) (W.told → K.stands (W.disk outside.new) keeper.new)) }
    ensures stands { W.told → OnOk result (K.stands (W.disk outside.new) keeper.new) }
    ensures any_moment { W.told → LeavesOnly W.moment W.left_since outside.old outside.new
        (IsCodeCut (K.finds keeper.old (W.disk outside.old)) (job K.Keeper.own keeper.old machine.old.code machine.old.relations (specs_of hosts.now.names) (turns_of machine.old)) (W.emitted outside.old)) }
    ensures faults { FaultsBy result (passage W.Output W.Outside.own outside.old outside.new) }
    ensures keeps { K.apart → KeepsFiles (passage W.Output W.Outside.own outside.old outside.new) }
{
    let mut number: usize = 0;
    'steps: loop {
        match machine.advance(keeper.base(), keeper.deltas(), counts, hosts)? {
            Event::Quiet => {}
            Event::Out(line) => carry_out(outside, keeper, Action::Say(line))?,
            Event::Commit => {
                let next = next_number(number)?;
                let delta = machine.take_pending();
                match keeper.test(alloc, &delta)? {
                    None => {
                        commit(alloc, outside, keeper, delta, next)?;
                        number = next;
                    }
                    Some(line) => {
                        carry_out(outside, keeper, Action::Say(line))?;
                        return Ok(Close::Refused);
                    }
                }
            }
            Event::Ended(end) => {
                say_end(alloc, outside, keeper, end)?;
                return Ok(Close::Ends(end));
            }
        }
    }
}

/// How a run ends that no commit was refused of, and whose code is not stuck.
pub fn ending_of(close: Close) -> Ending
    requires refused { close ≢ Close.Refused }
    requires stuck { close ≢ Close.Ends End.Stuck }
    ensures { (end : End) (finish : Finish) → close ≡ Close.Ends end → stop_of end ≡ ended finish → number_of_ending result ≡ status_of_finish finish }
{
    match close {
        Close::Ends(end) => ending_by(end),
        Close::Refused => unreachable!(),
    }
}

/// How a run ends whose code ends so.
fn ending_by(end: End) -> Ending
    requires { end ≢ End.Stuck }
    ensures { (finish : Finish) → stop_of end ≡ ended finish → number_of_ending result ≡ status_of_finish finish }
{
    match end {
        End::Done => Ending::Done,
        End::Trap(_, _) => Ending::Trapped,
        End::Spent => Ending::Spent,
        End::Stuck => unreachable!(),
    }
}

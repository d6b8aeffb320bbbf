//! The guarded run of a program over a folder.
ghost use Rattle.std.specs.Prelude.{◌≡◌, ◌≢◌, ◌∷◌, [], ℕ, List, None, IfErr};
ghost use Rattle.hera_meaning.specs.Plain.{program_of};
ghost use Rattle.hera_meaning.specs.Sound.{Sound};
ghost use Rattle.hera_meaning.specs.Run.{Finish, run_of};
ghost use Rattle.hera_meaning.specs.Worlds.{out};
ghost use Rattle.hera_code.specs.Machine.{ended};
ghost use Rattle.hera_host.specs.Tables.{specs_of};
ghost use Rattle.hera_steps.specs.Telling.{stop_of};
ghost use Rattle.hera_steps.specs.declared.events.End.{End};
ghost use Rattle.hera_store.specs.Standing.{database_of};
ghost use Rattle.hera_guard.specs.Guarded.{refusal_of, guarded_report, guarded_of};
ghost use Rattle.hera_outcome.specs.Answers.{number_of, number_of_ending, IsFault};
ghost use Rattle.hera_outcome.specs.Outcomes.{carried, broken, status_of_finish};
ghost use Rattle.hera_outcome.specs.Passages.{passage, start};
ghost use Rattle.hera_outcome.specs.Told.{IsToldBehind, Answered};
ghost use Rattle.hera_run.specs.Opening.{IsOpen};
ghost use Rattle.hera_guarded.specs.Guarding.{AreRules, guarded_outcome, GuardsTo};

use crate::keeper::GuardedFolder;
use crate::opening::open_under;
use crate::rules::Rules;
use hera_bind::{BindFault, bind};
use hera_codegen::{code_does_what_the_program_means, generate};
use hera_guard_lines::GuardLines;
use hera_host::HostTable;
use hera_meaning::Program;
use hera_outcome::{Ending, Stop, say};
use hera_run::{Close, InFolder, ending_of, run_code};
use hera_store::Store;
use hera_volume::Outside;
use std::alloc::Global;

/// How a guarded run ends whose code is not stuck.
fn ending_under(close: Close) -> Ending
    requires stuck { close ≢ Close.Ends End.Stuck }
    ensures ends { (end : End) (finish : Finish) → close ≡ Close.Ends end → stop_of end ≡ ended finish → number_of_ending result ≡ status_of_finish finish }
    ensures refused { close ≡ Close.Refused → number_of_ending result ≡ 11 }
{
    match close {
        Close::Ends(_) => ending_of(close),
        Close::Refused => Ending::Broken,
    }
}

/// Prints the line of a row of the store that breaks a guard, in place of a run.
fn break_off<W: Outside>(outside: &mut W, store: &Store, line: &[u8]) -> Result<Ending, Stop>
    requires opens { IsOpen store.now (passage W.Output W.Outside.own outside.old outside.old) }
    ensures told { IsToldBehind (carried (database_of store.now) (out line.now ∷ []) broken) (number_of result) (passage W.Output W.Outside.own outside.old outside.new) }
    ensures fault { IfErr result IsFault }
{
    let _ = store;
    say(outside, line)?;
    Ok(Ending::Broken)
}

/// Runs a bound program over an open store of which no row breaks a guard.
fn run_under<W: Outside>(
    alloc: Global,
    program: &Program,
    store: Store,
    rules: Rules<'_>,
    turns: u64,
    outside: &mut W,
) -> Result<Ending, Stop>
    requires sound { Sound (program_of program.now) (specs_of rules.hosts.now.names) }
    requires relations { (program_of program.now).relations ≡ store.base.catalogue }
    requires opens { IsOpen store (passage W.Output W.Outside.own outside.old outside.old) }
    requires rules { AreRules store.base.catalogue rules.hosts.now.names rules.lines.now rules.table }
    requires unbroken { refusal_of rules.hosts.now.names rules.table store.base.catalogue (database_of store).state ≡ None }
    ensures told { IsToldBehind (guarded_outcome (database_of store) store.end (guarded_report (refusal_of rules.entry.hosts.now.names rules.entry.table store.base.catalogue) (run_of (program_of program.now) (database_of store).state (specs_of rules.entry.hosts.now.names) turns))) (number_of result) (passage W.Output W.Outside.own outside.old outside.new) }
    ensures fault { IfErr result IsFault }
{
    code_does_what_the_program_means();
    let hosts = rules.hosts;
    let code = generate(alloc, program)?;
    let kept = InFolder::over(alloc, store)?;
    let mut keeper = GuardedFolder { kept, rules };
    let relations = &program.relations;
    let close = run_code(alloc, &code, relations, &mut keeper, turns, outside, hosts)?;
    Ok(ending_under(close))
}

/// Runs a bound program over an open store under guards: where a row of the store breaks one, its line is printed alone.
fn guard_bound<W: Outside>(
    alloc: Global,
    program: &Program,
    store: Store,
    rules: Rules<'_>,
    turns: u64,
    outside: &mut W,
) -> Result<Ending, Stop>
    requires sound { Sound (program_of program.now) (specs_of rules.hosts.now.names) }
    requires relations { (program_of program.now).relations ≡ store.base.catalogue }
    requires opens { IsOpen store (passage W.Output W.Outside.own outside.old outside.old) }
    requires rules { AreRules store.base.catalogue rules.hosts.now.names rules.lines.now rules.table }
    ensures told { IsToldBehind (guarded_outcome (database_of store) store.end (guarded_of (program_of program.now) (database_of store).state rules.entry.hosts.now.names turns rules.entry.table)) (number_of result) (passage W.Output W.Outside.own outside.old outside.new) }
    ensures fault { IfErr result IsFault }
{
    match rules.stored(alloc, &store)? {
        None => run_under(alloc, program, store, rules, turns, outside),
        Some(line) => break_off(outside, &store, line.bytes()),
    }
}

/// Opens the folder, binds the program to its relations, looks up the names of the lines, tests what is stored, and runs the
/// program with at most so many turns under the guards that the lines mean. A half of format 1 is rewritten in format 2 once
/// the names are found and before the test.
///
/// No commit is stored behind which a row breaks a guard: the run ends before it with the line of the first break, and so it
/// does before the first instruction where what is stored has one. That is `Broken`. The other endings tell how the meaning
/// ends; then all that it prints was emitted, and the files hold the state that it stores last. `Refused` tells that there is
/// no database, that a file is damaged, that a relation differs, or that a name of the lines means nothing or no guard; that
/// is still to be told. `Full` tells that a commit, or the rewriting, needs more than 268,435,456 bytes; a commit that breaks
/// a guard and needs more is `Broken`. At `Device`, `Output` and `Memory` a front of the text was emitted. A stop at any
/// moment, once the files are synced for the first time, leaves a cut of the guarded run's events.
pub fn guard_in_folder<W: Outside>(
    alloc: Global,
    program: Program,
    lines: &GuardLines,
    turns: u64,
    outside: &mut W,
    hosts: &HostTable,
) -> Result<Ending, Stop>
    requires sound { Sound (program_of program) (specs_of hosts.now.names) }
    ensures answered { Answered (GuardsTo hosts.now.names lines.now turns (program_of program) (start W.Outside.own outside.old)) result (passage W.Output W.Outside.own outside.old outside.new) }
{
    let (store, table) = open_under(alloc, &program.relations, lines, outside, hosts)?;
    match bind(alloc, program, store.base().catalogue()) {
        Ok(program) => {
            let rules = Rules {
                table,
                lines,
                hosts,
            };
            guard_bound(alloc, &program, store, rules, turns, outside)
        }
        Err(BindFault::Differs { .. }) => unreachable!(),
        Err(BindFault::Memory) => Err(Stop::Memory),
    }
}

//! The run of a program over a folder.
ghost use Rattle.std.specs.Prelude.{◌≡◌, IfErr};
ghost use Rattle.hera_meaning.specs.Plain.{program_of};
ghost use Rattle.hera_meaning.specs.Sound.{Sound};
ghost use Rattle.hera_meaning.specs.Run.{run_of};
ghost use Rattle.hera_host.specs.Tables.{specs_of};
ghost use Rattle.hera_store.specs.Standing.{database_of};
ghost use Rattle.hera_outcome.specs.Answers.{number_of, IsFault};
ghost use Rattle.hera_outcome.specs.Passages.{passage, start};
ghost use Rattle.hera_outcome.specs.Told.{IsToldBehind, Answered};
ghost use Rattle.hera_run.specs.Folder.{outcome_from, RunsTo};
ghost use Rattle.hera_run.specs.Opening.{IsOpen};

use crate::keeper::InFolder;
use crate::opening::open_for;
use crate::run::{ending_of, run_code};
use hera_bind::{BindFault, bind};
use hera_codegen::{code_does_what_the_program_means, generate};
use hera_host::HostTable;
use hera_meaning::Program;
use hera_outcome::{Ending, Refusal, Stop};
use hera_store::Store;
use hera_volume::Outside;
use std::alloc::Global;

/// Runs a bound program over an open store.
fn run_bound<W: Outside>(
    alloc: Global,
    program: &Program,
    store: Store,
    turns: u64,
    outside: &mut W,
    hosts: &HostTable,
) -> Result<Ending, Stop>
    requires sound { Sound (program_of program.now) (specs_of hosts.now.names) }
    requires relations { (program_of program.now).relations ≡ store.base.catalogue }
    requires opens { IsOpen store (passage W.Output W.Outside.own outside.old outside.old) }
    ensures told { IsToldBehind (outcome_from (database_of store) store.end (run_of (program_of program.now) (database_of store).state (specs_of hosts.now.names) turns)) (number_of result) (passage W.Output W.Outside.own outside.old outside.new) }
    ensures fault { IfErr result IsFault }
{
    code_does_what_the_program_means();
    let code = generate(alloc, program)?;
    let mut keeper = InFolder::over(alloc, store)?;
    let relations = &program.relations;
    let close = run_code(alloc, &code, relations, &mut keeper, turns, outside, hosts)?;
    Ok(ending_of(close))
}

/// Opens the folder, binds the program to its relations, and runs it with at most so many turns. A half of format 1 is
/// rewritten in format 2 behind the binding and before the first instruction.
///
/// Ok tells how the meaning ends; then all that it prints was emitted, and the files hold the state that it stores last.
/// `Refused` tells that there is no database, that a file is damaged or that a relation differs; that is still to be told.
/// `Full` tells that a commit needs more than 268,435,456 bytes; what comes before it was carried out, and nothing after.
/// It also tells that the rewriting needs more, and then nothing was carried out. At `Device`, `Output` and `Memory` a front
/// of the text was emitted. A stop at any moment, once the files are synced for the first time, leaves a cut of the run's
/// events.
pub fn run_in_folder<W: Outside>(
    alloc: Global,
    program: Program,
    turns: u64,
    outside: &mut W,
    hosts: &HostTable,
) -> Result<Ending, Stop>
    requires sound { Sound (program_of program) (specs_of hosts.now.names) }
    ensures answered { Answered (RunsTo hosts.now.names turns (program_of program) (start W.Outside.own outside.old)) result (passage W.Output W.Outside.own outside.old outside.new) }
{
    let store = open_for(alloc, &program.relations, outside)?;
    match bind(alloc, program, store.base().catalogue()) {
        Ok(program) => run_bound(alloc, &program, store, turns, outside, hosts),
        Err(BindFault::Differs { relation }) => Err(Stop::Refused(Refusal::Differing { relation })),
        Err(BindFault::Memory) => Err(Stop::Memory),
    }
}

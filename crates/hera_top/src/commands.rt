//! The commands on a program.
ghost use Rattle.std.specs.Prelude.{◌≡◌, ◌≢◌, ℕ, false};
ghost use Rattle.hera_meaning.specs.Catalogues.{IsCatalogue};
ghost use Rattle.hera_meaning.specs.Plain.{program_of};
ghost use Rattle.hera_meaning.specs.Sound.{Sound};
ghost use Rattle.hera_host.specs.Tables.{specs_of};
ghost use Rattle.hera_outcome.specs.Passages.{passage, start};
ghost use Rattle.hera_outcome.specs.Told.{Answered};
ghost use Rattle.hera_words.specs.declared.command.Command.{Command};
ghost use Rattle.hera_words.specs.Words.{form_of};
ghost use Rattle.hera_top.specs.Commands.{Performs, ReadsScript, IsMade, IsWidened, IsApart};

use crate::catalogue::catalogue_of;
use crate::folders::widen_to;
use crate::run::run;
use hera_code::listing;
use hera_codegen::{code_does_what_the_program_means, generate};
use hera_host::HostTable;
use hera_meaning::{Program, RelDecl};
use hera_outcome::{Ending, Refusal, Stop, tell};
use hera_row::Catalogue;
use hera_run::run_in_folder;
use hera_store::{InitFault, init_store};
use hera_volume::Outside;
use hera_words::Command;
use std::alloc::Global;

/// Prints the listing of a program's code.
fn list<W: Outside>(
    alloc: Global,
    program: &Program,
    outside: &mut W,
    hosts: &HostTable,
) -> Result<Ending, Stop>
    requires sound { Sound (program_of program.now) (specs_of hosts.now.names) }
    ensures answered { Answered (Performs hosts.now.names (program_of program.now) (start W.Outside.own outside.old) Command.List) result (passage W.Output W.Outside.own outside.old outside.new) }
    ensures apart { IsApart result (passage W.Output W.Outside.own outside.old outside.new) }
{
    let code = generate(alloc, program)?;
    let text = listing(alloc, &code)?;
    tell(outside, text.bytes())
}

/// Runs a program on its relations without rows, with at most so many turns.
fn eval<W: Outside>(
    alloc: Global,
    program: &Program,
    turns: u64,
    outside: &mut W,
    hosts: &HostTable,
) -> Result<Ending, Stop>
    requires sound { Sound (program_of program.now) (specs_of hosts.now.names) }
    ensures answered { Answered (Performs hosts.now.names (program_of program.now) (start W.Outside.own outside.old) (Command.Eval turns)) result (passage W.Output W.Outside.own outside.old outside.new) }
    ensures apart { IsApart result (passage W.Output W.Outside.own outside.old outside.new) }
{
    code_does_what_the_program_means();
    let code = generate(alloc, program)?;
    run(alloc, &code, &program.relations, turns, outside, hosts)
}

/// Makes the database of a catalogue in the folder, without rows.
fn make_from<W: Outside>(
    alloc: Global,
    catalogue: &Catalogue,
    outside: &mut W,
) -> Result<Ending, Stop>
    ensures answered { Answered (IsMade catalogue.now (start W.Outside.own outside.old)) result (passage W.Output W.Outside.own outside.old outside.new) }
{
    match init_store(alloc, outside, catalogue) {
        Ok(()) => tell(outside, b"created\n"),
        Err(InitFault::Exists) => Err(Stop::Refused(Refusal::Exists)),
        Err(InitFault::Device) => Err(Stop::Device),
        Err(InitFault::Memory) => Err(Stop::Memory),
    }
}

/// Makes the database of these relations in the folder, without rows.
fn init<W: Outside>(alloc: Global, relations: &[RelDecl], outside: &mut W) -> Result<Ending, Stop>
    requires { IsCatalogue relations.now }
    ensures answered { Answered (IsMade relations.now (start W.Outside.own outside.old)) result (passage W.Output W.Outside.own outside.old outside.new) }
{
    let catalogue = catalogue_of(alloc, relations)?;
    make_from(alloc, &catalogue, outside)
}

/// Widens the database in the folder to these relations.
fn widen<W: Outside>(alloc: Global, relations: &[RelDecl], outside: &mut W) -> Result<Ending, Stop>
    requires { IsCatalogue relations.now }
    ensures answered { Answered (IsWidened relations.now (start W.Outside.own outside.old)) result (passage W.Output W.Outside.own outside.old outside.new) }
{
    let catalogue = catalogue_of(alloc, relations)?;
    widen_to(alloc, &catalogue, outside)
}

/// Carries out a command on an accepted script's program.
pub(crate) fn perform<W: Outside>(
    alloc: Global,
    command: Command,
    program: Program,
    outside: &mut W,
    hosts: &HostTable,
) -> Result<Ending, Stop>
    requires reads { ReadsScript command }
    requires sound { Sound (program_of program) (specs_of hosts.now.names) }
    ensures answered { Answered (Performs hosts.now.names (program_of program) (start W.Outside.own outside.old) command) result (passage W.Output W.Outside.own outside.old outside.new) }
    ensures apart { (form_of command).folder ≡ false → IsApart result (passage W.Output W.Outside.own outside.old outside.new) }
{
    match command {
        Command::Run(turns) => run_in_folder(alloc, program, turns, outside, hosts),
        _ => perform_on(alloc, command, &program, outside, hosts),
    }
}

/// Carries out a command other than a run over a folder.
fn perform_on<W: Outside>(
    alloc: Global,
    command: Command,
    program: &Program,
    outside: &mut W,
    hosts: &HostTable,
) -> Result<Ending, Stop>
    requires reads { ReadsScript command }
    requires sound { Sound (program_of program.now) (specs_of hosts.now.names) }
    requires other { (turns : ℕ) → command ≢ Command.Run turns }
    ensures answered { Answered (Performs hosts.now.names (program_of program.now) (start W.Outside.own outside.old) command) result (passage W.Output W.Outside.own outside.old outside.new) }
    ensures apart { (form_of command).folder ≡ false → IsApart result (passage W.Output W.Outside.own outside.old outside.new) }
{
    match command {
        Command::Check => tell(outside, b"accepted\n"),
        Command::List => list(alloc, program, outside, hosts),
        Command::Eval(turns) => eval(alloc, program, turns, outside, hosts),
        Command::Init => init(alloc, &program.relations, outside),
        Command::Widen => widen(alloc, &program.relations, outside),
        Command::Run(_)
        | Command::Pack
        | Command::Exec(_)
        | Command::Drill(_)
        | Command::Dump
        | Command::Checkpoint
        | Command::Import
        | Command::Export
        | Command::Guard(_)
        | Command::Weave { .. } => unreachable!(),
    }
}

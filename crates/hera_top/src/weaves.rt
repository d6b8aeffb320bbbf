//! The command on several scripts.
ghost use Rattle.std.specs.Prelude.{◌≡◌, ◌≤◌, ◌++◌, ◌∷◌, [], ℕ, List, OnOk, IfOk, IfErr, length, map};
ghost use Rattle.hera_meaning.specs.Plain.{program_of};
ghost use Rattle.hera_meaning.specs.Sound.{Sound};
ghost use Rattle.hera_host.specs.Tables.{specs_of};
ghost use Rattle.hera_outcome.specs.Passages.{passage};
ghost use Rattle.hera_woven.specs.Binding.{AreSound};
ghost use Rattle.hera_words.specs.declared.command.Command.{Command};
ghost use Rattle.hera_top.specs.Commands.{IsAnswered};
ghost use Rattle.hera_top.specs.Scripts.{IsAccepting, AreAccepting};
ghost use Rattle.hera_top.specs.Stopping.{IsStopped, AreStopped};
ghost use Rattle.hera_top.specs.Sources.{seen, seen_of, AreLater};

use crate::sources::read_source;
use hera_causes::Source;
use hera_host::HostTable;
use hera_meaning::Program;
use hera_outcome::{Ending, Stop};
use hera_script::read_program;
use hera_syntax::SCRIPT_LIMIT;
use hera_volume::Outside;
use hera_woven::weave_in_folder;
use std::alloc::Global;

/// Reads a script from a source and accepts it.
fn read_script<S: Source>(alloc: Global, source: &mut S, hosts: &HostTable) -> Result<Program, Stop>
    ensures read { IfOk result (λ program. IsAccepting hosts.now.names (seen S.left S.faults source.old) (seen S.left S.faults source.new) (program_of program)) }
    ensures sound { IfOk result (λ program. Sound (program_of program) (specs_of hosts.now.names)) }
    ensures stopped { IfErr result (IsStopped hosts.now.names (seen S.left S.faults source.old) (seen S.left S.faults source.new)) }
    ensures later { S.faults source.old ≤ S.faults source.new }
{
    let script = read_source(alloc, source, SCRIPT_LIMIT)?;
    let program = read_program(alloc, &script, hosts)?;
    Ok(program)
}

/// One item more.
fn put<T: Drop>(items: &mut Vec<T>, item: T) -> Result<(), Stop>
    ensures put { OnOk result (items.new.items ≡ items.old.items ++ item ∷ []) }
    ensures short { IfErr result (λ stop. stop ≡ Stop.Memory) }
{
    items.push(item)?;
    Ok(())
}

/// Reads a script from each source, in their order, and accepts it.
fn read_scripts<S: Source>(
    alloc: Global,
    sources: &mut Vec<S>,
    hosts: &HostTable,
) -> Result<Vec<Program>, Stop>
    ensures read { IfOk result (λ programs. AreAccepting hosts.now.names (seen_of S.left S.faults sources.old.items) (seen_of S.left S.faults sources.new.items) (map program_of programs.items)) }
    ensures sound { IfOk result (λ programs. AreSound (specs_of hosts.now.names) (map program_of programs.items)) }
    ensures stopped { IfErr result (AreStopped hosts.now.names (seen_of S.left S.faults sources.old.items) (seen_of S.left S.faults sources.new.items)) }
    ensures later { AreLater (seen_of S.left S.faults sources.old.items) (seen_of S.left S.faults sources.new.items) }
    ensures unread { length sources.old.items ≡ 0 → sources.new ≡ sources.old }
{
    let mut programs = Vec::new(alloc);
    for i in 0..sources.len() {
        let program = read_script(alloc, &mut sources[i], hosts)?;
        put(&mut programs, program)?;
    }
    Ok(programs)
}

/// Reads a script from each source, and runs their programs as sessions over the folder.
pub(crate) fn weave_sources<S: Source, W: Outside>(
    alloc: Global,
    turns: u64,
    order: u64,
    sources: &mut Vec<S>,
    outside: &mut W,
    hosts: &HostTable,
) -> Result<Ending, Stop>
    ensures answered { (name : List ℕ) (files : ℕ) → IsAnswered hosts.now.names name (Command.Weave turns order files) (seen_of S.left S.faults sources.old.items) (seen_of S.left S.faults sources.new.items) result (passage W.Output W.Outside.own outside.old outside.new) }
    ensures unread { length sources.old.items ≡ 0 → sources.new ≡ sources.old }
{
    let programs = read_scripts(alloc, sources, hosts)?;
    weave_in_folder(alloc, programs, turns, order, outside, hosts)
}

//! Runs under guards: the lines of guards from one source, the script from another.
ghost use Rattle.std.specs.Prelude.{◌≡◌, ◌≤◌, ℕ, List, IfOk, IfErr, length};
ghost use Rattle.hera_syntax.specs.Tokens.{script_limit};
ghost use Rattle.hera_outcome.specs.Passages.{passage, start};
ghost use Rattle.hera_outcome.specs.Told.{Answered};
ghost use Rattle.hera_words.specs.declared.command.Command.{Command};
ghost use Rattle.hera_top.specs.Commands.{IsAnswered};
ghost use Rattle.hera_top.specs.Guarding.{AreLinesOf, GivesNoLines, GuardsFor, IsGuarded};
ghost use Rattle.hera_top.specs.Sources.{seen, seen_of};

use crate::sources::read_source;
use hera_causes::Source;
use hera_guard_lines::GuardLines;
use hera_guarded::{guard_in_folder, read_rules};
use hera_host::HostTable;
use hera_outcome::{Ending, Stop};
use hera_script::read_program;
use hera_syntax::SCRIPT_LIMIT;
use hera_volume::Outside;
use std::alloc::Global;

/// The lines of guards that a source writes.
fn lines_of<S: Source>(alloc: Global, source: &mut S) -> Result<GuardLines, Stop>
    ensures lines { IfOk result (AreLinesOf (seen S.left S.faults source.old) (seen S.left S.faults source.new)) }
    ensures none { IfErr result (GivesNoLines (seen S.left S.faults source.old) (seen S.left S.faults source.new)) }
    ensures later { S.faults source.old ≤ S.faults source.new }
{
    let rules = read_source(alloc, source, SCRIPT_LIMIT)?;
    let lines = read_rules(alloc, &rules)?;
    Ok(lines)
}

/// Runs a script over the folder under the guards that the lines mean.
fn guard_script<W: Outside>(
    alloc: Global,
    turns: u64,
    lines: &GuardLines,
    script: &[u8],
    outside: &mut W,
    hosts: &HostTable,
) -> Result<Ending, Stop>
    requires short { length script.now ≤ script_limit }
    ensures answered { Answered (GuardsFor hosts.now.names lines.now turns script.now (start W.Outside.own outside.old)) result (passage W.Output W.Outside.own outside.old outside.new) }
{
    let program = read_program(alloc, script, hosts)?;
    guard_in_folder(alloc, program, lines, turns, outside, hosts)
}

/// Reads a script and runs it over the folder under the guards that the lines mean.
fn guard_source<S: Source, W: Outside>(
    alloc: Global,
    turns: u64,
    lines: &GuardLines,
    source: &mut S,
    outside: &mut W,
    hosts: &HostTable,
) -> Result<Ending, Stop>
    ensures answered { IsGuarded hosts.now.names lines.now turns (seen S.left S.faults source.old) (seen S.left S.faults source.new) result (passage W.Output W.Outside.own outside.old outside.new) }
{
    let script = read_source(alloc, source, SCRIPT_LIMIT)?;
    guard_script(alloc, turns, lines, &script, outside, hosts)
}

/// Runs the script of the second source over the folder under the guards of the first.
pub(crate) fn guard_sources<S: Source, W: Outside>(
    alloc: Global,
    turns: u64,
    sources: &mut Vec<S>,
    outside: &mut W,
    hosts: &HostTable,
) -> Result<Ending, Stop>
    requires both { length sources.old.items ≡ 2 }
    ensures answered { (name : List ℕ) → IsAnswered hosts.now.names name (Command.Guard turns) (seen_of S.left S.faults sources.old.items) (seen_of S.left S.faults sources.new.items) result (passage W.Output W.Outside.own outside.old outside.new) }
{
    let lines = lines_of(alloc, &mut sources[0])?;
    guard_source(alloc, turns, &lines, &mut sources[1], outside, hosts)
}

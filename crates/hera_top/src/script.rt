//! Scripts: read from a source, accepted, and handed to a command.
ghost use Rattle.std.specs.Prelude.{◌≡◌, ◌≤◌, ℕ, List, [], ◌∷◌, false, length};
ghost use Rattle.hera_syntax.specs.Tokens.{script_limit};
ghost use Rattle.hera_outcome.specs.Passages.{passage, start};
ghost use Rattle.hera_outcome.specs.Told.{Answered};
ghost use Rattle.hera_words.specs.Words.{form_of};
ghost use Rattle.hera_top.specs.Commands.{ComesToFor, ReadsScript, IsAnswered, IsApart};
ghost use Rattle.hera_top.specs.Sources.{seen};

use crate::commands::perform;
use crate::sources::read_source;
use hera_causes::Source;
use hera_host::HostTable;
use hera_outcome::{Ending, Stop};
use hera_script::read_program;
use hera_syntax::SCRIPT_LIMIT;
use hera_volume::Outside;
use hera_words::Command;
use std::alloc::Global;

/// Carries out a command on a script.
pub(crate) fn answer_script<W: Outside>(
    alloc: Global,
    command: Command,
    script: &[u8],
    outside: &mut W,
    hosts: &HostTable,
) -> Result<Ending, Stop>
    requires reads { ReadsScript command }
    requires short { length script.now ≤ script_limit }
    ensures answered { Answered (ComesToFor hosts.now.names script.now (start W.Outside.own outside.old) command) result (passage W.Output W.Outside.own outside.old outside.new) }
    ensures apart { (form_of command).folder ≡ false → IsApart result (passage W.Output W.Outside.own outside.old outside.new) }
{
    let program = read_program(alloc, script, hosts)?;
    perform(alloc, command, program, outside, hosts)
}

/// Reads a script and carries out a command on it.
pub(crate) fn answer_source<S: Source, W: Outside>(
    alloc: Global,
    command: Command,
    source: &mut S,
    outside: &mut W,
    hosts: &HostTable,
) -> Result<Ending, Stop>
    requires reads { ReadsScript command }
    ensures answered { (name : List ℕ) → IsAnswered hosts.now.names name command (seen S.left S.faults source.old ∷ []) (seen S.left S.faults source.new ∷ []) result (passage W.Output W.Outside.own outside.old outside.new) }
    ensures apart { (form_of command).folder ≡ false → IsApart result (passage W.Output W.Outside.own outside.old outside.new) }
{
    let script = read_source(alloc, source, SCRIPT_LIMIT)?;
    answer_script(alloc, command, &script, outside, hosts)
}

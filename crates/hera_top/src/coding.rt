//! The commands on code files.
ghost use Rattle.std.specs.Prelude.{◌≡◌, ◌≤◌, ℕ, List, [], ◌∷◌, length};
ghost use Rattle.hera_meaning.specs.Plain.{program_of};
ghost use Rattle.hera_meaning.specs.Sound.{Sound};
ghost use Rattle.hera_host.specs.Tables.{specs_of};
ghost use Rattle.hera_rules.specs.Programs.{ElabScript};
ghost use Rattle.hera_rules.specs.ReadActs.{script_of};
ghost use Rattle.hera_syntax.specs.declared.token.Token.{Token};
ghost use Rattle.hera_syntax.specs.Tokens.{HaveValues, script_limit};
ghost use Rattle.hera_syntax.specs.Trees.{IsTextOf};
ghost use Rattle.hera_outcome.specs.Passages.{passage};
ghost use Rattle.hera_outcome.specs.Told.{Answered};
ghost use Rattle.hera_packed.specs.Executed.{ExecutesTo};
ghost use Rattle.hera_words.specs.declared.command.Command.{Command};
ghost use Rattle.hera_top.specs.Coding.{PrintsPack, PacksTo};
ghost use Rattle.hera_top.specs.Commands.{IsAnswered, IsApart};
ghost use Rattle.hera_top.specs.Sources.{seen};

use crate::run::run;
use crate::sources::read_source;
use hera_causes::Source;
use hera_host::HostTable;
use hera_meaning::Program;
use hera_outcome::{Ending, Refusal, Stop, tell};
use hera_packed::{CODE_LIMIT, OpenFault, open_code, pack_script};
use hera_script::read_script;
use hera_syntax::{SCRIPT_LIMIT, Tree};
use hera_volume::Outside;
use std::alloc::Global;

/// Prints a code file of a script's program.
fn print_pack<W: Outside>(
    alloc: Global,
    tree: &Tree,
    program: &Program,
    outside: &mut W,
    hosts: &HostTable,
) -> Result<Ending, Stop>
    requires text { (tokens : List Token) × IsTextOf tree.now tokens × (length tokens ≤ script_limit) × HaveValues tokens }
    requires typed { ElabScript hosts.now.names (script_of tree.now) (program_of program.now) }
    requires sound { Sound (program_of program.now) (specs_of hosts.now.names) }
    ensures answered { Answered (PrintsPack (specs_of hosts.now.names) (program_of program.now)) result (passage W.Output W.Outside.own outside.old outside.new) }
    ensures apart { IsApart result (passage W.Output W.Outside.own outside.old outside.new) }
{
    let text = pack_script(alloc, tree, hosts, program)?;
    tell(outside, text.bytes())
}

/// Prints a code file of a script, where it is accepted.
fn pack<W: Outside>(
    alloc: Global,
    script: &[u8],
    outside: &mut W,
    hosts: &HostTable,
) -> Result<Ending, Stop>
    requires short { length script.now ≤ script_limit }
    ensures answered { Answered (PacksTo hosts.now.names script.now) result (passage W.Output W.Outside.own outside.old outside.new) }
    ensures apart { IsApart result (passage W.Output W.Outside.own outside.old outside.new) }
{
    let (tree, program) = read_script(alloc, script, hosts)?;
    print_pack(alloc, &tree, &program, outside, hosts)
}

/// Reads a script and prints a code file of it.
pub(crate) fn pack_source<S: Source, W: Outside>(
    alloc: Global,
    source: &mut S,
    outside: &mut W,
    hosts: &HostTable,
) -> Result<Ending, Stop>
    ensures answered { (name : List ℕ) → IsAnswered hosts.now.names name Command.Pack (seen S.left S.faults source.old ∷ []) (seen S.left S.faults source.new ∷ []) result (passage W.Output W.Outside.own outside.old outside.new) }
    ensures apart { IsApart result (passage W.Output W.Outside.own outside.old outside.new) }
{
    let script = read_source(alloc, source, SCRIPT_LIMIT)?;
    pack(alloc, &script, outside, hosts)
}

/// Runs a code file, where its code is verified, on its relations without rows, with at most so many turns.
fn execute<W: Outside>(
    alloc: Global,
    bytes: &[u8],
    turns: u64,
    outside: &mut W,
    hosts: &HostTable,
) -> Result<Ending, Stop>
    ensures answered { Answered (ExecutesTo (specs_of hosts.now.names) turns bytes.now) result (passage W.Output W.Outside.own outside.old outside.new) }
    ensures apart { IsApart result (passage W.Output W.Outside.own outside.old outside.new) }
{
    match open_code(alloc, bytes, hosts) {
        Ok(file) => run(alloc, &file.code, &file.relations, turns, outside, hosts),
        Err(OpenFault::BadCode { at }) => Err(Stop::Refused(Refusal::BadCode { at })),
        Err(OpenFault::Rejected { at }) => Err(Stop::Refused(Refusal::Rejected { at })),
        Err(OpenFault::Memory) => Err(Stop::Memory),
    }
}

/// Reads a code file and runs it.
pub(crate) fn exec_source<S: Source, W: Outside>(
    alloc: Global,
    turns: u64,
    source: &mut S,
    outside: &mut W,
    hosts: &HostTable,
) -> Result<Ending, Stop>
    ensures answered { (name : List ℕ) → IsAnswered hosts.now.names name (Command.Exec turns) (seen S.left S.faults source.old ∷ []) (seen S.left S.faults source.new ∷ []) result (passage W.Output W.Outside.own outside.old outside.new) }
    ensures apart { IsApart result (passage W.Output W.Outside.own outside.old outside.new) }
{
    let bytes = read_source(alloc, source, CODE_LIMIT)?;
    execute(alloc, &bytes, turns, outside, hosts)
}

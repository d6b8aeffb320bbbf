ghost use Rattle.std.specs.Prelude.{◌≡◌, ◌≢◌, ◌≤◌, ◌+◌, false, length, Some, None};
ghost use Rattle.hera_causes.specs.Causes.{Rose};
ghost use Rattle.hera_outcome.specs.Outcomes.{refused};
ghost use Rattle.hera_outcome.specs.Passages.{passage, start, KeepsFiles};
ghost use Rattle.hera_outcome.specs.Told.{IsTold, Answered};
ghost use Rattle.hera_outcome.specs.declared.refusal.Refusal.{Refusal};
ghost use Rattle.hera_words.specs.declared.command.Command.{Command};
ghost use Rattle.hera_words.specs.Words.{words_of, command_of, files_in, folder_in, relation_in, form_of};
ghost use Rattle.hera_top.specs.Commands.{Answers, IsAnswered, IsApart, ComesToFor};
ghost use Rattle.hera_top.specs.Drill.{drill_text, drill_turns};
ghost use Rattle.hera_top.specs.Sources.{seen_of, AreLater, OneFailed};

use crate::coding::{exec_source, pack_source};
use crate::drill::{DRILL_TURNS, drill_text};
use crate::folders::{checkpoint, dump};
use crate::guard::guard_sources;
use crate::script::{answer_script, answer_source};
use crate::transfers::import_source;
use crate::weaves::weave_sources;
use hera_causes::Source;
use hera_host::HostTable;
use hera_outcome::{Ending, Refusal, Stop, conclude, refuse};
use hera_transfer::export;
use hera_volume::Outside;
use hera_words::{Command, read_words, relation_of};
use std::alloc::Global;

/// Runs the drill over so many rows.
fn drill<W: Outside>(
    alloc: Global,
    rows: u64,
    outside: &mut W,
    hosts: &HostTable,
) -> Result<Ending, Stop>
    ensures answered { Answered (ComesToFor hosts.now.names (drill_text rows) (start W.Outside.own outside.old) (Command.Eval drill_turns)) result (passage W.Output W.Outside.own outside.old outside.new) }
    ensures apart { IsApart result (passage W.Output W.Outside.own outside.old outside.new) }
{
    let text = drill_text(alloc, rows)?;
    answer_script(alloc, Command::Eval(DRILL_TURNS), &text, outside, hosts)
}

/// Carries out a command. A refusal is still to be told. The name is that of a relation.
fn answer<S: Source, W: Outside>(
    alloc: Global,
    command: Command,
    name: &[u8],
    sources: &mut Vec<S>,
    outside: &mut W,
    hosts: &HostTable,
) -> Result<Ending, Stop>
    requires sources { length sources.old.items + (files_in (Some command)).0 ≡ (files_in (Some command)).1 }
    ensures answered { IsAnswered hosts.now.names name.now command (seen_of S.left S.faults sources.old.items) (seen_of S.left S.faults sources.new.items) result (passage W.Output W.Outside.own outside.old outside.new) }
    ensures unread { (form_of command).files ≡ 0 → sources.new ≡ sources.old }
    ensures apart { (form_of command).folder ≡ false → IsApart result (passage W.Output W.Outside.own outside.old outside.new) }
{
    match command {
        Command::Pack => pack_source(alloc, &mut sources[0], outside, hosts),
        Command::Exec(turns) => exec_source(alloc, turns, &mut sources[0], outside, hosts),
        Command::Drill(rows) => drill(alloc, rows, outside, hosts),
        Command::Dump => dump(alloc, outside),
        Command::Checkpoint => checkpoint(alloc, outside),
        Command::Import => import_source(alloc, name, &mut sources[0], outside),
        Command::Export => export(alloc, name, outside),
        Command::Guard(turns) => guard_sources(alloc, turns, sources, outside, hosts),
        Command::Weave { turns, order, .. } => {
            weave_sources(alloc, turns, order, sources, outside, hosts)
        }
        Command::Check
        | Command::List
        | Command::Eval(_)
        | Command::Init
        | Command::Run(_)
        | Command::Widen => answer_source(alloc, command, &mut sources[0], outside, hosts),
    }
}

/// Carries out the command that the words give, and gives the exit status.
///
/// - `check FILE` prints `accepted` where the script of the first source is accepted.
/// - `list FILE` prints the listing of its code.
/// - `eval TURNS FILE` runs it on an empty database with at most TURNS turns.
/// - `pack FILE` prints a code file of it: its relations and its code, with notes with which that is typed code.
/// - `exec TURNS FILE` runs the code file of FILE on its relations without rows with at most TURNS turns, where its code is
///   verified.
/// - `drill N` runs with at most 1,000,000 turns the script `drill_text` of N, from 1 to 1000, and reads none.
/// - `init DIR FILE` makes the database of its relations, without rows, in the folder, and prints `created`.
/// - `run DIR TURNS FILE` runs it on the database in the folder with at most TURNS turns, and stores what it commits.
/// - `dump DIR` prints every relation of the database in the folder.
/// - `checkpoint DIR` writes the other half of the folder anew, selects it, and prints `checkpointed`.
/// - `widen DIR FILE` widens the database in the folder to the relations of the script of FILE, and prints `widened`.
/// - `import DIR R FILE` adds the rows of the CSV file FILE to the relation R of the database in the folder, in one commit,
///   and prints `imported N`, N being how many rows the file has, each counted once.
/// - `export DIR R` prints the relation R of the database in the folder as CSV.
/// - `guard DIR TURNS RULES FILE` runs the script of FILE as `run` does, and stores no commit behind which a row breaks a
///   guard of RULES: in place of it the line of the first such row is printed, and the run ends. RULES is the first source.
/// - `weave DIR TURNS ORDER FILE ..` runs the scripts of 1 to 64 files as sessions over the database in the folder, one
///   instruction at a time, each with at most TURNS turns; ORDER says whose step comes next. As a session closes, what it
///   commits is stored, and its number and text are printed.
///
/// A script may call the hosts of the table.
///
/// The statuses: 0 the command or the run is done, 1 the run ended in a trap, 2 the words are no listed form, 3 the
/// script or the file is refused, 4 the turns were spent, 5 there is a database and there should be none, or none, or it is
/// damaged or lacks a relation, or one of its own would be narrowed, 6 a call on a file of the folder failed, 7 the source
/// of the script or the file failed, 8 the output failed, 9 there was no memory, 10 the half of a commit, of a checkpoint,
/// of a widening or in place of one of format 1 would be longer than 268,435,456 bytes, 11 a row breaks a guard. With 6,
/// 8 and 9 a prefix of what would have been emitted was emitted, else all of it.
pub fn hera<S: Source, W: Outside>(
    alloc: Global,
    words: &Vec<String>,
    sources: &mut Vec<S>,
    outside: &mut W,
    hosts: &HostTable,
) -> u8
    requires sources { length sources.old.items + (files_in (command_of (words_of words.now.items))).0 ≡ (files_in (command_of (words_of words.now.items))).1 }
    // Words that are no listed form.
    ensures usage { command_of (words_of words.now.items) ≡ None → IsTold (refused Refusal.Usage) result (passage W.Output W.Outside.own outside.old outside.new) }
    ensures usage_only { result ≡ 2 → command_of (words_of words.now.items) ≡ None }

    // Each command.
    ensures answers { (command : Command) → command_of (words_of words.now.items) ≡ Some command
        → Answers hosts.now.names (relation_in (command_of (words_of words.now.items)) (words_of words.now.items)) command (seen_of S.left S.faults sources.old.items) (seen_of S.left S.faults sources.new.items) result (passage W.Output W.Outside.own outside.old outside.new) }

    // Words without a folder make no call on a file that shows, and those without a script read none.
    ensures keeps { folder_in (command_of (words_of words.now.items)) ≡ None → KeepsFiles (passage W.Output W.Outside.own outside.old outside.new) }
    ensures unread_sources { files_in (command_of (words_of words.now.items)) ≡ (0, 0) → sources.new ≡ sources.old }

    // The causes of the statuses 6, 7 and 8.
    ensures device { result ≡ 6 → Rose (W.device_faults outside.old) (W.device_faults outside.new) }
    ensures device_only { result ≡ 6 → folder_in (command_of (words_of words.now.items)) ≢ None }
    ensures unread { result ≡ 7 → OneFailed (seen_of S.left S.faults sources.old.items) (seen_of S.left S.faults sources.new.items) }
    ensures output { result ≡ 8 → Rose (W.output_faults outside.old) (W.output_faults outside.new) }
    ensures source_later { AreLater (seen_of S.left S.faults sources.old.items) (seen_of S.left S.faults sources.new.items) }
    ensures output_later { W.output_faults outside.old ≤ W.output_faults outside.new }
    ensures device_later { W.device_faults outside.old ≤ W.device_faults outside.new }
{
    match read_words(words.as_slice()) {
        Some(command) => {
            let name = relation_of(words).as_bytes();
            let ended = answer(alloc, command, name, sources, outside, hosts);
            conclude(alloc, outside, ended)
        }
        None => refuse(alloc, outside, &Refusal::Usage),
    }
}

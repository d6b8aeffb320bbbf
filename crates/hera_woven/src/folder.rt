//! A weave of programs over a folder.
ghost use Rattle.std.specs.Prelude.{◌≡◌, ℕ, List, All, OnOk, IfErr, map};
ghost use Rattle.hera_meaning.specs.Commits.{IsCommitOf};
ghost use Rattle.hera_meaning.specs.Plain.{program_of};
ghost use Rattle.hera_machine.specs.Over.{state_over};
ghost use Rattle.hera_host.specs.Tables.{specs_of};
ghost use Rattle.hera_store.specs.Standing.{database_of};
ghost use Rattle.hera_outcome.specs.Answers.{number_of, IsFault};
ghost use Rattle.hera_outcome.specs.Passages.{passage, start};
ghost use Rattle.hera_outcome.specs.Told.{IsToldBehind, Answered};
ghost use Rattle.hera_run.specs.Folder.{outcome_from};
ghost use Rattle.hera_run.specs.Opening.{IsOpen};
ghost use Rattle.hera_woven.specs.Weaving.{tasks_of, IsWhole, report_of, WeavesTo};
ghost use Rattle.hera_woven.specs.Binding.{AreSound, HaveRelations, codes_of};
ghost use Rattle.hera_woven.specs.Going.{plan_over, IsWoven, IsHeldUp};

use crate::binding::{all_codes, all_relations, all_sessions, bind_all};
use crate::keeping::Folder;
use crate::weaving::weave_all;
use hera_code::Code;
use hera_host::HostTable;
use hera_meaning::Program;
use hera_outcome::{Ending, Stop};
use hera_run::open_for;
use hera_store::Store;
use hera_volume::Outside;
use hera_weave::{Rota, Weave};
use std::alloc::Global;

/// What is woven: bound programs with their code, how many turns each has, and the number that tells the order of the steps.
#[derive(Clone, Copy)]
struct Warp<'c> {
    programs: &'c [Program],
    codes: &'c [Code],
    turns: u64,
    order: u64,
}

/// Weaves bound programs over an open folder.
fn weave_coded<W: Outside>(
    alloc: Global,
    warp: &Warp<'_>,
    folder: &mut Folder,
    outside: &mut W,
    hosts: &HostTable,
) -> Result<(), Stop>
    requires codes { warp.now.codes.now ≡ codes_of (map program_of warp.now.programs.now) }
    requires sound { AreSound (specs_of hosts.now.names) (map program_of warp.now.programs.now) }
    requires relations { HaveRelations folder.old.store.base.catalogue (map program_of warp.now.programs.now) }
    requires opens { IsOpen folder.old.store (passage W.Output W.Outside.own outside.old outside.old) }
    requires does { state_over folder.old.store.base.state folder.old.commits.items ≡ (database_of folder.old.store).state }
    requires proper { All (IsCommitOf folder.old.store.base.catalogue) folder.old.commits.items }
    ensures woven { OnOk result (IsWoven (specs_of hosts.now.names) (plan_over (tasks_of warp.now.turns (map program_of warp.now.programs.now)) warp.now.order folder.old.store) folder.new.store (passage W.Output W.Outside.own outside.old outside.new)) }
    ensures held_up { IfErr result (IsHeldUp (specs_of hosts.now.names) (plan_over (tasks_of warp.now.turns (map program_of warp.now.programs.now)) warp.now.order folder.old.store) folder.new.store (passage W.Output W.Outside.own outside.old outside.new)) }
{
    let mut rota = Rota::new(alloc, warp.order, warp.programs.len())?;
    let sessions = all_sessions(alloc, warp.programs, warp.codes, warp.turns)?;
    let mut weave = Weave::new(alloc, sessions, folder.commits.len())?;
    weave_all(alloc, &mut weave, &mut rota, folder, outside, hosts)
}

/// Weaves bound programs over an open store.
fn weave_bound<W: Outside>(
    alloc: Global,
    programs: &[Program],
    store: Store,
    turns: u64,
    order: u64,
    outside: &mut W,
    hosts: &HostTable,
) -> Result<Ending, Stop>
    requires sound { AreSound (specs_of hosts.now.names) (map program_of programs.now) }
    requires relations { HaveRelations store.base.catalogue (map program_of programs.now) }
    requires opens { IsOpen store (passage W.Output W.Outside.own outside.old outside.old) }
    ensures told { (schedule : List ℕ) → IsWhole (tasks_of turns (map program_of programs.now)) (database_of store).state (specs_of hosts.now.names) order schedule
        → IsToldBehind (outcome_from (database_of store) store.end (report_of (tasks_of turns (map program_of programs.now)) (database_of store).state schedule (specs_of hosts.now.names))) (number_of result) (passage W.Output W.Outside.own outside.old outside.new) }
    ensures fault { IfErr result IsFault }
{
    let codes = all_codes(alloc, programs)?;
    let mut folder = Folder::over(alloc, store)?;
    let warp = Warp {
        programs,
        codes: &codes,
        turns,
        order,
    };
    weave_coded(alloc, &warp, &mut folder, outside, hosts)?;
    Ok(Ending::Done)
}

/// Opens the folder, binds the programs to its relations one after another, and runs them as sessions, an instruction at a
/// time, in the order that the number tells, each with at most so many turns. A half of format 1 is rewritten in format 2
/// behind the binding and before the first instruction.
///
/// `x` is the number at first. Of the `c` sessions that have not closed, in ascending order, the one at place `x mod c` makes
/// the next step; then `x` becomes `x / c`, and the number again where that is 0. A session runs on the state committed at its
/// first step, and closes at the step that ends its run: what it stored is one commit, unless one since its first step touched
/// a relation that it reads; then the line `session I` is printed, and its text.
///
/// Ok tells that all sessions have closed, however they ended; then all that they print was emitted, and the files hold the
/// state that they stored last. `Refused` tells that there is no database, that a file is damaged, or the first relation that
/// differs; that is still to be told. `Full` tells that a commit needs more than 268,435,456 bytes; what comes before it was
/// carried out, and nothing after. It also tells that the rewriting needs more, and then nothing was carried out. At `Device`,
/// `Output` and `Memory` a front of the text was emitted. A stop at any moment, once the files are synced for the first time,
/// leaves a cut of what the sessions do.
pub fn weave_in_folder<W: Outside>(
    alloc: Global,
    programs: Vec<Program>,
    turns: u64,
    order: u64,
    outside: &mut W,
    hosts: &HostTable,
) -> Result<Ending, Stop>
    requires sound { AreSound (specs_of hosts.now.names) (map program_of programs.items) }
    ensures answered { Answered (WeavesTo hosts.now.names turns order (map program_of programs.items) (start W.Outside.own outside.old)) result (passage W.Output W.Outside.own outside.old outside.new) }
{
    let own = all_relations(alloc, &programs)?;
    let store = open_for(alloc, &own, outside)?;
    let programs = bind_all(alloc, programs, store.base().catalogue())?;
    weave_bound(alloc, &programs, store, turns, order, outside, hosts)
}

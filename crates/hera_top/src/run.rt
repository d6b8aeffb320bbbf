ghost use Rattle.std.specs.Prelude.{◌≡◌, ℕ, IfOk, IfErr};
ghost use Rattle.hera_meaning.specs.Catalogues.{IsCatalogue};
ghost use Rattle.hera_meaning.specs.Run.{Report};
ghost use Rattle.hera_code.specs.Forward.{Forward};
ghost use Rattle.hera_code.specs.Reached.{code_at};
ghost use Rattle.hera_codegen.specs.Correct.{AreStoresOf, events_in};
ghost use Rattle.hera_host.specs.Tables.{specs_of};
ghost use Rattle.rel_pages.specs.Stored.{empty_state};
ghost use Rattle.hera_outcome.specs.Answers.{number_of, IsSpoken};
ghost use Rattle.hera_outcome.specs.Outcomes.{ran};
ghost use Rattle.hera_outcome.specs.Passages.{passage, KeepsFiles};
ghost use Rattle.hera_outcome.specs.Told.{IsTold};
ghost use Rattle.hera_packed.specs.Executed.{RunsAs};

use crate::catalogue::catalogue_of;
use hera_code::Code;
use hera_host::HostTable;
use hera_meaning::RelDecl;
use hera_outcome::{Ending, Stop};
use hera_run::{InMemory, ending_of, run_code};
use hera_volume::Outside;
use rel_pages::Base;
use std::alloc::{AllocError, Global};

/// The base of these relations without rows.
fn base_of(alloc: Global, relations: &[RelDecl]) -> Result<Base, AllocError>
    requires { IsCatalogue relations.now }
    ensures catalogue { IfOk result (λ base. base.catalogue ≡ relations.now) }
    ensures state { IfOk result (λ base. base.state ≡ empty_state relations.now) }
{
    let catalogue = catalogue_of(alloc, relations)?;
    Ok(Base::empty(alloc, catalogue)?)
}

/// Runs code that is over in time on these relations without rows, with at most so many turns, emits what it prints, and
/// gives the status of its end.
pub(crate) fn run<W: Outside>(
    alloc: Global,
    code: &Code,
    relations: &[RelDecl],
    turns: u64,
    outside: &mut W,
    hosts: &HostTable,
) -> Result<Ending, Stop>
    requires catalogue { IsCatalogue relations.now }
    requires forward { Forward code.now }
    requires stores { (k : ℕ) → AreStoresOf relations.now (events_in (code_at code.now relations.now (empty_state relations.now) (specs_of hosts.now.names) turns k)) }
    requires over { (report : Report) × RunsAs code.now relations.now (specs_of hosts.now.names) turns report }
    ensures told { (report : Report) → RunsAs code.now relations.now (specs_of hosts.now.names) turns report → IsTold (ran report) (number_of result) (passage W.Output W.Outside.own outside.old outside.new) }
    ensures spoken { IfErr result IsSpoken }
    ensures keeps { KeepsFiles (passage W.Output W.Outside.own outside.old outside.new) }
{
    let base = base_of(alloc, relations)?;
    let mut keeper = InMemory::over(alloc, base);
    let close = run_code(alloc, code, relations, &mut keeper, turns, outside, hosts)?;
    Ok(ending_of(close))
}

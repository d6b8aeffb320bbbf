//! Programs bound to the relations of a folder, one after another, and their code.
ghost use Rattle.std.specs.Prelude.{◌≡◌, ◌++◌, ◌∷◌, [], All, IfOk, IfErr, OnOk, map};
ghost use Rattle.hera_meaning.specs.Hosts.{Hosts};
ghost use Rattle.hera_meaning.specs.Plain.{program_of};
ghost use Rattle.hera_meaning.specs.Sound.{Sound};
ghost use Rattle.hera_rules.specs.Bound.{bound};
ghost use Rattle.hera_bind.specs.Having.{AllHas};
ghost use Rattle.hera_weave.specs.Tasks.{HasCode, task_of};
ghost use Rattle.hera_woven.specs.Weaving.{relations_of, all_bound, tasks_of};
ghost use Rattle.hera_woven.specs.Binding.{AreSound, IsUnbound, codes_of};

use hera_bind::{BindFault, bind};
use hera_code::Code;
use hera_codegen::generate;
use hera_meaning::{Program, RelDecl};
use hera_outcome::{Refusal, Stop};
use hera_row::Catalogue;
use hera_weave::Session;
use std::alloc::{AllocError, Global};

/// One item more.
fn put<T: Drop>(items: &mut Vec<T>, item: T) -> Result<(), AllocError>
    ensures { OnOk result (items.new.items ≡ items.old.items ++ item ∷ []) }
{
    items.push(item)?;
    Ok(())
}

/// The relations that programs declare, one program after another.
pub(crate) fn all_relations(alloc: Global, programs: &[Program]) -> Result<Vec<RelDecl>, AllocError>
    ensures { IfOk result (λ decls. decls.items ≡ relations_of (map program_of programs.now)) }
{
    let mut decls = Vec::new(alloc);
    for program in programs {
        put_copies(&mut decls, &program.relations)?;
    }
    Ok(decls)
}

/// Puts copies of declarations behind others.
fn put_copies(decls: &mut Vec<RelDecl>, more: &[RelDecl]) -> Result<(), AllocError>
    ensures { OnOk result (decls.new.items ≡ decls.old.items ++ more.now) }
{
    for decl in more {
        decls.push(decl.copy()?)?;
    }
    Ok(())
}

/// A program bound to a catalogue.
fn bind_one(alloc: Global, program: Program, catalogue: &Catalogue) -> Result<Program, Stop>
    ensures bound { IfOk result (λ p. program_of p ≡ bound (program_of program) catalogue.now) }
    ensures has { OnOk result (AllHas catalogue.now program.relations.items) }
    ensures sound { IfOk result (λ p. (hosts : Hosts) → Sound (program_of program) hosts → Sound (program_of p) hosts) }
    ensures unbound { IfErr result (IsUnbound catalogue.now program.relations.items) }
{
    match bind(alloc, program, catalogue) {
        Ok(program) => Ok(program),
        Err(BindFault::Differs { relation }) => Err(Stop::Refused(Refusal::Differing { relation })),
        Err(BindFault::Memory) => Err(Stop::Memory),
    }
}

/// Programs bound to a catalogue, one after another. The first relation that it has not is told.
pub(crate) fn bind_all(
    alloc: Global,
    programs: Vec<Program>,
    catalogue: &Catalogue,
) -> Result<Vec<Program>, Stop>
    ensures bound { IfOk result (λ ps. map program_of ps.items ≡ all_bound catalogue.now (map program_of programs.items)) }
    ensures has { OnOk result (AllHas catalogue.now (relations_of (map program_of programs.items))) }
    ensures sound { (hosts : Hosts) → AreSound hosts (map program_of programs.items) → IfOk result (λ ps. AreSound hosts (map program_of ps.items)) }
    ensures unbound { IfErr result (IsUnbound catalogue.now (relations_of (map program_of programs.items))) }
{
    let mut all = Vec::new(alloc);
    for program in programs {
        let next = bind_one(alloc, program, catalogue)?;
        put(&mut all, next)?;
    }
    Ok(all)
}

/// The code of each program.
pub(crate) fn all_codes(alloc: Global, programs: &[Program]) -> Result<Vec<Code>, AllocError>
    ensures { IfOk result (λ codes. codes.items ≡ codes_of (map program_of programs.now)) }
{
    let mut codes = Vec::new(alloc);
    for program in programs {
        let code = generate(alloc, program)?;
        put(&mut codes, code)?;
    }
    Ok(codes)
}

/// Programs with their code as sessions, each with so many turns.
pub(crate) fn all_sessions<'c>(
    alloc: Global,
    programs: &'c [Program],
    codes: &'c [Code],
    turns: u64,
) -> Result<Vec<Session<'c>>, AllocError>
    requires codes { codes.now ≡ codes_of (map program_of programs.now) }
    ensures code { IfOk result (λ sessions. All HasCode sessions.items) }
    ensures tasks { IfOk result (λ sessions. map task_of sessions.items ≡ tasks_of turns (map program_of programs.now)) }
{
    let mut sessions = Vec::new(alloc);
    for i in 0..programs.len() {
        sessions.push(Session {
            program: &programs[i],
            code: &codes[i],
            turns,
        })?;
    }
    Ok(sessions)
}

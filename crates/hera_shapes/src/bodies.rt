//! The shapes of bodies and of a whole script.

ghost use Rattle.std.specs.Prelude.{◌≡◌, ◌≤◌, [], ◌++◌, List, Ok, Some, None, IfOk, OnOk, length, map};
ghost use Rattle.hera_host.specs.Tables.{specs_of};
ghost use Rattle.hera_meaning.specs.Shapes.{IsShaped, body_shapes as shapes_of, body_types};
ghost use Rattle.hera_meaning.specs.Trees.{Program_tree};
ghost use Rattle.hera_rules.specs.Environments.{env_of};
ghost use Rattle.hera_rules.specs.Programs.{ElabScript, env_row};
ghost use Rattle.hera_rules.specs.ReadActs.{block_acts, func_phrase, main_acts, proc_phrase, script_of};
ghost use Rattle.hera_shapes.specs.Found.{body_found, funcs_found, procs_found, script_found};
ghost use Rattle.hera_sound.specs.Types_found.{types_found, types_with};
ghost use Rattle.hera_syntax.specs.declared.token.Token.{Token};
ghost use Rattle.hera_syntax.specs.Tokens.{HaveValues, script_limit};
ghost use Rattle.hera_syntax.specs.Trees.{IsTextOf};

use crate::acts::block;
use crate::typed::{add_slot, push_local};
use hera_host::{HostNames, HostTable};
use hera_meaning::{BodyShapes, Shape};
use hera_rules::{FuncSig, Local, LocalScope, ProcSig};
use hera_sound::typed_programs_are_shaped;
use hera_syntax::{Block, Func, Main, Proc, Tree};
use hera_types::globals_of;
use hera_types_parts::GlobalNames;
use std::alloc::{AllocError, Global};

/// The scope of a body with these parameters.
fn scope_of(alloc: Global, params: &[Local]) -> Result<LocalScope, AllocError>
    ensures locals { IfOk result (λ scope. scope.locals.items ≡ params.now) }
    ensures next { IfOk result (λ scope. scope.next ≡ length params.now) }
{
    let Ok(next) = u32::try_from(params.len()) else {
        return Err(AllocError);
    };
    let mut scope = LocalScope {
        locals: Vec::new(alloc),
        next,
    };
    for local in params {
        push_local(&mut scope, local.copy()?)?;
    }
    Ok(scope)
}

/// The shapes of a body with these parameters and no other slots, which returns this.
fn param_shapes(
    alloc: Global,
    returned: Option<Shape>,
    params: &[Local],
) -> Result<BodyShapes, AllocError>
    ensures { IfOk result (λ shapes. body_types shapes ≡ types_with params.now [] returned) }
{
    let mut shapes = BodyShapes {
        slots: Vec::new(alloc),
        gathers: Vec::new(alloc),
        result: returned,
    };
    for local in params {
        add_slot(&mut shapes, local.shape.copy()?, None)?;
    }
    Ok(shapes)
}

/// The shapes of a body with these parameters, which returns this.
fn body_shapes(
    alloc: Global,
    globals: &GlobalNames,
    returned: Option<Shape>,
    params: &[Local],
    e: &Block,
) -> Result<BodyShapes, AllocError>
    ensures { IfOk result (λ shapes. body_types shapes ≡ body_found (env_of globals.now) params.now returned (length params.now) (block_acts e.now)) }
{
    let mut shapes = param_shapes(alloc, returned, params)?;
    let mut scope = scope_of(alloc, params)?;
    block(alloc, globals, &mut scope, &mut shapes, e)?;
    Ok(shapes)
}

/// The shapes of main.
fn main_shapes(
    alloc: Global,
    globals: &GlobalNames,
    tree: &Option<Main>,
) -> Result<BodyShapes, AllocError>
    ensures { IfOk result (λ shapes. body_types shapes ≡ body_found (env_of globals.now) [] None 0 (main_acts tree.now)) }
{
    match tree {
        Some(main) => body_shapes(alloc, globals, None, &[], &main.block),
        None => param_shapes(alloc, None, &[]),
    }
}

/// The shapes of a func.
fn func_shapes(
    alloc: Global,
    globals: &GlobalNames,
    sig: &FuncSig,
    tree: &Func,
) -> Result<BodyShapes, AllocError>
    ensures { IfOk result (λ shapes. body_types shapes ≡ body_found (env_of globals.now) sig.now.params (Some sig.now.result) (length sig.now.params) (func_phrase tree.now).block) }
{
    let returned = Some(sig.result.copy()?);
    body_shapes(alloc, globals, returned, sig.params.items(), &tree.block)
}

/// The shapes of a proc.
fn proc_shapes(
    alloc: Global,
    globals: &GlobalNames,
    sig: &ProcSig,
    tree: &Proc,
) -> Result<BodyShapes, AllocError>
    ensures { IfOk result (λ shapes. body_types shapes ≡ body_found (env_of globals.now) sig.now.params None (length sig.now.params) (proc_phrase tree.now).block) }
{
    body_shapes(alloc, globals, None, sig.params.items(), &tree.block)
}

/// The shapes of the funcs behind these, one for each signature.
fn all_funcs(
    alloc: Global,
    globals: &GlobalNames,
    sigs: &[FuncSig],
    all: &mut Vec<BodyShapes>,
    trees: &[Func],
) -> Result<(), AllocError>
    ensures { OnOk result (map body_types all.new.items ≡ map body_types all.old.items ++ funcs_found (env_of globals.now) sigs.now (map func_phrase trees.now)) }
{
    let count = trees.len().min(sigs.len());
    for i in 0..count {
        let body = func_shapes(alloc, globals, &sigs[i], &trees[i])?;
        all.push(body)?;
    }
    Ok(())
}

/// The shapes of the procs behind these, one for each signature.
fn all_procs(
    alloc: Global,
    globals: &GlobalNames,
    sigs: &[ProcSig],
    all: &mut Vec<BodyShapes>,
    trees: &[Proc],
) -> Result<(), AllocError>
    ensures { OnOk result (map body_types all.new.items ≡ map body_types all.old.items ++ procs_found (env_of globals.now) sigs.now (map proc_phrase trees.now)) }
{
    let count = trees.len().min(sigs.len());
    for i in 0..count {
        let body = proc_shapes(alloc, globals, &sigs[i], &trees[i])?;
        all.push(body)?;
    }
    Ok(())
}

/// What the global names of a script mean.
fn names_of<'a>(
    alloc: Global,
    tree: &Tree,
    hosts: &'a HostNames,
) -> Result<GlobalNames<'a>, AllocError>
    ensures { IfOk result (λ names. env_row hosts.now (script_of tree.now) ≡ Ok (env_of names)) }
{
    match globals_of(alloc, tree, hosts) {
        Ok(names) => Ok(names),
        Err(_) => Err(AllocError),
    }
}

/// The shapes of a script's bodies, as the definition finds them.
fn script_shapes(
    alloc: Global,
    tree: &Tree,
    hosts: &HostNames,
) -> Result<Vec<BodyShapes>, AllocError>
    ensures { IfOk result (λ all. map body_types all.items ≡ script_found hosts.now (script_of tree.now)) }
{
    let globals = names_of(alloc, tree, hosts)?;
    let mut all = Vec::new(alloc);
    let main = main_shapes(alloc, &globals, &tree.main)?;
    all.push(main)?;
    all_funcs(alloc, &globals, globals.funcs(), &mut all, &tree.funcs)?;
    all_procs(alloc, &globals, globals.procs(), &mut all, &tree.procs)?;
    Ok(all)
}

/// The shapes of the bodies of a script that `elaborate` accepts over these hosts: of main, of the funcs, of the
/// procs. A walk is typed over a copy of the visible locals, which it makes.
///
/// - `types`: they are the types of its typing, attribute names and all: of each slot, of what the walk into it
///   gathers, and of the result.
/// - `shaped`: its program is sound with these shapes, attribute names left out.
///
/// Of another script nothing is said, and it may be answered as want of memory.
pub fn shapes(alloc: Global, tree: &Tree, hosts: &HostTable) -> Result<Vec<BodyShapes>, AllocError>
    ensures types { IfOk result (λ all. (p : Program_tree) → (typed : ElabScript hosts.now.names (script_of tree.now) p) → map body_types all.items ≡ types_found typed) }
    ensures shaped { IfOk result (λ all. (p : Program_tree) → (tokens : List Token) → IsTextOf tree.now tokens → length tokens ≤ script_limit → HaveValues tokens → ElabScript hosts.now.names (script_of tree.now) p → IsShaped p (specs_of hosts.now.names) (map shapes_of all.items)) }
{
    let _count = hosts.len();
    typed_programs_are_shaped();
    script_shapes(alloc, tree, &hosts.names)
}

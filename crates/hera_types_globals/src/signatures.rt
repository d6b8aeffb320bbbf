//! The second and the third pass over a script: the names of funcs and procs, and their signatures.

ghost use Rattle.std.specs.Prelude.{◌≡◌, ◌+◌, [], IfOk, IfErr, false, map};
ghost use Rattle.hera_sets.specs.Rows.{holds};
ghost use Rattle.hera_meaning.specs.Catalogues.{decl_name};
ghost use Rattle.hera_rules.specs.Agrees.{Gives};
ghost use Rattle.hera_rules.specs.Programs.{
  func_row,
  funcs_row,
  local_name,
  names_row,
  new_name_row,
  param_row,
  params_row,
  proc_row,
  procs_row,
};
ghost use Rattle.hera_rules.specs.Read.{word_of};
ghost use Rattle.hera_rules.specs.ReadActs.{func_phrase, param_phrase, params_phrase, proc_phrase, some_params};
ghost use Rattle.hera_rules.specs.declared.fault.TypeFault.TheVariants as fault;
ghost use Rattle.hera_types_globals.specs.Passes.{func_names, proc_names};

use crate::param_list::ParamList;
use hera_meaning::Name;
use hera_rules::{FuncSig, Local, LocalList, ProcSig, Relations, TypeFault};
use hera_syntax::{Func, Param, Params, Proc, Token};
use hera_types_checks::check_type;
use hera_types_parts::{NameSet, add_new, name_bytes, name_copy, number_of, put};
use std::alloc::{AllocError, Global};

// ---- names

/// A name that is none of these.
fn new_name(alloc: Global, taken: &NameSet, token: &Token) -> Result<Name, TypeFault>
    ensures row { Gives (λ name. name) result (new_name_row taken.now (word_of token.now)) }
    ensures new { IfOk result (λ name. holds taken.now name ≡ false) }
{
    if taken.has(name_bytes(token)) {
        return Err(TypeFault::Repeated { at: token.at });
    }
    name_copy(alloc, token)
}

/// The names of relations. Where two are one, which the first pass rules out, it answers AllocError.
pub fn relation_names(alloc: Global, relations: &Relations) -> Result<NameSet, AllocError>
    ensures { IfOk result (λ names. names ≡ map decl_name relations.now) }
{
    let mut names = NameSet::new(alloc);
    for decl in relations.decls() {
        add_new(&mut names, decl.name.bytes())?;
    }
    Ok(names)
}

/// These names, and behind them those of the funcs.
pub fn with_funcs(alloc: Global, taken: NameSet, trees: &[Func]) -> Result<NameSet, TypeFault>
    ensures { Gives (λ names. names) result (names_row taken (func_names trees.now)) }
{
    let mut names = taken;
    for tree in trees {
        let name = new_name(alloc, &names, &tree.name)?;
        names.add(name.bytes())?;
    }
    Ok(names)
}

/// These names, and behind them those of the procs.
pub fn with_procs(alloc: Global, taken: NameSet, trees: &[Proc]) -> Result<NameSet, TypeFault>
    ensures { Gives (λ names. names) result (names_row taken (proc_names trees.now)) }
{
    let mut names = taken;
    for tree in trees {
        let name = new_name(alloc, &names, &tree.name)?;
        names.add(name.bytes())?;
    }
    Ok(names)
}

// ---- signatures

/// A parameter behind these.
fn param_of(
    alloc: Global,
    relations: &Relations,
    taken: &NameSet,
    locals: &ParamList,
    tree: &Param,
) -> Result<Local, TypeFault>
    ensures row { Gives (λ local. local) result (param_row relations.now taken.now locals.now (param_phrase tree.now)) }
    ensures new { IfOk result (λ local. holds (map local_name locals.now) local.name ≡ false) }
{
    let shape = check_type(alloc, relations, &tree.type_tree)?;
    let name = name_bytes(&tree.name);
    if taken.has(name) || locals.has(name) {
        return Err(TypeFault::Repeated { at: tree.name.at });
    }
    let slot = number_of(locals.len())?;
    let name = name_copy(alloc, &tree.name)?;
    Ok(Local { name, slot, shape })
}

/// The parameters of a func or a proc.
fn params_of(
    alloc: Global,
    relations: &Relations,
    taken: &NameSet,
    trees: &Option<Params>,
) -> Result<LocalList, TypeFault>
    ensures { Gives (λ locals. locals) result (params_row relations.now taken.now [] (some_params trees.now)) }
{
    match trees {
        Some(list) => some_params_of(alloc, relations, taken, list),
        None => Ok(LocalList::new(Vec::new(alloc))),
    }
}

/// At least one parameter.
fn some_params_of(
    alloc: Global,
    relations: &Relations,
    taken: &NameSet,
    trees: &Params,
) -> Result<LocalList, TypeFault>
    ensures { Gives (λ locals. locals) result (params_row relations.now taken.now [] (params_phrase trees.now)) }
{
    let none = ParamList::new(alloc);
    let first = param_of(alloc, relations, taken, &none, &trees.first)?;
    let mut locals = none.with(first)?;
    for tree in &trees.rest {
        let next = param_of(alloc, relations, taken, &locals, tree)?;
        locals = locals.with(next)?;
    }
    Ok(locals.into_locals())
}

/// The signature of a func.
fn func_of(
    alloc: Global,
    relations: &Relations,
    taken: &NameSet,
    number: u32,
    tree: &Func,
) -> Result<FuncSig, TypeFault>
    ensures { Gives (λ sig. sig) result (func_row relations.now taken.now number (func_phrase tree.now)) }
{
    let result = check_type(alloc, relations, &tree.type_tree)?;
    let params = params_of(alloc, relations, taken, &tree.params)?;
    let name = name_copy(alloc, &tree.name)?;
    Ok(FuncSig {
        name,
        number,
        result,
        params,
    })
}

/// The number of the body behind so many others and main.
fn number_behind(before: usize, more: usize) -> Result<u32, TypeFault>
    ensures number { IfOk result (λ n. n ≡ 1 + before + more) }
    ensures refused { IfErr result (λ f. f ≡ fault.Memory) }
{
    match before.checked_add(more) {
        Some(count) => next_number(count),
        None => Err(TypeFault::Memory),
    }
}

/// The number behind a count.
fn next_number(count: usize) -> Result<u32, TypeFault>
    ensures number { IfOk result (λ n. n ≡ 1 + count) }
    ensures refused { IfErr result (λ f. f ≡ fault.Memory) }
{
    if count >= 0xffff_ffff {
        return Err(TypeFault::Memory);
    }
    Ok(1 + count as u32)
}

/// The signatures of the funcs.
pub fn funcs_of(
    alloc: Global,
    relations: &Relations,
    taken: &NameSet,
    trees: &[Func],
) -> Result<Vec<FuncSig>, TypeFault>
    ensures { Gives (λ sigs. sigs.items) result (funcs_row relations.now taken.now [] (map func_phrase trees.now)) }
{
    let mut sigs = Vec::new(alloc);
    for tree in trees {
        let number = next_number(sigs.len())?;
        let sig = func_of(alloc, relations, taken, number, tree)?;
        put(&mut sigs, sig)?;
    }
    Ok(sigs)
}

/// The signature of a proc.
fn proc_of(
    alloc: Global,
    relations: &Relations,
    taken: &NameSet,
    number: u32,
    tree: &Proc,
) -> Result<ProcSig, TypeFault>
    ensures { Gives (λ sig. sig) result (proc_row relations.now taken.now number (proc_phrase tree.now)) }
{
    let params = params_of(alloc, relations, taken, &tree.params)?;
    let name = name_copy(alloc, &tree.name)?;
    Ok(ProcSig {
        name,
        number,
        params,
    })
}

/// The signatures of the procs, numbered behind the funcs.
pub fn procs_of(
    alloc: Global,
    relations: &Relations,
    taken: &NameSet,
    funcs: usize,
    trees: &[Proc],
) -> Result<Vec<ProcSig>, TypeFault>
    ensures { Gives (λ sigs. sigs.items) result (procs_row relations.now taken.now funcs [] (map proc_phrase trees.now)) }
{
    let mut sigs = Vec::new(alloc);
    for tree in trees {
        let number = number_behind(funcs, sigs.len())?;
        let sig = proc_of(alloc, relations, taken, number, tree)?;
        put(&mut sigs, sig)?;
    }
    Ok(sigs)
}

//! The fourth pass over a script: the bodies of funcs, procs and main.

ghost use Rattle.std.specs.Prelude.{◌≡◌, ◌+◌, [], Some, None, IfErr, IfOk, is_some, length, map};
ghost use Rattle.hera_meaning.specs.Plain.{arms_in, block_in, body_of, command_of};
ghost use Rattle.hera_meaning.specs.Sound.{arms_return as all_return, command_returns, returns};
ghost use Rattle.hera_rules.specs.Agrees.{Gives};
ghost use Rattle.hera_rules.specs.CheckedScripts.{check_funcs, check_procs};
ghost use Rattle.hera_rules.specs.Environments.{env_of};
ghost use Rattle.hera_rules.specs.ReadActs.{block_acts, func_phrase, main_acts, proc_phrase};
ghost use Rattle.hera_rules.specs.declared.fault.TypeFault.TheVariants as fault;
ghost use Rattle.hera_types.specs.Passes.{bodies_of, body_row, func_body_row};

use crate::blocks::block;
use hera_meaning::{Arm, Body, Shape, Stmt};
use hera_rules::{FuncSig, Local, ProcSig, TypeFault};
use hera_syntax::{Block, Func, Main, Proc};
use hera_types_parts::{GlobalNames, LocalNames, number_of, put};
use std::alloc::{AllocError, Global};

// ---- what returns

/// Whether a statement returns: a `return`, or an `if` whose blocks all return.
#[cycle(returning)]
#[tactic(auto, using(hera_meaning::proofs::PlainLaws::plain))]
fn statement_returns(stmt: &Stmt) -> bool
    ensures { result ≡ command_returns (command_of stmt.now) }
{
    match stmt {
        Stmt::Return(value) => value.is_some(),
        Stmt::If(arms, other) => arms_return(arms) && block_returns(other),
        Stmt::Set(_, _) => false,
        Stmt::Call(_, _) => false,
        Stmt::While(_, _) => false,
        Stmt::Foreach(_, _, _) => false,
        Stmt::Print(_, _) => false,
        Stmt::Apply(_, _) => false,
        Stmt::Assert(_, _) => false,
        Stmt::Commit(_) => false,
        Stmt::Rollback => false,
    }
}

/// Whether the block of each of these arms returns.
#[cycle(returning)]
fn arms_return(arms: &[Arm]) -> bool
    ensures { result ≡ all_return (arms_in arms.now) }
{
    for arm in arms {
        if !block_returns(&arm.block) {
            return false;
        }
    }
    true
}

/// Whether the last of these statements returns.
#[cycle(returning)]
fn block_returns(stmts: &[Stmt]) -> bool
    ensures { result ≡ returns (block_in stmts.now) }
{
    let mut ends = false;
    for stmt in stmts {
        ends = statement_returns(stmt);
    }
    ends
}

// ---- bodies

/// The scope of a body: its parameters, and the first slot behind them. Where two have one name, which the third
/// pass rules out, it answers Memory.
fn body_locals(alloc: Global, params: &[Local]) -> Result<LocalNames, TypeFault>
    ensures locals { IfOk result (λ scope. scope.locals.items ≡ params.now) }
    ensures next { IfOk result (λ scope. scope.next ≡ length params.now) }
    ensures refused { IfErr result (λ f. f ≡ fault.Memory) }
{
    let count = number_of(params.len())?;
    let mut scope = LocalNames::new(alloc, count);
    for local in params {
        scope.push_local(local.copy()?)?;
    }
    Ok(scope)
}

/// A body with these parameters, which returns this.
fn body_of_block(
    alloc: Global,
    globals: &GlobalNames,
    returned: &Option<Shape>,
    params: &[Local],
    e: &Block,
) -> Result<Body, TypeFault>
    ensures { Gives body_of result (body_row (env_of globals.now) returned.now params.now (block_acts e.now)) }
{
    let mut scope = body_locals(alloc, params)?;
    let count = scope.next_slot();
    let stmts = block(alloc, globals, returned, &mut scope, e)?;
    let slots = scope.next_slot();
    Ok(Body {
        params: count,
        slots,
        func: returned.is_some(),
        block: stmts,
    })
}

/// The body of a func, whose last statement returns.
fn func_body(
    alloc: Global,
    globals: &GlobalNames,
    sig: &FuncSig,
    tree: &Func,
) -> Result<Body, TypeFault>
    ensures { Gives body_of result (func_body_row (env_of globals.now) sig.now (func_phrase tree.now)) }
{
    let returned = Some(sig.result.copy()?);
    let body = body_of_block(alloc, globals, &returned, sig.params.items(), &tree.block)?;
    if !block_returns(&body.block) {
        return Err(TypeFault::NoReturn { at: tree.name.at });
    }
    Ok(body)
}

/// The body of a proc.
fn proc_body(
    alloc: Global,
    globals: &GlobalNames,
    sig: &ProcSig,
    tree: &Proc,
) -> Result<Body, TypeFault>
    ensures { Gives body_of result (body_row (env_of globals.now) None sig.now.params (block_acts tree.now.block)) }
{
    body_of_block(alloc, globals, &None, sig.params.items(), &tree.block)
}

/// The bodies of the funcs, one for each signature.
pub fn func_bodies(
    alloc: Global,
    globals: &GlobalNames,
    sigs: &[FuncSig],
    trees: &[Func],
) -> Result<Vec<Body>, TypeFault>
    ensures { Gives bodies_of result (check_funcs (env_of globals.now) [] sigs.now (map func_phrase trees.now)) }
{
    let mut bodies = Vec::new(alloc);
    let count = trees.len().min(sigs.len());
    for i in 0..count {
        let body = func_body(alloc, globals, &sigs[i], &trees[i])?;
        put(&mut bodies, body)?;
    }
    Ok(bodies)
}

/// These bodies, and behind them those of the procs, one for each signature.
pub fn proc_bodies(
    alloc: Global,
    globals: &GlobalNames,
    sigs: &[ProcSig],
    front: Vec<Body>,
    trees: &[Proc],
) -> Result<Vec<Body>, TypeFault>
    ensures { Gives bodies_of result (check_procs (env_of globals.now) (bodies_of front) sigs.now (map proc_phrase trees.now)) }
{
    let mut bodies = front;
    let count = trees.len().min(sigs.len());
    for i in 0..count {
        let body = proc_body(alloc, globals, &sigs[i], &trees[i])?;
        put(&mut bodies, body)?;
    }
    Ok(bodies)
}

/// The body of main, empty where there is no main.
pub fn main_body(
    alloc: Global,
    globals: &GlobalNames,
    tree: &Option<Main>,
) -> Result<Body, TypeFault>
    ensures { Gives body_of result (body_row (env_of globals.now) None [] (main_acts tree.now)) }
{
    match tree {
        Some(main) => body_of_block(alloc, globals, &None, &[], &main.block),
        None => Ok(Body {
            params: 0,
            slots: 0,
            func: false,
            block: Vec::new(alloc),
        }),
    }
}

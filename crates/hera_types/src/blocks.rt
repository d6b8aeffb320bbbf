//! Cores of blocks of statements.

ghost use Rattle.std.specs.Prelude.{◌≡◌, ◌+◌, [], OnOk, true};
ghost use Rattle.hera_meaning.specs.Plain.{block_in, command_of, expr_of};
ghost use Rattle.hera_meaning.specs.Trees as trees;
ghost use Rattle.hera_rules.specs.Agrees.{Gives, Keeps};
ghost use Rattle.hera_rules.specs.CheckedActs.{check_acts, check_branches};
ghost use Rattle.hera_rules.specs.Environments.{env_of};
ghost use Rattle.hera_rules.specs.Phrases.{branch, choosing, looping, visiting};
ghost use Rattle.hera_rules.specs.Read.{expr_phrase, word_of};
ghost use Rattle.hera_rules.specs.ReadActs.{act_of, block_acts, branches_in, last_in};
ghost use Rattle.hera_rules.specs.Statements.{slots_of_act, slots_of_acts, slots_of_branches};
ghost use Rattle.hera_rules.specs.Typing.{slots_of};
ghost use Rattle.hera_types.specs.Scopes.{ActGives, Extends, all_armed, arm_row, armed_of, commands_of, has_block};

use crate::statements::{apply, assign, claim, commit, declare, give_back, perform, print};
use hera_meaning::{Arm, Shape, Stmt};
use hera_rules::TypeFault;
use hera_syntax::{Block, ElseIf, Expr, StmtTree, Token};
use hera_types_checks::{check_cond, check_effect, check_variable};
use hera_types_exprs::{Waiting, expr};
use hera_types_parts::{GlobalNames, LocalNames, into_core, put};
use std::alloc::Global;

/// The statements of a block. The locals behind it are those before it.
#[cycle(acts)]
#[tactic(auto, using(hera_rules::proofs::ReadActLaws::read_acts))]
pub fn block(
    alloc: Global,
    globals: &GlobalNames,
    returned: &Option<Shape>,
    scope: &mut LocalNames,
    e: &Block,
) -> Result<Vec<Stmt>, TypeFault>
    ensures checks { Gives commands_of result (check_acts (env_of globals.now) returned.now scope.old.locals.items scope.old.next [] (block_acts e.now)) }
    ensures keeps { OnOk result (Keeps scope.old scope.new (slots_of_acts (block_acts e.now))) }
{
    let depth = scope.visible();
    let mut all = Vec::new(alloc);
    for stmt in &e.stmts {
        let core = statement(alloc, globals, returned, scope, stmt)?;
        put(&mut all, core)?;
    }
    scope.leave(depth);
    Ok(all)
}

/// The condition of an `if` and its block.
#[cycle(acts)]
#[tactic(auto, using(hera_rules::proofs::ReadActLaws::read_acts))]
fn arm(
    alloc: Global,
    globals: &GlobalNames,
    returned: &Option<Shape>,
    scope: &mut LocalNames,
    b: &Block,
    condition: &Expr,
    at: u32,
) -> Result<Arm, TypeFault>
    ensures checks { Gives armed_of result (arm_row (env_of globals.now) returned.now scope.old.locals.items scope.old.next at (expr_phrase condition.now) (block_acts b.now)) }
    ensures keeps { OnOk result (Keeps scope.old scope.new (slots_of (expr_phrase condition.now) + slots_of_acts (block_acts b.now))) }
{
    let value = expr(alloc, globals, scope, condition)?;
    let cond = check_cond(at, value)?;
    let inner = block(alloc, globals, returned, scope, b)?;
    Ok(Arm { cond, block: inner })
}

/// The conditions of an `if` with their blocks: the first, and those of each `else if`.
#[cycle(acts)]
#[tactic(auto, using(hera_rules::proofs::ReadActLaws::read_acts))]
fn arms(
    alloc: Global,
    globals: &GlobalNames,
    returned: &Option<Shape>,
    scope: &mut LocalNames,
    at: u32,
    condition: &Expr,
    first: &Block,
    else_ifs: &[ElseIf],
) -> Result<Vec<Arm>, TypeFault>
    ensures checks { Gives all_armed result (check_branches (env_of globals.now) returned.now scope.old.locals.items scope.old.next [] (branch at (expr_phrase condition.now) (block_acts first.now) (branches_in else_ifs.now))) }
    ensures keeps { OnOk result (Keeps scope.old scope.new (slots_of_branches (branch at (expr_phrase condition.now) (block_acts first.now) (branches_in else_ifs.now)))) }
{
    let mut all = Vec::new(alloc);
    let front = arm(alloc, globals, returned, scope, first, condition, at)?;
    put(&mut all, front)?;
    for next in else_ifs {
        let more = arm(
            alloc,
            globals,
            returned,
            scope,
            &next.block,
            &next.condition,
            next.word.at,
        )?;
        put(&mut all, more)?;
    }
    Ok(all)
}

/// An `if`: its arms, and then its last block, if any.
#[cycle(acts)]
#[tactic(auto, using(hera_rules::proofs::ReadActLaws::read_acts))]
fn branches(
    alloc: Global,
    globals: &GlobalNames,
    returned: &Option<Shape>,
    scope: &mut LocalNames,
    at: u32,
    condition: &Expr,
    first: &Block,
    else_ifs: &[ElseIf],
    last: &Option<Block>,
) -> Result<Stmt, TypeFault>
    ensures checks { ActGives result scope.new.locals.items (env_of globals.now) returned.now scope.old.locals.items scope.old.next (choosing (branch at (expr_phrase condition.now) (block_acts first.now) (branches_in else_ifs.now)) (last_in last.now)) }
    ensures next { OnOk result (scope.new.next ≡ scope.old.next + slots_of_act (choosing (branch at (expr_phrase condition.now) (block_acts first.now) (branches_in else_ifs.now)) (last_in last.now))) }
    ensures grows { OnOk result (Extends scope.old.locals.items scope.new.locals.items) }
{
    let all = arms(
        alloc, globals, returned, scope, at, condition, first, else_ifs,
    )?;
    match last {
        Some(inner) => {
            let other = block(alloc, globals, returned, scope, inner)?;
            Ok(Stmt::If(all, other))
        }
        None => Ok(Stmt::If(all, Vec::new(alloc))),
    }
}

/// A `while`.
#[cycle(acts)]
#[tactic(auto, using(hera_rules::proofs::ReadActLaws::read_acts))]
fn repeat(
    alloc: Global,
    globals: &GlobalNames,
    returned: &Option<Shape>,
    scope: &mut LocalNames,
    at: u32,
    condition: &Expr,
    inner: &Block,
) -> Result<Stmt, TypeFault>
    ensures checks { ActGives result scope.new.locals.items (env_of globals.now) returned.now scope.old.locals.items scope.old.next (looping at (expr_phrase condition.now) (block_acts inner.now)) }
    ensures next { OnOk result (scope.new.next ≡ scope.old.next + slots_of_act (looping at (expr_phrase condition.now) (block_acts inner.now))) }
    ensures grows { OnOk result (Extends scope.old.locals.items scope.new.locals.items) }
{
    let front = arm(alloc, globals, returned, scope, inner, condition, at)?;
    Ok(while_of(front))
}

/// A `foreach`. Its variable is visible in its block alone.
#[cycle(acts)]
#[tactic(auto, using(hera_rules::proofs::ReadActLaws::read_acts))]
fn visit(
    alloc: Global,
    globals: &GlobalNames,
    returned: &Option<Shape>,
    scope: &mut LocalNames,
    at: u32,
    name: &Token,
    over: &Expr,
    inner: &Block,
) -> Result<Stmt, TypeFault>
    ensures checks { ActGives result scope.new.locals.items (env_of globals.now) returned.now scope.old.locals.items scope.old.next (visiting at (word_of name.now) (expr_phrase over.now) (block_acts inner.now)) }
    ensures next { OnOk result (scope.new.next ≡ scope.old.next + slots_of_act (visiting at (word_of name.now) (expr_phrase over.now) (block_acts inner.now))) }
    ensures grows { OnOk result (Extends scope.old.locals.items scope.new.locals.items) }
{
    let depth = scope.visible();
    let slot = scope.take_slot()?;
    let of = expr(alloc, globals, scope, over)?;
    let range = Waiting { typed: of };
    let local = check_variable(globals, scope, alloc, name, at, slot, &range.typed.shape)?;
    scope.push_local(local)?;
    let body = block(alloc, globals, returned, scope, inner)?;
    scope.leave(depth);
    let typed = range.into_typed();
    Ok(Stmt::Foreach(slot, into_core(typed), body))
}

/// A statement.
#[cycle(acts)]
#[tactic(auto, using(hera_rules::proofs::ReadActLaws::read_acts))]
fn statement(
    alloc: Global,
    globals: &GlobalNames,
    returned: &Option<Shape>,
    scope: &mut LocalNames,
    e: &StmtTree,
) -> Result<Stmt, TypeFault>
    ensures checks { ActGives result scope.new.locals.items (env_of globals.now) returned.now scope.old.locals.items scope.old.next (act_of e.now) }
    ensures next { OnOk result (scope.new.next ≡ scope.old.next + slots_of_act (act_of e.now)) }
    ensures grows { OnOk result (Extends scope.old.locals.items scope.new.locals.items) }
{
    match e {
        StmtTree::If { .. } | StmtTree::While { .. } | StmtTree::Foreach { .. } => {
            nested(alloc, globals, returned, scope, e)
        }
        StmtTree::Declare {
            type_tree,
            name,
            value,
        } => declare(alloc, globals, returned, scope, type_tree, name, value),
        StmtTree::Assign { name, value } => assign(alloc, globals, returned, scope, name, value),
        StmtTree::Call { name, args, .. } => perform(alloc, globals, returned, scope, name, args),
        StmtTree::Print { word, value } => print(alloc, globals, returned, scope, word.at, value),
        StmtTree::Apply { word, value } => apply(alloc, globals, returned, scope, word.at, value),
        StmtTree::Assert { word, value } => claim(alloc, globals, returned, scope, word.at, value),
        StmtTree::Commit { word, label } => commit(alloc, returned, word.at, label),
        StmtTree::Rollback(word) => check_effect(returned.is_some(), word.at, Stmt::Rollback),
        StmtTree::Return { word, value } => give_back(alloc, globals, returned, scope, word, value),
    }
}

/// A statement with a block in it.
#[cycle(acts)]
#[tactic(auto, using(hera_rules::proofs::ReadActLaws::read_acts))]
fn nested(
    alloc: Global,
    globals: &GlobalNames,
    returned: &Option<Shape>,
    scope: &mut LocalNames,
    e: &StmtTree,
) -> Result<Stmt, TypeFault>
    requires { has_block e.now ≡ true }
    ensures checks { ActGives result scope.new.locals.items (env_of globals.now) returned.now scope.old.locals.items scope.old.next (act_of e.now) }
    ensures next { OnOk result (scope.new.next ≡ scope.old.next + slots_of_act (act_of e.now)) }
    ensures grows { OnOk result (Extends scope.old.locals.items scope.new.locals.items) }
{
    match e {
        StmtTree::If {
            word,
            condition,
            block: first,
            else_ifs,
            last,
            ..
        } => branches(
            alloc, globals, returned, scope, word.at, condition, first, else_ifs, last,
        ),
        StmtTree::While {
            word,
            condition,
            block: inner,
            ..
        } => repeat(alloc, globals, returned, scope, word.at, condition, inner),
        StmtTree::Foreach {
            word,
            name,
            over,
            block: inner,
            ..
        } => visit(alloc, globals, returned, scope, word.at, name, over, inner),
        _ => unreachable!(),
    }
}

/// The loop of a condition and a block.
#[tactic(auto, using(hera_meaning::proofs::PlainLaws::plain))]
fn while_of(front: Arm) -> Stmt
    ensures { command_of result ≡ trees.while (expr_of front.cond) (block_in front.block.items) }
{
    let Arm { cond, block: inner } = front;
    Stmt::While(cond, inner)
}

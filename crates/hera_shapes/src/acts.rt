//! The slots that statements declare.

ghost use Rattle.std.specs.Prelude.{◌≡◌, ◌+◌, ◌++◌, OnOk};
ghost use Rattle.hera_meaning.specs.Shapes.{body_types};
ghost use Rattle.hera_rules.specs.Agrees.{Keeps};
ghost use Rattle.hera_rules.specs.Environments.{env_of};
ghost use Rattle.hera_rules.specs.Phrases.{branch, choosing, declaring, visiting};
ghost use Rattle.hera_rules.specs.Read.{expr_phrase, word_of};
ghost use Rattle.hera_rules.specs.ReadActs.{act_of, block_acts, branches_in, last_in, return_act, some_args as args_of, type_phrase};
ghost use Rattle.hera_rules.specs.Statements.{slots_of_act, slots_of_acts, slots_of_branches};
ghost use Rattle.hera_rules.specs.Typing.{slots_of, slots_of_all};
ghost use Rattle.hera_shapes.specs.Found.{found, found_act, found_acts, found_all, found_branches, locals_behind, with_slots};

use crate::phrases::{args, expression};
use crate::typed::{
    Walk, add_slot, leave, name_in, push_local, take_slot, type_of, visible, visit_over,
};
use hera_meaning::BodyShapes;
use hera_rules::{Local, LocalScope};
use hera_syntax::{ArgTrees, Block, ElseIf, Expr, StmtTree, Token, TypeTree};
use hera_types_parts::GlobalNames;
use std::alloc::{AllocError, Global};

/// Those of the statements of a block. The locals behind it are those before it.
#[cycle(acts)]
#[tactic(auto, using(hera_rules::proofs::ReadActLaws::read_acts))]
pub fn block(
    alloc: Global,
    globals: &GlobalNames,
    scope: &mut LocalScope,
    shapes: &mut BodyShapes,
    e: &Block,
) -> Result<(), AllocError>
    ensures found { OnOk result (body_types shapes.new ≡ with_slots (body_types shapes.old) (found_acts (env_of globals.now) scope.old.locals.items scope.old.next (block_acts e.now))) }
    ensures keeps { OnOk result (Keeps scope.old scope.new (slots_of_acts (block_acts e.now))) }
{
    let depth = visible(scope);
    for stmt in &e.stmts {
        statement(alloc, globals, scope, shapes, stmt)?;
    }
    leave(scope, depth);
    Ok(())
}

/// Those of a condition and then of its block.
#[cycle(acts)]
fn arm(
    alloc: Global,
    globals: &GlobalNames,
    scope: &mut LocalScope,
    shapes: &mut BodyShapes,
    condition: &Expr,
    inner: &Block,
) -> Result<(), AllocError>
    ensures found { OnOk result (body_types shapes.new ≡ with_slots (body_types shapes.old) (found (env_of globals.now) scope.old.locals.items scope.old.next (expr_phrase condition.now) ++ found_acts (env_of globals.now) scope.old.locals.items (scope.old.next + slots_of (expr_phrase condition.now)) (block_acts inner.now))) }
    ensures keeps { OnOk result (Keeps scope.old scope.new (slots_of (expr_phrase condition.now) + slots_of_acts (block_acts inner.now))) }
{
    expression(alloc, globals, scope, shapes, condition)?;
    block(alloc, globals, scope, shapes, inner)?;
    Ok(())
}

/// Those of the conditions of an `if` with their blocks.
#[cycle(acts)]
fn arms(
    alloc: Global,
    globals: &GlobalNames,
    scope: &mut LocalScope,
    shapes: &mut BodyShapes,
    at: u32,
    condition: &Expr,
    first: &Block,
    else_ifs: &[ElseIf],
) -> Result<(), AllocError>
    ensures found { OnOk result (body_types shapes.new ≡ with_slots (body_types shapes.old) (found_branches (env_of globals.now) scope.old.locals.items scope.old.next (branch at (expr_phrase condition.now) (block_acts first.now) (branches_in else_ifs.now)))) }
    ensures keeps { OnOk result (Keeps scope.old scope.new (slots_of_branches (branch at (expr_phrase condition.now) (block_acts first.now) (branches_in else_ifs.now)))) }
{
    arm(alloc, globals, scope, shapes, condition, first)?;
    for next in else_ifs {
        arm(alloc, globals, scope, shapes, &next.condition, &next.block)?;
    }
    Ok(())
}

/// Those of a last block, if any.
#[cycle(acts)]
fn last_block(
    alloc: Global,
    globals: &GlobalNames,
    scope: &mut LocalScope,
    shapes: &mut BodyShapes,
    last: &Option<Block>,
) -> Result<(), AllocError>
    ensures found { OnOk result (body_types shapes.new ≡ with_slots (body_types shapes.old) (found_acts (env_of globals.now) scope.old.locals.items scope.old.next (last_in last.now))) }
    ensures keeps { OnOk result (Keeps scope.old scope.new (slots_of_acts (last_in last.now))) }
{
    match last {
        Some(inner) => {
            block(alloc, globals, scope, shapes, inner)?;
            Ok(())
        }
        None => Ok(()),
    }
}

/// The slot of a `foreach`, then those of its operand, then those of its block.
#[cycle(acts)]
fn visit(
    alloc: Global,
    globals: &GlobalNames,
    scope: &mut LocalScope,
    shapes: &mut BodyShapes,
    at: u32,
    name: &Token,
    over: &Expr,
    inner: &Block,
) -> Result<(), AllocError>
    ensures found { OnOk result (body_types shapes.new ≡ with_slots (body_types shapes.old) (found_act (env_of globals.now) scope.old.locals.items scope.old.next (visiting at (word_of name.now) (expr_phrase over.now) (block_acts inner.now)))) }
    ensures keeps { OnOk result (Keeps scope.old scope.new (slots_of_act (visiting at (word_of name.now) (expr_phrase over.now) (block_acts inner.now)))) }
{
    let depth = visible(scope);
    let seen = visit_over(alloc, globals, scope, name, at, over)?;
    let Walk { variable, gathers } = seen;
    add_slot(shapes, variable.shape.copy()?, Some(gathers))?;
    take_slot(scope)?;
    expression(alloc, globals, scope, shapes, over)?;
    push_local(scope, variable)?;
    block(alloc, globals, scope, shapes, inner)?;
    leave(scope, depth);
    Ok(())
}

/// The slot of a declaration, then those of its value.
fn declare(
    alloc: Global,
    globals: &GlobalNames,
    scope: &mut LocalScope,
    shapes: &mut BodyShapes,
    type_tree: &TypeTree,
    name: &Token,
    value: &Expr,
) -> Result<(), AllocError>
    ensures found { OnOk result (body_types shapes.new ≡ with_slots (body_types shapes.old) (found_act (env_of globals.now) scope.old.locals.items scope.old.next (declaring (type_phrase type_tree.now) (word_of name.now) (expr_phrase value.now)))) }
    ensures next { OnOk result (scope.new.next ≡ scope.old.next + slots_of_act (declaring (type_phrase type_tree.now) (word_of name.now) (expr_phrase value.now))) }
    ensures locals { OnOk result (scope.new.locals.items ≡ locals_behind (env_of globals.now) scope.old.locals.items scope.old.next (declaring (type_phrase type_tree.now) (word_of name.now) (expr_phrase value.now))) }
{
    let shape = type_of(alloc, globals, type_tree)?;
    let slot = take_slot(scope)?;
    add_slot(shapes, shape.copy()?, None)?;
    expression(alloc, globals, scope, shapes, value)?;
    let name = name_in(alloc, name)?;
    push_local(scope, Local { name, slot, shape })?;
    Ok(())
}

/// Those of an `if`.
#[cycle(acts)]
fn branches(
    alloc: Global,
    globals: &GlobalNames,
    scope: &mut LocalScope,
    shapes: &mut BodyShapes,
    at: u32,
    condition: &Expr,
    first: &Block,
    else_ifs: &[ElseIf],
    last: &Option<Block>,
) -> Result<(), AllocError>
    ensures found { OnOk result (body_types shapes.new ≡ with_slots (body_types shapes.old) (found_act (env_of globals.now) scope.old.locals.items scope.old.next (choosing (branch at (expr_phrase condition.now) (block_acts first.now) (branches_in else_ifs.now)) (last_in last.now)))) }
    ensures keeps { OnOk result (Keeps scope.old scope.new (slots_of_act (choosing (branch at (expr_phrase condition.now) (block_acts first.now) (branches_in else_ifs.now)) (last_in last.now)))) }
{
    arms(
        alloc, globals, scope, shapes, at, condition, first, else_ifs,
    )?;
    last_block(alloc, globals, scope, shapes, last)?;
    Ok(())
}

/// Those of a statement. Behind a declaration its local is visible.
#[cycle(acts)]
#[tactic(auto, using(hera_rules::proofs::ReadActLaws::read_acts))]
fn statement(
    alloc: Global,
    globals: &GlobalNames,
    scope: &mut LocalScope,
    shapes: &mut BodyShapes,
    e: &StmtTree,
) -> Result<(), AllocError>
    ensures found { OnOk result (body_types shapes.new ≡ with_slots (body_types shapes.old) (found_act (env_of globals.now) scope.old.locals.items scope.old.next (act_of e.now))) }
    ensures next { OnOk result (scope.new.next ≡ scope.old.next + slots_of_act (act_of e.now)) }
    ensures locals { OnOk result (scope.new.locals.items ≡ locals_behind (env_of globals.now) scope.old.locals.items scope.old.next (act_of e.now)) }
{
    match e {
        StmtTree::If {
            word,
            condition,
            block: first,
            else_ifs,
            last,
            ..
        } => {
            branches(
                alloc, globals, scope, shapes, word.at, condition, first, else_ifs, last,
            )?;
            Ok(())
        }
        StmtTree::While {
            condition,
            block: inner,
            ..
        } => {
            arm(alloc, globals, scope, shapes, condition, inner)?;
            Ok(())
        }
        StmtTree::Foreach {
            word,
            name,
            over,
            block: inner,
            ..
        } => {
            visit(alloc, globals, scope, shapes, word.at, name, over, inner)?;
            Ok(())
        }
        StmtTree::Declare {
            type_tree,
            name,
            value,
        } => {
            declare(alloc, globals, scope, shapes, type_tree, name, value)?;
            Ok(())
        }
        StmtTree::Call { args: list, .. } => {
            some_args(alloc, globals, scope, shapes, list)?;
            Ok(())
        }
        StmtTree::Return { word, value } => {
            returned(alloc, globals, scope, shapes, word, value)?;
            Ok(())
        }
        StmtTree::Assign { value, .. }
        | StmtTree::Print { value, .. }
        | StmtTree::Apply { value, .. }
        | StmtTree::Assert { value, .. } => {
            expression(alloc, globals, scope, shapes, value)?;
            Ok(())
        }
        StmtTree::Commit { .. } => Ok(()),
        StmtTree::Rollback(_) => Ok(()),
    }
}

/// Those of the arguments of a call, if any.
fn some_args(
    alloc: Global,
    globals: &GlobalNames,
    scope: &mut LocalScope,
    shapes: &mut BodyShapes,
    list: &Option<ArgTrees>,
) -> Result<(), AllocError>
    ensures found { OnOk result (body_types shapes.new ≡ with_slots (body_types shapes.old) (found_all (env_of globals.now) scope.old.locals.items scope.old.next (args_of list.now))) }
    ensures keeps { OnOk result (Keeps scope.old scope.new (slots_of_all (args_of list.now))) }
{
    match list {
        Some(inner) => {
            args(alloc, globals, scope, shapes, inner)?;
            Ok(())
        }
        None => Ok(()),
    }
}

/// Those of what is returned, if anything.
fn returned(
    alloc: Global,
    globals: &GlobalNames,
    scope: &mut LocalScope,
    shapes: &mut BodyShapes,
    word: &Token,
    value: &Option<Expr>,
) -> Result<(), AllocError>
    ensures found { OnOk result (body_types shapes.new ≡ with_slots (body_types shapes.old) (found_act (env_of globals.now) scope.old.locals.items scope.old.next (return_act word.now value.now))) }
    ensures keeps { OnOk result (Keeps scope.old scope.new (slots_of_act (return_act word.now value.now))) }
{
    match value {
        Some(inner) => {
            expression(alloc, globals, scope, shapes, inner)?;
            Ok(())
        }
        None => Ok(()),
    }
}

//! The slots that expressions declare.

ghost use Rattle.std.specs.Prelude.{◌≡◌, ◌++◌, ◌+◌, OnOk};
ghost use Rattle.hera_meaning.specs.Shapes.{body_types};
ghost use Rattle.hera_rules.specs.Agrees.{Keeps};
ghost use Rattle.hera_rules.specs.Environments.{env_of};
ghost use Rattle.hera_rules.specs.Phrases as phrases;
ghost use Rattle.hera_rules.specs.Read.{args_in, args_phrases, atoms_phrases, bindings_phrases, expr_phrase, lines_phrases, operand_phrase, prime_phrase, some_atoms as atoms_of, some_lines as lines_of, walk_of, word_of};
ghost use Rattle.hera_rules.specs.Typing.{slots_of, slots_of_all};
ghost use Rattle.hera_shapes.specs.Found.{found, found_all, with_slots};

use crate::typed::{Walk, add_slot, leave, push_local, take_slot, visible, walk_over};
use hera_meaning::BodyShapes;
use hera_rules::LocalScope;
use hera_syntax::{ArgTrees, Atoms, Bindings, Expr, LineTrees, OperandTree, Prime, Token};
use hera_types_parts::GlobalNames;
use std::alloc::{AllocError, Global};

/// Those of an expression.
#[cycle(walk)]
#[tactic(auto, using(crate::proofs::Steps::steps))]
pub fn expression(
    alloc: Global,
    globals: &GlobalNames,
    scope: &mut LocalScope,
    shapes: &mut BodyShapes,
    e: &Expr,
) -> Result<(), AllocError>
    ensures found { OnOk result (body_types shapes.new ≡ with_slots (body_types shapes.old) (found (env_of globals.now) scope.old.locals.items scope.old.next (expr_phrase e.now))) }
    ensures keeps { OnOk result (Keeps scope.old scope.new (slots_of (expr_phrase e.now))) }
{
    operand(alloc, globals, scope, shapes, &e.first)?;
    for tail in &e.rest {
        operand(alloc, globals, scope, shapes, &tail.operand)?;
    }
    Ok(())
}

/// Those of an operand of a chain.
#[cycle(walk)]
#[tactic(auto, using(crate::proofs::Steps::steps))]
fn operand(
    alloc: Global,
    globals: &GlobalNames,
    scope: &mut LocalScope,
    shapes: &mut BodyShapes,
    e: &OperandTree,
) -> Result<(), AllocError>
    ensures found { OnOk result (body_types shapes.new ≡ with_slots (body_types shapes.old) (found (env_of globals.now) scope.old.locals.items scope.old.next (operand_phrase e.now))) }
    ensures keeps { OnOk result (Keeps scope.old scope.new (slots_of (operand_phrase e.now))) }
{
    match e {
        OperandTree::Inner(inner) => expression(alloc, globals, scope, shapes, inner),
        OperandTree::Prefix(inner) => prime(alloc, globals, scope, shapes, &inner.operand.operand),
    }
}

/// Those of an expression that no operator splits.
#[cycle(walk)]
#[tactic(auto, using(crate::proofs::Steps::steps))]
fn prime(
    alloc: Global,
    globals: &GlobalNames,
    scope: &mut LocalScope,
    shapes: &mut BodyShapes,
    e: &Prime,
) -> Result<(), AllocError>
    ensures found { OnOk result (body_types shapes.new ≡ with_slots (body_types shapes.old) (found (env_of globals.now) scope.old.locals.items scope.old.next (prime_phrase e.now))) }
    ensures keeps { OnOk result (Keeps scope.old scope.new (slots_of (prime_phrase e.now))) }
{
    match e {
        Prime::Int(_) => Ok(()),
        Prime::Text(_) => Ok(()),
        Prime::True(_) => Ok(()),
        Prime::False(_) => Ok(()),
        Prime::Fail(_) => Ok(()),
        Prime::Name(_) => Ok(()),
        Prime::Paren { inner, .. } => expression(alloc, globals, scope, shapes, inner),
        Prime::Walk {
            word,
            name,
            over,
            body,
            ..
        } => walk(alloc, globals, scope, shapes, word, name, over, body),
        Prime::Pair { left, right, .. } => pair(alloc, globals, scope, shapes, left, right),
        Prime::Call { args: list, .. } => some_args(alloc, globals, scope, shapes, list),
        Prime::Row { bindings: list, .. } => bindings(alloc, globals, scope, shapes, list),
        Prime::Delta { atoms: list, .. } => some_atoms(alloc, globals, scope, shapes, list),
        Prime::Rows {
            name,
            lines: list,
            ..
        } => { some_lines(alloc, globals, scope, shapes, list, name) }
        Prime::Project { over, .. }
        | Prime::Rename { over, .. }
        | Prime::Group { over, .. }
        | Prime::Measure { over, .. }
        | Prime::Fold { over, .. }
        | Prime::Bulk { over, .. }
        | Prime::Part { over, .. } => expression(alloc, globals, scope, shapes, over),
    }
}

/// Those of the arguments of a call, if any.
#[cycle(walk)]
#[tactic(auto, using(crate::proofs::Steps::steps))]
fn some_args(
    alloc: Global,
    globals: &GlobalNames,
    scope: &mut LocalScope,
    shapes: &mut BodyShapes,
    list: &Option<Box<ArgTrees>>,
) -> Result<(), AllocError>
    ensures found { OnOk result (body_types shapes.new ≡ with_slots (body_types shapes.old) (found_all (env_of globals.now) scope.old.locals.items scope.old.next (args_in list.now))) }
    ensures keeps { OnOk result (Keeps scope.old scope.new (slots_of_all (args_in list.now))) }
{
    match list {
        Some(inner) => {
            args(alloc, globals, scope, shapes, inner)?;
            Ok(())
        }
        None => Ok(()),
    }
}

/// Those of the atoms of a delta literal, if any.
#[cycle(walk)]
#[tactic(auto, using(crate::proofs::Steps::steps))]
fn some_atoms(
    alloc: Global,
    globals: &GlobalNames,
    scope: &mut LocalScope,
    shapes: &mut BodyShapes,
    list: &Option<Box<Atoms>>,
) -> Result<(), AllocError>
    ensures found { OnOk result (body_types shapes.new ≡ with_slots (body_types shapes.old) (found_all (env_of globals.now) scope.old.locals.items scope.old.next (atoms_of list.now))) }
    ensures keeps { OnOk result (Keeps scope.old scope.new (slots_of_all (atoms_of list.now))) }
{
    match list {
        Some(inner) => {
            atoms(alloc, globals, scope, shapes, inner)?;
            Ok(())
        }
        None => Ok(()),
    }
}

/// Those of the lines of `rows`, if any.
#[cycle(walk)]
#[tactic(auto, using(crate::proofs::Steps::steps))]
fn some_lines(
    alloc: Global,
    globals: &GlobalNames,
    scope: &mut LocalScope,
    shapes: &mut BodyShapes,
    list: &Option<Box<LineTrees>>,
    name: &Token,
) -> Result<(), AllocError>
    ensures found { OnOk result (body_types shapes.new ≡ with_slots (body_types shapes.old) (found_all (env_of globals.now) scope.old.locals.items scope.old.next (lines_of (word_of name.now) list.now))) }
    ensures keeps { OnOk result (Keeps scope.old scope.new (slots_of_all (lines_of (word_of name.now) list.now))) }
{
    match list {
        Some(inner) => {
            lines(alloc, globals, scope, shapes, inner, name)?;
            Ok(())
        }
        None => Ok(()),
    }
}

/// Those of two expressions, the left one first.
#[cycle(walk)]
#[tactic(auto, using(crate::proofs::Steps::steps))]
fn pair(
    alloc: Global,
    globals: &GlobalNames,
    scope: &mut LocalScope,
    shapes: &mut BodyShapes,
    left: &Expr,
    right: &Expr,
) -> Result<(), AllocError>
    ensures found { OnOk result (body_types shapes.new ≡ with_slots (body_types shapes.old) (found (env_of globals.now) scope.old.locals.items scope.old.next (expr_phrase left.now) ++ found (env_of globals.now) scope.old.locals.items (scope.old.next + slots_of (expr_phrase left.now)) (expr_phrase right.now))) }
    ensures keeps { OnOk result (Keeps scope.old scope.new (slots_of (expr_phrase left.now) + slots_of (expr_phrase right.now))) }
{
    expression(alloc, globals, scope, shapes, left)?;
    expression(alloc, globals, scope, shapes, right)?;
    Ok(())
}

/// The slot of a `select` or a `map`, then those of its operand, then those of its body.
#[cycle(walk)]
#[tactic(auto, using(crate::proofs::Steps::steps))]
fn walk(
    alloc: Global,
    globals: &GlobalNames,
    scope: &mut LocalScope,
    shapes: &mut BodyShapes,
    word: &Token,
    name: &Token,
    over: &Expr,
    body: &Expr,
) -> Result<(), AllocError>
    ensures found { OnOk result (body_types shapes.new ≡ with_slots (body_types shapes.old) (found (env_of globals.now) scope.old.locals.items scope.old.next (phrases.walking (walk_of word.now.kind) word.now.at (word_of name.now) (expr_phrase over.now) (expr_phrase body.now)))) }
    ensures keeps { OnOk result (Keeps scope.old scope.new (slots_of (phrases.walking (walk_of word.now.kind) word.now.at (word_of name.now) (expr_phrase over.now) (expr_phrase body.now)))) }
{
    let depth = visible(scope);
    let seen = walk_over(alloc, globals, scope, word, name, over, body)?;
    let Walk { variable, gathers } = seen;
    add_slot(shapes, variable.shape.copy()?, Some(gathers))?;
    take_slot(scope)?;
    expression(alloc, globals, scope, shapes, over)?;
    push_local(scope, variable)?;
    expression(alloc, globals, scope, shapes, body)?;
    leave(scope, depth);
    Ok(())
}

/// Those of the arguments of a call, from the left.
#[cycle(walk)]
#[tactic(auto, using(crate::proofs::Steps::steps))]
pub fn args(
    alloc: Global,
    globals: &GlobalNames,
    scope: &mut LocalScope,
    shapes: &mut BodyShapes,
    e: &ArgTrees,
) -> Result<(), AllocError>
    ensures found { OnOk result (body_types shapes.new ≡ with_slots (body_types shapes.old) (found_all (env_of globals.now) scope.old.locals.items scope.old.next (args_phrases e.now))) }
    ensures keeps { OnOk result (Keeps scope.old scope.new (slots_of_all (args_phrases e.now))) }
{
    expression(alloc, globals, scope, shapes, &e.first)?;
    for next in &e.rest {
        expression(alloc, globals, scope, shapes, next)?;
    }
    Ok(())
}

/// Those of the values of `[a = e]`, from the left.
#[cycle(walk)]
#[tactic(auto, using(crate::proofs::Steps::steps))]
fn bindings(
    alloc: Global,
    globals: &GlobalNames,
    scope: &mut LocalScope,
    shapes: &mut BodyShapes,
    e: &Bindings,
) -> Result<(), AllocError>
    ensures found { OnOk result (body_types shapes.new ≡ with_slots (body_types shapes.old) (found_all (env_of globals.now) scope.old.locals.items scope.old.next (bindings_phrases e.now))) }
    ensures keeps { OnOk result (Keeps scope.old scope.new (slots_of_all (bindings_phrases e.now))) }
{
    expression(alloc, globals, scope, shapes, &e.first.value)?;
    for binding in &e.rest {
        expression(alloc, globals, scope, shapes, &binding.value)?;
    }
    Ok(())
}

/// Those of the atoms of a delta literal, from the left.
#[cycle(walk)]
#[tactic(auto, using(crate::proofs::Steps::steps))]
fn atoms(
    alloc: Global,
    globals: &GlobalNames,
    scope: &mut LocalScope,
    shapes: &mut BodyShapes,
    e: &Atoms,
) -> Result<(), AllocError>
    ensures found { OnOk result (body_types shapes.new ≡ with_slots (body_types shapes.old) (found_all (env_of globals.now) scope.old.locals.items scope.old.next (atoms_phrases e.now))) }
    ensures keeps { OnOk result (Keeps scope.old scope.new (slots_of_all (atoms_phrases e.now))) }
{
    args(alloc, globals, scope, shapes, &e.first.args)?;
    for next in &e.rest {
        args(alloc, globals, scope, shapes, &next.args)?;
    }
    Ok(())
}

/// Those of the lines of `rows`, from the left.
#[cycle(walk)]
#[tactic(auto, using(crate::proofs::Steps::steps))]
fn lines(
    alloc: Global,
    globals: &GlobalNames,
    scope: &mut LocalScope,
    shapes: &mut BodyShapes,
    e: &LineTrees,
    name: &Token,
) -> Result<(), AllocError>
    ensures found { OnOk result (body_types shapes.new ≡ with_slots (body_types shapes.old) (found_all (env_of globals.now) scope.old.locals.items scope.old.next (lines_phrases (word_of name.now) e.now))) }
    ensures keeps { OnOk result (Keeps scope.old scope.new (slots_of_all (lines_phrases (word_of name.now) e.now))) }
{
    args(alloc, globals, scope, shapes, &e.first.args)?;
    for next in &e.rest {
        args(alloc, globals, scope, shapes, &next.args)?;
    }
    Ok(())
}

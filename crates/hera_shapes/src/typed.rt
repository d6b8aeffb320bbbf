//! What the walk over a tree asks of typing, and what it writes down.

ghost use Rattle.std.specs.Prelude.{◌≡◌, [], ◌∷◌, ◌++◌, ◌+◌, IfOk, OnOk, Ok, length, take};
ghost use Rattle.hera_meaning.specs.Shapes.{body_types};
ghost use Rattle.hera_rules.specs.Agrees.{Keeps};
ghost use Rattle.hera_rules.specs.Commands.{type_row};
ghost use Rattle.hera_rules.specs.Environments.{env_of};
ghost use Rattle.hera_rules.specs.Read.{expr_phrase, name_of, walk_of, word_of};
ghost use Rattle.hera_rules.specs.ReadActs.{type_phrase};
ghost use Rattle.hera_rules.specs.Rules.{variable_row};
ghost use Rattle.hera_rules.specs.Typing.{slots_of};
ghost use Rattle.hera_sound.specs.Types_found.{attrs_of_tuple, gathered};
ghost use Rattle.hera_shapes.specs.Found.{IsTyped, IsVariable, IsVisit, IsWalk, with_slots};

use hera_meaning::{BodyShapes, Name, Schema, Shape};
use hera_rules::{Local, LocalScope, Typed, WalkKind};
use hera_syntax::{Expr, Token, TypeTree};
use hera_types_checks::{check_type, check_variable};
use hera_types_exprs::expr;
use hera_types_parts::{GlobalNames, LocalNames, name_copy, walk_word};
use std::alloc::{AllocError, Global};

/// What typing says of a walk: its variable, and the schema of what it gathers.
#[derive(Drop)]
pub struct Walk {
    pub variable: Local,
    pub gathers: Schema,
}

// ---- writing down

/// A slot more: its shape, and what the walk into it gathers, where there is one.
pub fn add_slot(
    shapes: &mut BodyShapes,
    shape: Shape,
    gathers: Option<Schema>,
) -> Result<(), AllocError>
    ensures { OnOk result (body_types shapes.new ≡ with_slots (body_types shapes.old) (record { shape = shape; gathers = gathers } ∷ [])) }
{
    shapes.slots.push(shape)?;
    shapes.gathers.push(gathers)?;
    Ok(())
}

/// Takes the next slot.
pub fn take_slot(scope: &mut LocalScope) -> Result<u32, AllocError>
    ensures slot { IfOk result (λ slot. slot ≡ scope.old.next) }
    ensures keeps { OnOk result (Keeps scope.old scope.new 1) }
{
    let slot = scope.next;
    match slot.checked_add(1) {
        Some(next) => {
            scope.next = next;
            Ok(slot)
        }
        None => Err(AllocError),
    }
}

/// One visible local more.
pub fn push_local(scope: &mut LocalScope, local: Local) -> Result<(), AllocError>
    ensures locals { OnOk result (scope.new.locals.items ≡ scope.old.locals.items ++ local ∷ []) }
    ensures next { scope.new.next ≡ scope.old.next }
{
    scope.locals.push(local)?;
    Ok(())
}

/// How many locals are visible.
pub fn visible(scope: &LocalScope) -> usize
    ensures { result ≡ length scope.now.locals.items }
{
    scope.locals.len()
}

/// Leaves the locals behind the first `depth`.
pub fn leave(scope: &mut LocalScope, depth: usize)
    ensures locals { scope.new.locals.items ≡ take depth scope.old.locals.items }
    ensures next { scope.new.next ≡ scope.old.next }
{
    scope.locals.truncate(depth);
}

// ---- asking

/// The visible locals as typing takes them.
fn names_in(alloc: Global, scope: &LocalScope) -> Result<LocalNames, AllocError>
    ensures locals { IfOk result (λ names. names.locals.items ≡ scope.now.locals.items) }
    ensures next { IfOk result (λ names. names.next ≡ scope.now.next) }
{
    let mut names = LocalNames::new(alloc, scope.next);
    for local in &scope.locals {
        names.push_local(local.copy()?)?;
    }
    Ok(names)
}

/// The type of a phrase without its core.
fn shape_alone(typed: Typed) -> Shape
    ensures { result ≡ typed.shape }
{
    let Typed { shape, core } = typed;
    drop(core);
    shape
}

/// The type of an expression.
fn shape_of(
    alloc: Global,
    globals: &GlobalNames,
    names: &mut LocalNames,
    e: &Expr,
) -> Result<Shape, AllocError>
    ensures typed { IfOk result (IsTyped (env_of globals.now) names.old.locals.items names.old.next (expr_phrase e.now)) }
    ensures keeps { OnOk result (Keeps names.old names.new (slots_of (expr_phrase e.now))) }
{
    match expr(alloc, globals, names, e) {
        Ok(typed) => Ok(shape_alone(typed)),
        Err(_) => Err(AllocError),
    }
}

/// The next slot of the names.
fn slot_in(names: &mut LocalNames) -> Result<u32, AllocError>
    ensures slot { IfOk result (λ slot. slot ≡ names.old.next) }
    ensures keeps { OnOk result (Keeps names.old names.new 1) }
{
    match names.take_slot() {
        Ok(slot) => Ok(slot),
        Err(_) => Err(AllocError),
    }
}

/// The local of a walk's variable, where the walk is over a value of this type.
fn variable_over(
    alloc: Global,
    globals: &GlobalNames,
    names: &LocalNames,
    name: &Token,
    at: u32,
    slot: u32,
    over: &Shape,
) -> Result<Local, AllocError>
    ensures { IfOk result (λ local. variable_row (env_of globals.now) names.now.locals.items (word_of name.now) at slot over.now ≡ Ok local) }
{
    match check_variable(globals, names, alloc, name, at, slot, over) {
        Ok(local) => Ok(local),
        Err(_) => Err(AllocError),
    }
}

/// The local of the variable of a walk over an expression. It has the next slot, and those of the expression come
/// behind it.
fn variable_of(
    alloc: Global,
    globals: &GlobalNames,
    names: &mut LocalNames,
    name: &Token,
    at: u32,
    over: &Expr,
) -> Result<Local, AllocError>
    ensures variable { IfOk result (IsVariable (env_of globals.now) names.old.locals.items names.old.next (word_of name.now) at (expr_phrase over.now)) }
    ensures keeps { OnOk result (Keeps names.old names.new (1 + slots_of (expr_phrase over.now))) }
{
    let slot = slot_in(names)?;
    let of = shape_of(alloc, globals, names, over)?;
    let local = variable_over(alloc, globals, names, name, at, slot, &of)?;
    Ok(local)
}

/// The schema of a tuple's type.
fn schema_of(shape: &Shape) -> Result<Schema, AllocError>
    ensures { IfOk result (λ schema. schema ≡ attrs_of_tuple shape.now) }
{
    match shape {
        Shape::Tuple(schema) => Ok(schema.copy()?),
        _ => Err(AllocError),
    }
}

/// What a walk gathers, by the types of its variable and of its body.
fn gathered_of(kind: WalkKind, variable: &Shape, body: &Shape) -> Result<Schema, AllocError>
    ensures { IfOk result (λ schema. schema ≡ gathered kind variable.now body.now) }
{
    match kind {
        WalkKind::Keeping => schema_of(variable),
        WalkKind::Mapping => schema_of(body),
    }
}

/// What typing says of a `select` or a `map`.
pub fn walk_over(
    alloc: Global,
    globals: &GlobalNames,
    scope: &LocalScope,
    word: &Token,
    name: &Token,
    over: &Expr,
    body: &Expr,
) -> Result<Walk, AllocError>
    ensures { IfOk result (λ w. IsWalk (env_of globals.now) scope.now.locals.items scope.now.next (walk_of word.now.kind) word.now.at (word_of name.now) (expr_phrase over.now) (expr_phrase body.now) w.variable w.gathers) }
{
    let mut names = names_in(alloc, scope)?;
    let variable = variable_of(alloc, globals, &mut names, name, word.at, over)?;
    names.push_local(variable.copy()?)?;
    let made = shape_of(alloc, globals, &mut names, body)?;
    let gathers = gathered_of(walk_word(word), &variable.shape, &made)?;
    Ok(Walk { variable, gathers })
}

/// What typing says of a `foreach`, which gathers what it walks.
pub fn visit_over(
    alloc: Global,
    globals: &GlobalNames,
    scope: &LocalScope,
    name: &Token,
    at: u32,
    over: &Expr,
) -> Result<Walk, AllocError>
    ensures { IfOk result (λ w. IsVisit (env_of globals.now) scope.now.locals.items scope.now.next at (word_of name.now) (expr_phrase over.now) w.variable w.gathers) }
{
    let mut names = names_in(alloc, scope)?;
    let variable = variable_of(alloc, globals, &mut names, name, at, over)?;
    let gathers = schema_of(&variable.shape)?;
    Ok(Walk { variable, gathers })
}

/// A type as written.
pub fn type_of(
    alloc: Global,
    globals: &GlobalNames,
    type_tree: &TypeTree,
) -> Result<Shape, AllocError>
    ensures { IfOk result (λ shape. type_row (env_of globals.now).relations (type_phrase type_tree.now) ≡ Ok shape) }
{
    match check_type(alloc, globals.relations(), type_tree) {
        Ok(shape) => Ok(shape),
        Err(_) => Err(AllocError),
    }
}

/// The name that an identifier has.
pub fn name_in(alloc: Global, token: &Token) -> Result<Name, AllocError>
    ensures { IfOk result (λ name. name ≡ name_of token.now.kind) }
{
    match name_copy(alloc, token) {
        Ok(name) => Ok(name),
        Err(_) => Err(AllocError),
    }
}

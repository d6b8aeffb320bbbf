//! Cores of statements of one phrase, or of a list of phrases.

ghost use Rattle.std.specs.Prelude.{◌≡◌, ◌+◌, IfErr, IfOk, OnOk, [], is_some};
ghost use Rattle.hera_meaning.specs.Plain.{command_of};
ghost use Rattle.hera_meaning.specs.Trees as trees;
ghost use Rattle.hera_rules.specs.Commands.{effect_row};
ghost use Rattle.hera_rules.specs.declared.fault.TypeFault.TheVariants as fault;
ghost use Rattle.hera_rules.specs.Environments.{env_of};
ghost use Rattle.hera_rules.specs.Phrases.{applying, asserting, assigning, declaring, performing, printing, returning_value};
ghost use Rattle.hera_rules.specs.Read.{expr_phrase, word_of};
ghost use Rattle.hera_rules.specs.ReadActs.{label_of, return_act, some_args, type_phrase};
ghost use Rattle.hera_rules.specs.Statements.{slots_of_act};
ghost use Rattle.hera_types_exprs.specs.Parts.{list_of};
ghost use Rattle.hera_rules.specs.Agrees.{Gives, Keeps};
ghost use Rattle.hera_rules.specs.Checked.{check_all};
ghost use Rattle.hera_rules.specs.Typing.{slots_of_all};
ghost use Rattle.hera_types.specs.Scopes.{ActGives, Extends};

use hera_meaning::{Shape, Stmt, Text};
use hera_rules::{TypeFault, Typed};
use hera_syntax::{ArgTrees, Expr, Token, TypeTree};
use hera_types_checks::{
    check_apply, check_assert, check_assign, check_declare, check_effect, check_perform,
    check_print, check_return, check_return_value, check_type,
};
use hera_types_exprs::{Waiting, args, expr};
use hera_types_parts::{GlobalNames, LocalNames, into_core, text_copy};
use std::alloc::Global;

/// A declaration. Its local is visible behind it.
pub fn declare(
    alloc: Global,
    globals: &GlobalNames,
    returned: &Option<Shape>,
    scope: &mut LocalNames,
    type_tree: &TypeTree,
    name: &Token,
    value: &Expr,
) -> Result<Stmt, TypeFault>
    ensures checks { ActGives result scope.new.locals.items (env_of globals.now) returned.now scope.old.locals.items scope.old.next (declaring (type_phrase type_tree.now) (word_of name.now) (expr_phrase value.now)) }
    ensures next { OnOk result (scope.new.next ≡ scope.old.next + slots_of_act (declaring (type_phrase type_tree.now) (word_of name.now) (expr_phrase value.now))) }
    ensures grows { OnOk result (Extends scope.old.locals.items scope.new.locals.items) }
{
    let slot = scope.take_slot()?;
    let shape = check_type(alloc, globals.relations(), type_tree)?;
    let given = expr(alloc, globals, scope, value)?;
    let initial = Waiting { typed: given };
    let local = check_declare(
        alloc,
        globals,
        scope,
        name,
        slot,
        shape,
        &initial.typed.shape,
    )?;
    scope.push_local(local)?;
    let typed = initial.into_typed();
    Ok(Stmt::Set(slot, into_core(typed)))
}

/// An assignment.
pub fn assign(
    alloc: Global,
    globals: &GlobalNames,
    returned: &Option<Shape>,
    scope: &mut LocalNames,
    name: &Token,
    value: &Expr,
) -> Result<Stmt, TypeFault>
    ensures checks { ActGives result scope.new.locals.items (env_of globals.now) returned.now scope.old.locals.items scope.old.next (assigning (word_of name.now) (expr_phrase value.now)) }
    ensures next { OnOk result (scope.new.next ≡ scope.old.next + slots_of_act (assigning (word_of name.now) (expr_phrase value.now))) }
    ensures grows { OnOk result (Extends scope.old.locals.items scope.new.locals.items) }
{
    let typed = expr(alloc, globals, scope, value)?;
    check_assign(scope, name, typed)
}

/// A call of a proc.
pub fn perform(
    alloc: Global,
    globals: &GlobalNames,
    returned: &Option<Shape>,
    scope: &mut LocalNames,
    name: &Token,
    list: &Option<ArgTrees>,
) -> Result<Stmt, TypeFault>
    ensures checks { ActGives result scope.new.locals.items (env_of globals.now) returned.now scope.old.locals.items scope.old.next (performing (word_of name.now) (some_args list.now)) }
    ensures next { OnOk result (scope.new.next ≡ scope.old.next + slots_of_act (performing (word_of name.now) (some_args list.now))) }
    ensures grows { OnOk result (Extends scope.old.locals.items scope.new.locals.items) }
{
    let values = some_values(alloc, globals, scope, list)?;
    check_perform(alloc, globals, returned.is_some(), name, values)
}

/// A print.
pub fn print(
    alloc: Global,
    globals: &GlobalNames,
    returned: &Option<Shape>,
    scope: &mut LocalNames,
    at: u32,
    value: &Expr,
) -> Result<Stmt, TypeFault>
    ensures checks { ActGives result scope.new.locals.items (env_of globals.now) returned.now scope.old.locals.items scope.old.next (printing at (expr_phrase value.now)) }
    ensures next { OnOk result (scope.new.next ≡ scope.old.next + slots_of_act (printing at (expr_phrase value.now))) }
    ensures grows { OnOk result (Extends scope.old.locals.items scope.new.locals.items) }
{
    let typed = expr(alloc, globals, scope, value)?;
    check_print(returned.is_some(), at, typed)
}

/// An apply.
pub fn apply(
    alloc: Global,
    globals: &GlobalNames,
    returned: &Option<Shape>,
    scope: &mut LocalNames,
    at: u32,
    value: &Expr,
) -> Result<Stmt, TypeFault>
    ensures checks { ActGives result scope.new.locals.items (env_of globals.now) returned.now scope.old.locals.items scope.old.next (applying at (expr_phrase value.now)) }
    ensures next { OnOk result (scope.new.next ≡ scope.old.next + slots_of_act (applying at (expr_phrase value.now))) }
    ensures grows { OnOk result (Extends scope.old.locals.items scope.new.locals.items) }
{
    let typed = expr(alloc, globals, scope, value)?;
    check_apply(returned.is_some(), at, typed)
}

/// An assert.
pub fn claim(
    alloc: Global,
    globals: &GlobalNames,
    returned: &Option<Shape>,
    scope: &mut LocalNames,
    at: u32,
    value: &Expr,
) -> Result<Stmt, TypeFault>
    ensures checks { ActGives result scope.new.locals.items (env_of globals.now) returned.now scope.old.locals.items scope.old.next (asserting at (expr_phrase value.now)) }
    ensures next { OnOk result (scope.new.next ≡ scope.old.next + slots_of_act (asserting at (expr_phrase value.now))) }
    ensures grows { OnOk result (Extends scope.old.locals.items scope.new.locals.items) }
{
    let typed = expr(alloc, globals, scope, value)?;
    check_assert(at, typed)
}

/// A commit, with or without a label.
pub fn commit(
    alloc: Global,
    returned: &Option<Shape>,
    at: u32,
    label: &Option<Token>,
) -> Result<Stmt, TypeFault>
    ensures { Gives command_of result (effect_row (is_some returned.now) at (trees.commit (label_of label.now))) }
{
    let copy = label_copy(alloc, label)?;
    check_effect(returned.is_some(), at, Stmt::Commit(copy))
}

/// A copy of a label.
fn label_copy(alloc: Global, label: &Option<Token>) -> Result<Option<Text>, TypeFault>
    ensures label { IfOk result (λ copy. copy ≡ label_of label.now) }
    ensures refused { IfErr result (λ f. f ≡ fault.Memory) }
{
    match label {
        None => Ok(None),
        Some(token) => Ok(Some(text_copy(alloc, token)?)),
    }
}

/// A return.
pub fn give_back(
    alloc: Global,
    globals: &GlobalNames,
    returned: &Option<Shape>,
    scope: &mut LocalNames,
    word: &Token,
    value: &Option<Expr>,
) -> Result<Stmt, TypeFault>
    ensures checks { ActGives result scope.new.locals.items (env_of globals.now) returned.now scope.old.locals.items scope.old.next (return_act word.now value.now) }
    ensures next { OnOk result (scope.new.next ≡ scope.old.next + slots_of_act (return_act word.now value.now)) }
    ensures grows { OnOk result (Extends scope.old.locals.items scope.new.locals.items) }
{
    match value {
        None => check_return(returned, word.at),
        Some(inner) => give_value(alloc, globals, returned, scope, word.at, inner),
    }
}

/// A return with a value.
fn give_value(
    alloc: Global,
    globals: &GlobalNames,
    returned: &Option<Shape>,
    scope: &mut LocalNames,
    at: u32,
    value: &Expr,
) -> Result<Stmt, TypeFault>
    ensures checks { ActGives result scope.new.locals.items (env_of globals.now) returned.now scope.old.locals.items scope.old.next (returning_value at (expr_phrase value.now)) }
    ensures next { OnOk result (scope.new.next ≡ scope.old.next + slots_of_act (returning_value at (expr_phrase value.now))) }
    ensures grows { OnOk result (Extends scope.old.locals.items scope.new.locals.items) }
{
    let typed = expr(alloc, globals, scope, value)?;
    check_return_value(returned, at, typed)
}

/// The values of arguments, of which there may be none.
fn some_values(
    alloc: Global,
    globals: &GlobalNames,
    scope: &mut LocalNames,
    list: &Option<ArgTrees>,
) -> Result<Vec<Typed>, TypeFault>
    ensures checks { Gives list_of result (check_all (env_of globals.now) scope.old.locals.items scope.old.next [] (some_args list.now)) }
    ensures keeps { OnOk result (Keeps scope.old scope.new (slots_of_all (some_args list.now))) }
{
    match list {
        Some(inner) => args(alloc, globals, scope, inner),
        None => Ok(Vec::new(alloc)),
    }
}

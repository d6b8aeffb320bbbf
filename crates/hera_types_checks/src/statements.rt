//! Checks of statements.

ghost use Rattle.hera_meaning.specs.Plain.{command_of, expr_of};
ghost use Rattle.hera_rules.specs.Agrees.{Gives, typing_of, typings_of};
ghost use Rattle.hera_rules.specs.Commands.{apply_row, assert_row, assign_row, cond_row, declare_local, effect_row, perform_row, print_row, return_row, return_value_row};
ghost use Rattle.hera_rules.specs.Environments.{env_of};
ghost use Rattle.hera_rules.specs.Read.{word_of};

use crate::calls::take_params;
use crate::operands::{bool_shape, delta_shape};
use hera_meaning::{Core, Shape, Stmt};
use hera_rules::{Local, TypeFault, Typed};
use hera_syntax::Token;
use hera_types_parts::{
    GlobalNames, LocalNames, cores, has_name, into_core, name_bytes, name_copy, same_shape,
};
use std::alloc::Global;

/// The local of a declaration: a new name, a value of exactly the type.
pub fn check_declare(
    alloc: Global,
    globals: &GlobalNames,
    scope: &LocalNames,
    token: &Token,
    slot: u32,
    shape: Shape,
    value: &Shape,
) -> Result<Local, TypeFault>
    ensures { Gives (λ l. l) result (declare_local (env_of globals.now) scope.now.locals.items (word_of token.now) slot shape value.now) }
{
    if has_name(globals, scope, name_bytes(token)) {
        return Err(TypeFault::Repeated { at: token.at });
    }
    if !same_shape(&shape, value) {
        return Err(TypeFault::Mismatch { at: token.at });
    }
    let name = name_copy(alloc, token)?;
    Ok(Local { name, slot, shape })
}

/// An assignment: a visible local, a value of exactly its type.
#[tactic(auto, using(hera_meaning::proofs::PlainLaws::plain))]
pub fn check_assign(scope: &LocalNames, token: &Token, value: Typed) -> Result<Stmt, TypeFault>
    ensures { Gives command_of result (assign_row scope.now.locals.items (word_of token.now) (typing_of value)) }
{
    let Some(local) = scope.local(name_bytes(token)) else {
        drop(value);
        return Err(TypeFault::Unknown { at: token.at });
    };
    if !same_shape(&local.shape, &value.shape) {
        drop(value);
        return Err(TypeFault::Mismatch { at: token.at });
    }
    Ok(Stmt::Set(local.slot, into_core(value)))
}

/// A call statement: a proc, in no func, arguments of exactly its types.
#[tactic(auto, using(hera_meaning::proofs::PlainLaws::plain))]
pub fn check_perform(
    alloc: Global,
    globals: &GlobalNames,
    func: bool,
    token: &Token,
    values: Vec<Typed>,
) -> Result<Stmt, TypeFault>
    ensures { Gives command_of result (perform_row (env_of globals.now) func (word_of token.now) (typings_of values.items)) }
{
    let name = name_bytes(token);
    if let Some(proc) = globals.procedure(name) {
        if func {
            return Err(TypeFault::Impure { at: token.at });
        }
        if !take_params(proc.params.items(), &values) {
            return Err(TypeFault::Mismatch { at: token.at });
        }
        let args = cores(alloc, values)?;
        return Ok(Stmt::Call(proc.number, args));
    }
    if globals.has(name) || globals.hosts().find(name).is_some() {
        return Err(TypeFault::Mismatch { at: token.at });
    }
    Err(TypeFault::Unknown { at: token.at })
}

/// A condition is a bool.
pub fn check_cond(at: u32, value: Typed) -> Result<Core, TypeFault>
    ensures { Gives expr_of result (cond_row at (typing_of value)) }
{
    if !bool_shape(&value.shape) {
        drop(value);
        return Err(TypeFault::Mismatch { at });
    }
    Ok(into_core(value))
}

/// A statement that no func may have.
pub fn check_effect(func: bool, at: u32, stmt: Stmt) -> Result<Stmt, TypeFault>
    ensures { Gives command_of result (effect_row func at (command_of stmt)) }
{
    match func {
        true => {
            drop(stmt);
            Err(TypeFault::Impure { at })
        }
        false => Ok(stmt),
    }
}

/// `print`: any type.
#[tactic(auto, using(hera_meaning::proofs::PlainLaws::plain))]
pub fn check_print(func: bool, at: u32, value: Typed) -> Result<Stmt, TypeFault>
    ensures { Gives command_of result (print_row func at (typing_of value)) }
{
    if func {
        drop(value);
        return Err(TypeFault::Impure { at });
    }
    let Typed { shape, core } = value;
    Ok(Stmt::Print(core, shape))
}

/// `apply`: a delta.
#[tactic(auto, using(hera_meaning::proofs::PlainLaws::plain))]
pub fn check_apply(func: bool, at: u32, value: Typed) -> Result<Stmt, TypeFault>
    ensures { Gives command_of result (apply_row func at (typing_of value)) }
{
    if func {
        drop(value);
        return Err(TypeFault::Impure { at });
    }
    if !delta_shape(&value.shape) {
        drop(value);
        return Err(TypeFault::Mismatch { at });
    }
    Ok(Stmt::Apply(into_core(value), at))
}

/// `assert`: a bool.
#[tactic(auto, using(hera_meaning::proofs::PlainLaws::plain))]
pub fn check_assert(at: u32, value: Typed) -> Result<Stmt, TypeFault>
    ensures { Gives command_of result (assert_row at (typing_of value)) }
{
    if !bool_shape(&value.shape) {
        drop(value);
        return Err(TypeFault::Mismatch { at });
    }
    Ok(Stmt::Assert(into_core(value), at))
}

/// `return` without a value: not in a func.
#[tactic(auto, using(hera_meaning::proofs::PlainLaws::plain))]
pub fn check_return(returned: &Option<Shape>, at: u32) -> Result<Stmt, TypeFault>
    ensures { Gives command_of result (return_row returned.now at) }
{
    match returned {
        None => Ok(Stmt::Return(None)),
        Some(_) => Err(TypeFault::Mismatch { at }),
    }
}

/// `return` with a value: in a func, of its type.
#[tactic(auto, using(hera_meaning::proofs::PlainLaws::plain))]
pub fn check_return_value(
    returned: &Option<Shape>,
    at: u32,
    value: Typed,
) -> Result<Stmt, TypeFault>
    ensures { Gives command_of result (return_value_row returned.now at (typing_of value)) }
{
    let Some(wanted) = returned else {
        drop(value);
        return Err(TypeFault::Mismatch { at });
    };
    if !same_shape(wanted, &value.shape) {
        drop(value);
        return Err(TypeFault::Mismatch { at });
    }
    Ok(Stmt::Return(Some(into_core(value))))
}

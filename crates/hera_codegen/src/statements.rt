//! The code of statements.
//!
//! Each function appends the code of its phrase, which begins at the address of the next instruction.

ghost use Rattle.std.specs.Prelude.{◌≡◌, [], ◌∷◌, ◌++◌, length, IfOk, OnOk};
ghost use Rattle.hera_meaning.specs.Trees.{while as while_of, foreach};
ghost use Rattle.hera_meaning.specs.Plain.{expr_of, return_of, command_of, block_in, arms_in};
ghost use Rattle.hera_code.specs.Scheme.{expr_code, command_code, block_code, arms_code, body_code, return_code, label_code};
ghost use Rattle.hera_code.specs.declared.instrs.Instr.TheVariants.{Commit};
ghost use Rattle.hera_codegen.specs.Holes.{arms_holes};
ghost use Rattle.hera_codegen.specs.Roles.{role_is, arm_front};

use crate::expressions::{emit_expr, emit_operands};
use crate::patches::{
    close_jumps, close_unless, close_walk, here, open_jump, open_unless, open_walk, put,
};
use hera_code::Instr;
use hera_meaning::{Arm, Const, Core, Scalar, Shape, Stmt, Text};
use std::alloc::AllocError;

/// What the body is in which a statement stands.
#[derive(Clone, Copy, PartialEq, Eq, Debug)]
pub enum Role {
    Main,
    Func,
    Proc,
}

/// The instruction of a `return`.
fn return_instr(role: Role) -> Instr
    ensures { result ≡ return_code (role_is role) }
{
    match role {
        Role::Main => Instr::Halt,
        Role::Func => Instr::RetVal,
        Role::Proc => Instr::Ret,
    }
}

/// An expression and the instruction that takes its value.
fn emit_value(code: &mut Vec<Instr>, e: &Core, taker: Instr) -> Result<(), AllocError>
    ensures { OnOk result (code.new.items ≡ code.old.items ++ (expr_code (expr_of e.now) (length code.old.items) ++ taker ∷ [])) }
{
    emit_expr(code, e)?;
    put(code, taker)
}

/// A `return`, with a value in a func.
fn emit_return(code: &mut Vec<Instr>, role: Role, value: &Option<Core>) -> Result<(), AllocError>
    ensures { OnOk result (code.new.items ≡ code.old.items ++ command_code (role_is role) (return_of value.now) (length code.old.items)) }
{
    match value {
        None => put(code, return_instr(role)),
        Some(e) => emit_value(code, e, return_instr(role)),
    }
}

/// A label, pushed and printed as a text.
fn emit_label(code: &mut Vec<Instr>, label: &Option<Text>) -> Result<(), AllocError>
    ensures { OnOk result (code.new.items ≡ code.old.items ++ label_code label.now) }
{
    match label {
        None => Ok(()),
        Some(text) => {
            put(code, Instr::Push(Const::Scalar(Scalar::Text(text.copy()?))))?;
            put(code, Instr::Print(Shape::Text))
        }
    }
}

/// A commit, and its label behind it.
fn emit_commit(code: &mut Vec<Instr>, label: &Option<Text>) -> Result<(), AllocError>
    ensures { OnOk result (code.new.items ≡ code.old.items ++ Commit ∷ label_code label.now) }
{
    put(code, Instr::Commit)?;
    emit_label(code, label)
}

/// A statement.
#[cycle(statement)]
#[tactic(auto, using(hera_meaning::proofs::PlainLaws::plain))]
fn emit_stmt(code: &mut Vec<Instr>, role: Role, stmt: &Stmt) -> Result<(), AllocError>
    ensures { OnOk result (code.new.items ≡ code.old.items ++ command_code (role_is role) (command_of stmt.now) (length code.old.items)) }
{
    match stmt {
        Stmt::Set(slot, e) => emit_value(code, e, Instr::Store(*slot)),
        Stmt::If(arms, other) => {
            let holes = emit_arms(code, role, arms)?;
            emit_block(code, role, other)?;
            close_jumps(code, &holes)
        }
        Stmt::While(cond, block) => emit_while(code, role, block, cond),
        Stmt::Foreach(slot, of, block) => emit_foreach(code, role, block, *slot, of),
        Stmt::Print(e, shape) => emit_value(code, e, Instr::Print(shape.copy()?)),
        Stmt::Apply(delta, at) => emit_value(code, delta, Instr::Apply(*at)),
        Stmt::Commit(label) => emit_commit(code, label),
        Stmt::Rollback => put(code, Instr::Rollback),
        Stmt::Assert(cond, at) => emit_value(code, cond, Instr::Assert(*at)),
        Stmt::Return(value) => emit_return(code, role, value),
        Stmt::Call(body, args) => emit_operands(code, args, Instr::Call(*body)),
    }
}

/// Statements one behind another.
#[cycle(statement)]
pub fn emit_block(code: &mut Vec<Instr>, role: Role, block: &Vec<Stmt>) -> Result<(), AllocError>
    ensures { OnOk result (code.new.items ≡ code.old.items ++ block_code (role_is role) (block_in block.now.items) (length code.old.items)) }
{
    for stmt in block {
        emit_stmt(code, role, stmt)?;
    }
    Ok(())
}

/// The arms of an `if`, each with a Jump behind its block, whose address is written later. Gives the places
/// of these.
#[cycle(statement)]
fn emit_arms(code: &mut Vec<Instr>, role: Role, arms: &Vec<Arm>) -> Result<Vec<usize>, AllocError>
    ensures code { OnOk result (code.new.items ≡ code.old.items ++ arms_code (role_is role) (arms_in arms.now.items) (length code.old.items) 0) }
    ensures holes { IfOk result (λ holes. holes.items ≡ arms_holes (arms_in arms.now.items) (length code.old.items)) }
{
    let mut holes = Vec::new(*code.allocator());
    for arm in arms {
        emit_arm(code, role, arm)?;
        open_jump(code, &mut holes)?;
    }
    Ok(holes)
}

/// An arm without the Jump behind its block: the condition, Unless to behind that Jump, the block.
#[cycle(statement)]
fn emit_arm(code: &mut Vec<Instr>, role: Role, arm: &Arm) -> Result<(), AllocError>
    ensures { OnOk result (code.new.items ≡ code.old.items ++ arm_front (role_is role) (expr_of arm.now.cond) (block_in arm.now.block.items) (length code.old.items)) }
{
    emit_expr(code, &arm.cond)?;
    let hole = open_unless(code)?;
    emit_block(code, role, &arm.block)?;
    close_unless(code, hole, 1)
}

/// `while`: the condition, Unless, the block, Back.
#[cycle(statement)]
fn emit_while(
    code: &mut Vec<Instr>,
    role: Role,
    block: &Vec<Stmt>,
    cond: &Core,
) -> Result<(), AllocError>
    ensures { OnOk result (code.new.items ≡ code.old.items ++ command_code (role_is role) (while_of (expr_of cond.now) (block_in block.now.items)) (length code.old.items)) }
{
    let start = here(code)?;
    emit_expr(code, cond)?;
    let hole = open_unless(code)?;
    emit_block(code, role, block)?;
    put(code, Instr::Back(start))?;
    close_unless(code, hole, 0)
}

/// `foreach`: the operand, then for each tuple the block.
#[cycle(statement)]
fn emit_foreach(
    code: &mut Vec<Instr>,
    role: Role,
    block: &Vec<Stmt>,
    slot: u32,
    of: &Core,
) -> Result<(), AllocError>
    ensures { OnOk result (code.new.items ≡ code.old.items ++ command_code (role_is role) (foreach slot (expr_of of.now) (block_in block.now.items)) (length code.old.items)) }
{
    emit_expr(code, of)?;
    let start = open_walk(code, slot)?;
    emit_block(code, role, block)?;
    close_walk(code, slot, start)?;
    put(code, Instr::Drop)
}

/// A body: its block, then a Halt in main and a Ret in a proc.
pub fn emit_body(code: &mut Vec<Instr>, role: Role, block: &Vec<Stmt>) -> Result<(), AllocError>
    ensures { OnOk result (code.new.items ≡ code.old.items ++ body_code (role_is role) (block_in block.now.items) (length code.old.items)) }
{
    emit_block(code, role, block)?;
    match role {
        Role::Main => put(code, Instr::Halt),
        Role::Func => Ok(()),
        Role::Proc => put(code, Instr::Ret),
    }
}

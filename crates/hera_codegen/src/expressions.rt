//! The code of expressions.
//!
//! Each function appends the code of its phrase, which begins at the address of the next instruction.

ghost use Rattle.std.specs.Prelude.{◌≡◌, [], ◌∷◌, ◌++◌, length, IfOk, OnOk};
ghost use Rattle.hera_meaning.specs.Trees.{and_all, or_any};
ghost use Rattle.hera_meaning.specs.Plain.{expr_of, exprs_in, links_in, hypos_in};
ghost use Rattle.hera_code.specs.Scheme.{expr_code, exprs_code, some_code, links_code, hypos_code};
ghost use Rattle.hera_codegen.specs.Holes.{every_front, every_holes, some_holes};

use crate::patches::{
    close_every, close_gathering, close_jumps, note_unless, open_jump, open_walk, put,
    put_decision, put_false, put_leaves,
};
use hera_code::Instr;
use hera_meaning::{Core, Hypo, Link};
use std::alloc::AllocError;

/// An expression.
#[cycle(expression)]
#[tactic(auto, using(hera_meaning::proofs::PlainLaws::plain))]
pub fn emit_expr(code: &mut Vec<Instr>, e: &Core) -> Result<(), AllocError>
    ensures { OnOk result (code.new.items ≡ code.old.items ++ expr_code (expr_of e.now) (length code.old.items)) }
{
    match e {
        Core::Const(constant) => put(code, Instr::Push(constant.copy()?)),
        Core::Local(slot) => put(code, Instr::Load(*slot)),
        Core::Rel(rel) => put(code, Instr::Rel(*rel)),
        Core::Prim(op, args, at) => emit_operands(code, args, Instr::Prim(op.copy()?, *at)),
        Core::Chain(first, links) => {
            emit_expr(code, first)?;
            emit_links(code, links)
        }
        Core::And(args) => emit_every(code, args),
        Core::Or(args) => emit_some(code, args),
        Core::When(body, hypos) => {
            emit_hypos(code, hypos)?;
            emit_expr(code, body)?;
            put_leaves(code, hypos.len())
        }
        Core::Select(slot, of, body) => {
            emit_expr(code, of)?;
            let start = open_walk(code, *slot)?;
            emit_expr(code, body)?;
            close_gathering(code, *slot, start, Instr::Keep)
        }
        Core::Map(slot, of, body) => {
            emit_expr(code, of)?;
            let start = open_walk(code, *slot)?;
            emit_expr(code, body)?;
            close_gathering(code, *slot, start, Instr::Gather)
        }
        Core::Call(body, args) => emit_operands(code, args, Instr::Call(*body)),
        Core::Host(host, args) => emit_operands(code, args, Instr::Host(*host)),
    }
}

/// Operands from the left, and the instruction that takes them.
#[cycle(expression)]
pub fn emit_operands(
    code: &mut Vec<Instr>,
    args: &Vec<Core>,
    taker: Instr,
) -> Result<(), AllocError>
    ensures { OnOk result (code.new.items ≡ code.old.items ++ (exprs_code (exprs_in args.now.items) (length code.old.items) ++ taker ∷ [])) }
{
    for arg in args {
        emit_expr(code, arg)?;
    }
    put(code, taker)
}

/// The links of a chain: for each its argument and its operation.
#[cycle(expression)]
fn emit_links(code: &mut Vec<Instr>, links: &Vec<Link>) -> Result<(), AllocError>
    ensures { OnOk result (code.new.items ≡ code.old.items ++ links_code (links_in links.now.items) (length code.old.items)) }
{
    for link in links {
        emit_expr(code, &link.arg)?;
        put(code, Instr::Prim(link.op.copy()?, link.at))?;
    }
    Ok(())
}

/// `&&`: false as soon as an operand is false, else the last one.
#[cycle(expression)]
fn emit_every(code: &mut Vec<Instr>, args: &Vec<Core>) -> Result<(), AllocError>
    ensures { OnOk result (code.new.items ≡ code.old.items ++ expr_code (and_all (exprs_in args.now.items)) (length code.old.items)) }
{
    if args.is_empty() {
        return put_false(code);
    }
    let holes = emit_every_front(code, args)?;
    close_every(code, &holes)
}

/// The operands of `&&`, with an Unless behind each but the last, whose addresses are written later.
/// Gives the places of these.
#[cycle(expression)]
fn emit_every_front(code: &mut Vec<Instr>, args: &Vec<Core>) -> Result<Vec<usize>, AllocError>
    ensures code { OnOk result (code.new.items ≡ code.old.items ++ every_front (exprs_in args.now.items) (length code.old.items) 0) }
    ensures holes { IfOk result (λ holes. holes.items ≡ every_holes (exprs_in args.now.items) (length code.old.items)) }
{
    let mut holes = Vec::new(*code.allocator());
    for (i, arg) in args.iter().enumerate() {
        emit_expr(code, arg)?;
        if i + 1 < args.len() {
            note_unless(code, &mut holes)?;
        }
    }
    Ok(holes)
}

/// `||`: true as soon as an operand is true, else the last one.
#[cycle(expression)]
fn emit_some(code: &mut Vec<Instr>, args: &Vec<Core>) -> Result<(), AllocError>
    ensures { OnOk result (code.new.items ≡ code.old.items ++ expr_code (or_any (exprs_in args.now.items)) (length code.old.items)) }
{
    let holes = emit_some_front(code, args)?;
    close_jumps(code, &holes)
}

/// The operands of `||`, with Unless, Push true and Jump behind each but the last; the addresses of the
/// Jumps are written later. Gives the places of these.
#[cycle(expression)]
fn emit_some_front(code: &mut Vec<Instr>, args: &Vec<Core>) -> Result<Vec<usize>, AllocError>
    ensures code { OnOk result (code.new.items ≡ code.old.items ++ some_code (exprs_in args.now.items) (length code.old.items) 0) }
    ensures holes { IfOk result (λ holes. holes.items ≡ some_holes (exprs_in args.now.items) (length code.old.items)) }
{
    let mut holes = Vec::new(*code.allocator());
    for (i, arg) in args.iter().enumerate() {
        emit_expr(code, arg)?;
        if i + 1 < args.len() {
            put_decision(code)?;
            open_jump(code, &mut holes)?;
        }
    }
    Ok(holes)
}

/// The deltas of a `when`, the last one first, each with its Enter.
#[cycle(expression)]
fn emit_hypos(code: &mut Vec<Instr>, hypos: &Vec<Hypo>) -> Result<(), AllocError>
    ensures { OnOk result (code.new.items ≡ code.old.items ++ hypos_code (hypos_in hypos.now.items) (length code.old.items)) }
{
    let mut i = hypos.len();
    while i > 0 {
        i -= 1;
        emit_expr(code, &hypos[i].delta)?;
        put(code, Instr::Enter(hypos[i].at))?;
    }
    Ok(())
}

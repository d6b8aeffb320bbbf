//! The listing of code.

ghost use Rattle.std.specs.Prelude.{◌≡◌, ◌≤◌, ◌<◌, ◌+◌, ◌++◌, length, drop, slice_get, slice_range, codes, [], ◌∷◌, Some, IfOk, OnOk, IsTrue, ◌↔◌};
ghost use Rattle.hera_meaning.specs.Printed.{number_text, inner_text};
ghost use Rattle.hera_code.specs.Listing.{op_text, const_text, instr_text, body_line, instr_line, instr_lines, next_start, bodies_text, listing_of, StartsFrom, IsListable};

use crate::instrs::{BodyInfo, Code, Instr};
use hera_meaning::writing::{put, put_bool, put_int, put_number, put_quoted};
use hera_meaning::{Const, Line, Op, Scalar};
use std::alloc::{AllocError, Global};

/// The listing of code: for each body a line with its number, parameters and slots, then for each of its
/// instructions a line with its address and its text.
pub fn listing(alloc: Global, code: &Code) -> Result<Line, AllocError>
    requires { IsListable code.now }
    ensures { IfOk result (λ line. line ≡ listing_of code.now) }
{
    let mut out = Vec::new(alloc);
    let bodies = code.bodies.as_slice();
    for (k, body) in bodies.iter().enumerate() {
        put_head(&mut out, k, *body)?;
        put_lines(&mut out, code, body.at as usize, end_of(code, k))?;
    }
    Ok(Line::new(out))
}

/// Whether code can be listed: it has a body, and the starts of its bodies ascend strictly from 0 and are
/// addresses of it.
pub fn is_listable(code: &Code) -> bool
    ensures { IsTrue result ↔ IsListable code.now }
{
    match code.bodies.get(0) {
        Some(main) => main.at == 0 && starts_ascend(code.bodies.as_slice(), code.instrs.len()),
        None => false,
    }
}

/// Whether the starts ascend strictly and are addresses of code of this length.
fn starts_ascend(bodies: &[BodyInfo], end: usize) -> bool
    ensures { IsTrue result ↔ StartsFrom 0 bodies.now end }
{
    let mut least = 0;
    for body in bodies {
        let at = body.at as usize;
        if at < least || at >= end {
            return false;
        }
        least = at + 1;
    }
    true
}

/// The address behind the instructions of body k.
#[tactic(auto, using(crate::proofs::Starts::next_start_at, crate::proofs::Starts::next_start_past))]
fn end_of(code: &Code, k: usize) -> usize
    requires { k < length code.now.bodies }
    ensures { result ≡ next_start (drop (k + 1) code.now.bodies) (length code.now.instrs) }
{
    let bodies = code.bodies.as_slice();
    match bodies.get(k + 1) {
        Some(next) => next.at as usize,
        None => code.instrs.len(),
    }
}

/// A word and a number.
fn put_with(out: &mut Vec<u8>, word: &[u8], n: u32) -> Result<(), AllocError>
    ensures { OnOk result (out.new.items ≡ out.old.items ++ (word.now ++ number_text n)) }
{
    put(out, word)?;
    put_number(out, u128::from(n))
}

fn put_scalar(out: &mut Vec<u8>, scalar: &Scalar) -> Result<(), AllocError>
    ensures { OnOk result (out.new.items ≡ out.old.items ++ inner_text scalar.now) }
{
    match scalar {
        Scalar::Int(v) => put_int(out, *v),
        Scalar::Bool(b) => put_bool(out, *b),
        Scalar::Text(text) => put_quoted(out, text.bytes()),
    }
}

fn put_const(out: &mut Vec<u8>, constant: &Const) -> Result<(), AllocError>
    ensures { OnOk result (out.new.items ≡ out.old.items ++ const_text constant.now) }
{
    match constant {
        Const::Scalar(scalar) => put_scalar(out, scalar),
        Const::EmptyDelta => put(out, b"{}"),
        Const::FailDelta => put(out, b"fail"),
    }
}

/// The name of an operation.
fn op_word(op: &Op) -> &'static str
    ensures { result.now ≡ op_text op.now }
{
    match op {
        Op::Neg => "neg",
        Op::Not => "not",
        Op::Add => "add",
        Op::Sub => "sub",
        Op::Mul => "mul",
        Op::Div => "div",
        Op::Rem => "rem",
        Op::Eq => "eq",
        Op::Ne => "ne",
        Op::Lt => "lt",
        Op::Le => "le",
        Op::Gt => "gt",
        Op::Ge => "ge",
        Op::In => "in",
        Op::Field(_, _) => "field",
        Op::MakeRow(_) => "makerow",
        Op::MakeRel(_) => "makerel",
        Op::Project(_, _) => "project",
        Op::Union => "union",
        Op::Minus => "minus",
        Op::Inter => "inter",
        Op::Join(_, _) => "join",
        Op::Group(_, _, _) => "group",
        Op::Count => "count",
        Op::Empty => "empty",
        Op::Sum(_, _) => "sum",
        Op::Min(_, _) => "min",
        Op::Max(_, _) => "max",
        Op::Atom(_, _) => "atom",
        Op::Bulk(_, _) => "bulk",
        Op::Ins(_) => "ins",
        Op::Del(_) => "del",
        Op::IsFail => "isfail",
        Op::Smash => "smash",
        Op::Merge => "merge",
    }
}

fn put_prim(out: &mut Vec<u8>, op: &Op, at: u32) -> Result<(), AllocError>
    ensures { OnOk result (out.new.items ≡ out.old.items ++ (codes "prim " ++ op_text op.now ++ codes " at " ++ number_text at)) }
{
    put(out, b"prim ")?;
    put(out, op_word(op).as_bytes())?;
    put_with(out, b" at ", at)
}

fn put_next(out: &mut Vec<u8>, slot: u32, address: u32) -> Result<(), AllocError>
    ensures { OnOk result (out.new.items ≡ out.old.items ++ (codes "next " ++ number_text slot ++ codes " " ++ number_text address)) }
{
    put_with(out, b"next ", slot)?;
    put_with(out, b" ", address)
}

fn put_push(out: &mut Vec<u8>, constant: &Const) -> Result<(), AllocError>
    ensures { OnOk result (out.new.items ≡ out.old.items ++ (codes "push " ++ const_text constant.now)) }
{
    put(out, b"push ")?;
    put_const(out, constant)
}

/// The text of an instruction.
fn put_instr(out: &mut Vec<u8>, instr: &Instr) -> Result<(), AllocError>
    ensures { OnOk result (out.new.items ≡ out.old.items ++ instr_text instr.now) }
{
    match instr {
        Instr::Push(constant) => put_push(out, constant),
        Instr::Load(slot) => put_with(out, b"load ", *slot),
        Instr::Store(slot) => put_with(out, b"store ", *slot),
        Instr::Rel(rel) => put_with(out, b"rel ", u32::from(rel.0)),
        Instr::Prim(op, at) => put_prim(out, op, *at),
        Instr::Host(host) => put_with(out, b"host ", *host),
        Instr::Jump(address) => put_with(out, b"jump ", *address),
        Instr::Unless(address) => put_with(out, b"unless ", *address),
        Instr::Back(address) => put_with(out, b"back ", *address),
        Instr::Enter(at) => put_with(out, b"enter at ", *at),
        Instr::Leave => put(out, b"leave"),
        Instr::Walk => put(out, b"walk"),
        Instr::Next(slot, address) => put_next(out, *slot, *address),
        Instr::Keep => put(out, b"keep"),
        Instr::Gather => put(out, b"gather"),
        Instr::Yield => put(out, b"yield"),
        Instr::Drop => put(out, b"drop"),
        Instr::Call(body) => put_with(out, b"call ", *body),
        Instr::Ret => put(out, b"ret"),
        Instr::RetVal => put(out, b"retval"),
        Instr::Print(_) => put(out, b"print"),
        Instr::Apply(at) => put_with(out, b"apply at ", *at),
        Instr::Commit => put(out, b"commit"),
        Instr::Rollback => put(out, b"rollback"),
        Instr::Assert(at) => put_with(out, b"assert at ", *at),
        Instr::Halt => put(out, b"halt"),
    }
}

/// The line of an instruction.
fn put_line(out: &mut Vec<u8>, at: usize, instr: &Instr) -> Result<(), AllocError>
    ensures { OnOk result (out.new.items ≡ out.old.items ++ instr_line at instr.now) }
{
    put_number(out, at as u128)?;
    put(out, b" ")?;
    put_instr(out, instr)?;
    put(out, b"\n")
}

/// The lines of the instructions from an address up to another.
fn put_lines(out: &mut Vec<u8>, code: &Code, start: usize, end: usize) -> Result<(), AllocError>
    requires start { start ≤ end }
    requires end { end ≤ length code.now.instrs }
    ensures { OnOk result (out.new.items ≡ out.old.items ++ instr_lines start (slice_range code.now.instrs start end)) }
{
    for at in start..end {
        put_line(out, at, code.instrs.at(at))?;
    }
    Ok(())
}

/// The line of a body.
fn put_head(out: &mut Vec<u8>, k: usize, body: BodyInfo) -> Result<(), AllocError>
    ensures { OnOk result (out.new.items ≡ out.old.items ++ body_line k body) }
{
    put(out, b"body ")?;
    put_number(out, k as u128)?;
    put_with(out, b" params ", body.params)?;
    put_with(out, b" slots ", body.slots)?;
    put(out, b"\n")
}

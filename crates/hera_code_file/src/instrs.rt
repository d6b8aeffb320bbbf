//! Instructions, read by their numbers.
ghost use Rattle.std.specs.Prelude.{◌≡◌, ◌≤◌, ◌<◌, [], ℕ, List, Ok};
ghost use Rattle.hera_code_file.specs.Reading.{Gives, at_place, many, instr_readers, instr_at, instrs_at};

use crate::fields::{relation_id, small, word};
use crate::ops::op;
use crate::parts::{constant, shape};
use crate::stop::Stop;
use hera_code::{Instr, Instrs};
use std::alloc::Global;

/// A constant to push.
fn push(alloc: Global, bytes: &[u8]) -> Result<(Instr, &[u8]), Stop>
    ensures { Gives (λ x. (x.0, x.1.now)) result (at_place instr_readers 0 bytes.now) }
{
    let (constant, rest) = constant(alloc, bytes)?;
    Ok((Instr::Push(constant), rest))
}

/// A slot to load or store.
fn slot_instr(bytes: &[u8], number: u8) -> Result<(Instr, &[u8]), Stop>
    requires least { 1 ≤ number }
    requires below { number < 3 }
    ensures { Gives (λ x. (x.0, x.1.now)) result (at_place instr_readers number bytes.now) }
{
    let (slot, rest) = word(bytes)?;
    match number {
        1 => Ok((Instr::Load(slot), rest)),
        _ => Ok((Instr::Store(slot), rest)),
    }
}

/// A relation to push.
fn rel(bytes: &[u8]) -> Result<(Instr, &[u8]), Stop>
    ensures { Gives (λ x. (x.0, x.1.now)) result (at_place instr_readers 3 bytes.now) }
{
    let (rel, rest) = relation_id(bytes)?;
    Ok((Instr::Rel(rel), rest))
}

/// An operation, and where it stands in the script.
fn prim(alloc: Global, bytes: &[u8]) -> Result<(Instr, &[u8]), Stop>
    ensures { Gives (λ x. (x.0, x.1.now)) result (at_place instr_readers 4 bytes.now) }
{
    let (op, rest) = op(alloc, bytes)?;
    let (at, rest) = word(rest)?;
    Ok((Instr::Prim(op, at), rest))
}

/// What works on operands.
fn operand_instr(alloc: Global, bytes: &[u8], number: u8) -> Result<(Instr, &[u8]), Stop>
    requires { number < 5 }
    ensures { Gives (λ x. (x.0, x.1.now)) result (at_place instr_readers number bytes.now) }
{
    match number {
        0 => push(alloc, bytes),
        1 => slot_instr(bytes, number),
        2 => slot_instr(bytes, number),
        3 => rel(bytes),
        _ => prim(alloc, bytes),
    }
}

/// A host, an address to go to, or a layer to enter: a number each.
fn address_instr(bytes: &[u8], number: u8) -> Result<(Instr, &[u8]), Stop>
    requires least { 5 ≤ number }
    requires below { number < 10 }
    ensures { Gives (λ x. (x.0, x.1.now)) result (at_place instr_readers number bytes.now) }
{
    let (n, rest) = word(bytes)?;
    match number {
        5 => Ok((Instr::Host(n), rest)),
        6 => Ok((Instr::Jump(n), rest)),
        7 => Ok((Instr::Unless(n), rest)),
        8 => Ok((Instr::Back(n), rest)),
        _ => Ok((Instr::Enter(n), rest)),
    }
}

/// A slot for the next tuple, and where to go behind the last one.
fn next(bytes: &[u8]) -> Result<(Instr, &[u8]), Stop>
    ensures { Gives (λ x. (x.0, x.1.now)) result (at_place instr_readers 12 bytes.now) }
{
    let (slot, rest) = word(bytes)?;
    let (address, rest) = word(rest)?;
    Ok((Instr::Next(slot, address), rest))
}

/// What works on layers and walks.
fn walk_instr(bytes: &[u8], number: u8) -> Result<(Instr, &[u8]), Stop>
    requires least { 10 ≤ number }
    requires below { number < 17 }
    ensures { Gives (λ x. (x.0, x.1.now)) result (at_place instr_readers number bytes.now) }
{
    match number {
        10 => Ok((Instr::Leave, bytes)),
        11 => Ok((Instr::Walk, bytes)),
        12 => next(bytes),
        13 => Ok((Instr::Keep, bytes)),
        14 => Ok((Instr::Gather, bytes)),
        15 => Ok((Instr::Yield, bytes)),
        _ => Ok((Instr::Drop, bytes)),
    }
}

/// A body to call.
fn call(bytes: &[u8]) -> Result<(Instr, &[u8]), Stop>
    ensures { Gives (λ x. (x.0, x.1.now)) result (at_place instr_readers 17 bytes.now) }
{
    let (body, rest) = word(bytes)?;
    Ok((Instr::Call(body), rest))
}

/// What is printed.
fn print(alloc: Global, bytes: &[u8]) -> Result<(Instr, &[u8]), Stop>
    ensures { Gives (λ x. (x.0, x.1.now)) result (at_place instr_readers 20 bytes.now) }
{
    let (shape, rest) = shape(alloc, bytes)?;
    Ok((Instr::Print(shape), rest))
}

/// A delta to apply.
fn apply(bytes: &[u8]) -> Result<(Instr, &[u8]), Stop>
    ensures { Gives (λ x. (x.0, x.1.now)) result (at_place instr_readers 21 bytes.now) }
{
    let (at, rest) = word(bytes)?;
    Ok((Instr::Apply(at), rest))
}

/// A bool to assert.
fn assertion(bytes: &[u8]) -> Result<(Instr, &[u8]), Stop>
    ensures { Gives (λ x. (x.0, x.1.now)) result (at_place instr_readers 24 bytes.now) }
{
    let (at, rest) = word(bytes)?;
    Ok((Instr::Assert(at), rest))
}

/// What calls, returns, prints and commits.
fn outer_instr(alloc: Global, bytes: &[u8], number: u8) -> Result<(Instr, &[u8]), Stop>
    requires least { 17 ≤ number }
    requires below { number < 26 }
    ensures { Gives (λ x. (x.0, x.1.now)) result (at_place instr_readers number bytes.now) }
{
    match number {
        17 => call(bytes),
        18 => Ok((Instr::Ret, bytes)),
        19 => Ok((Instr::RetVal, bytes)),
        20 => print(alloc, bytes),
        21 => apply(bytes),
        22 => Ok((Instr::Commit, bytes)),
        23 => Ok((Instr::Rollback, bytes)),
        24 => assertion(bytes),
        _ => Ok((Instr::Halt, bytes)),
    }
}

/// An instruction: its number, and its parts.
#[tactic(auto, unfolding(crate::specs::Reading::instr_at))]
fn instr(alloc: Global, bytes: &[u8]) -> Result<(Instr, &[u8]), Stop>
    ensures { Gives (λ x. (x.0, x.1.now)) result (instr_at bytes.now) }
{
    let (number, rest) = small(bytes, 26)?;
    if number < 5 {
        return operand_instr(alloc, rest, number);
    }
    if number < 10 {
        return address_instr(rest, number);
    }
    if number < 17 {
        return walk_instr(rest, number);
    }
    outer_instr(alloc, rest, number)
}

/// So many instructions.
fn some_instrs(alloc: Global, bytes: &[u8], count: u32) -> Result<(Instrs, &[u8]), Stop>
    ensures { Gives (λ x. (x.0, x.1.now)) result (many (λ before. instr_at) count [] bytes.now) }
{
    let mut instrs = Instrs::new(Vec::new(alloc));
    let mut rest = bytes;
    for _ in 0..count {
        let (instr, behind) = instr(alloc, rest)?;
        instrs.push(instr)?;
        rest = behind;
    }
    Ok((instrs, rest))
}

/// Instructions: how many there are, and each.
#[tactic(auto, unfolding(crate::specs::Reading::instrs_at))]
pub(crate) fn instrs(alloc: Global, bytes: &[u8]) -> Result<(Instrs, &[u8]), Stop>
    ensures { Gives (λ x. (x.0, x.1.now)) result (instrs_at bytes.now) }
{
    let (count, rest) = word(bytes)?;
    some_instrs(alloc, rest, count)
}

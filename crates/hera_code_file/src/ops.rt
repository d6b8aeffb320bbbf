//! Operations, read by their numbers.
ghost use Rattle.std.specs.Prelude.{◌≡◌, ◌≤◌, ◌<◌, ℕ, List, Ok};
ghost use Rattle.hera_code_file.specs.Reading.{Gives, at_place, op_readers, op_at};

use crate::fields::{relation_id, sign, small, word};
use crate::parts::{aggs, places};
use crate::schemas::schema;
use crate::stop::Stop;
use hera_meaning::Op;
use std::alloc::Global;

/// The operation on ints or bools of a number.
fn arithmetic(number: u8) -> Op
    requires { number < 7 }
    ensures { (bytes : List ℕ) → at_place op_readers number bytes ≡ Ok (result, bytes) }
{
    match number {
        0 => Op::Neg,
        1 => Op::Not,
        2 => Op::Add,
        3 => Op::Sub,
        4 => Op::Mul,
        5 => Op::Div,
        _ => Op::Rem,
    }
}

/// The comparison of a number.
fn comparison(number: u8) -> Op
    requires least { 7 ≤ number }
    requires below { number < 14 }
    ensures { (bytes : List ℕ) → at_place op_readers number bytes ≡ Ok (result, bytes) }
{
    match number {
        7 => Op::Eq,
        8 => Op::Ne,
        9 => Op::Lt,
        10 => Op::Le,
        11 => Op::Gt,
        12 => Op::Ge,
        _ => Op::In,
    }
}

/// The sum of a field.
fn sum(alloc: Global, bytes: &[u8]) -> Result<(Op, &[u8]), Stop>
    ensures { Gives (λ x. (x.0, x.1.now)) result (at_place op_readers 25 bytes.now) }
{
    let (schema, rest) = schema(alloc, bytes)?;
    let (place, rest) = word(rest)?;
    Ok((Op::Sum(schema, place as usize), rest))
}

/// The least of a field.
fn least(alloc: Global, bytes: &[u8]) -> Result<(Op, &[u8]), Stop>
    ensures { Gives (λ x. (x.0, x.1.now)) result (at_place op_readers 26 bytes.now) }
{
    let (schema, rest) = schema(alloc, bytes)?;
    let (place, rest) = word(rest)?;
    Ok((Op::Min(schema, place as usize), rest))
}

/// The greatest of a field.
fn greatest(alloc: Global, bytes: &[u8]) -> Result<(Op, &[u8]), Stop>
    ensures { Gives (λ x. (x.0, x.1.now)) result (at_place op_readers 27 bytes.now) }
{
    let (schema, rest) = schema(alloc, bytes)?;
    let (place, rest) = word(rest)?;
    Ok((Op::Max(schema, place as usize), rest))
}

/// What is found of a field of a set of tuples.
fn field_op(alloc: Global, bytes: &[u8], number: u8) -> Result<(Op, &[u8]), Stop>
    requires least { 25 ≤ number }
    requires below { number < 28 }
    ensures { Gives (λ x. (x.0, x.1.now)) result (at_place op_readers number bytes.now) }
{
    match number {
        25 => sum(alloc, bytes),
        26 => least(alloc, bytes),
        _ => greatest(alloc, bytes),
    }
}

/// A field of a tuple.
fn tuple_field(alloc: Global, bytes: &[u8]) -> Result<(Op, &[u8]), Stop>
    ensures { Gives (λ x. (x.0, x.1.now)) result (at_place op_readers 14 bytes.now) }
{
    let (schema, rest) = schema(alloc, bytes)?;
    let (place, rest) = word(rest)?;
    Ok((Op::Field(schema, place as usize), rest))
}

/// A tuple.
fn make_row(alloc: Global, bytes: &[u8]) -> Result<(Op, &[u8]), Stop>
    ensures { Gives (λ x. (x.0, x.1.now)) result (at_place op_readers 15 bytes.now) }
{
    let (schema, rest) = schema(alloc, bytes)?;
    Ok((Op::MakeRow(schema), rest))
}

/// A set of so many tuples.
fn make_rel(bytes: &[u8]) -> Result<(Op, &[u8]), Stop>
    ensures { Gives (λ x. (x.0, x.1.now)) result (at_place op_readers 16 bytes.now) }
{
    let (n, rest) = word(bytes)?;
    Ok((Op::MakeRel(n), rest))
}

/// A projection.
fn project(alloc: Global, bytes: &[u8]) -> Result<(Op, &[u8]), Stop>
    ensures { Gives (λ x. (x.0, x.1.now)) result (at_place op_readers 17 bytes.now) }
{
    let (schema, rest) = schema(alloc, bytes)?;
    let (places, rest) = places(alloc, rest)?;
    Ok((Op::Project(schema, places), rest))
}

/// What is made of tuples.
fn tuple_op(alloc: Global, bytes: &[u8], number: u8) -> Result<(Op, &[u8]), Stop>
    requires least { 14 ≤ number }
    requires below { number < 18 }
    ensures { Gives (λ x. (x.0, x.1.now)) result (at_place op_readers number bytes.now) }
{
    match number {
        14 => tuple_field(alloc, bytes),
        15 => make_row(alloc, bytes),
        16 => make_rel(bytes),
        _ => project(alloc, bytes),
    }
}

/// The operation on two sets of a number.
fn set_op(number: u8) -> Op
    requires least { 18 ≤ number }
    requires below { number < 21 }
    ensures { (bytes : List ℕ) → at_place op_readers number bytes ≡ Ok (result, bytes) }
{
    match number {
        18 => Op::Union,
        19 => Op::Minus,
        _ => Op::Inter,
    }
}

/// A join.
fn join(alloc: Global, bytes: &[u8]) -> Result<(Op, &[u8]), Stop>
    ensures { Gives (λ x. (x.0, x.1.now)) result (at_place op_readers 21 bytes.now) }
{
    let (left, rest) = schema(alloc, bytes)?;
    let (right, rest) = schema(alloc, rest)?;
    Ok((Op::Join(left, right), rest))
}

/// A group.
fn group(alloc: Global, bytes: &[u8]) -> Result<(Op, &[u8]), Stop>
    ensures { Gives (λ x. (x.0, x.1.now)) result (at_place op_readers 22 bytes.now) }
{
    let (schema, rest) = schema(alloc, bytes)?;
    let (by, rest) = places(alloc, rest)?;
    let (aggs, rest) = aggs(alloc, rest)?;
    Ok((Op::Group(schema, by, aggs), rest))
}

/// A join or a group.
fn wide_op(alloc: Global, bytes: &[u8], number: u8) -> Result<(Op, &[u8]), Stop>
    requires least { 21 ≤ number }
    requires below { number < 23 }
    ensures { Gives (λ x. (x.0, x.1.now)) result (at_place op_readers number bytes.now) }
{
    match number {
        21 => join(alloc, bytes),
        _ => group(alloc, bytes),
    }
}

/// The question to a set of a number.
fn size_op(number: u8) -> Op
    requires least { 23 ≤ number }
    requires below { number < 25 }
    ensures { (bytes : List ℕ) → at_place op_readers number bytes ≡ Ok (result, bytes) }
{
    match number {
        23 => Op::Count,
        _ => Op::Empty,
    }
}

/// The delta of a tuple.
fn atom(bytes: &[u8]) -> Result<(Op, &[u8]), Stop>
    ensures { Gives (λ x. (x.0, x.1.now)) result (at_place op_readers 28 bytes.now) }
{
    let (sign, rest) = sign(bytes)?;
    let (rel, rest) = relation_id(rest)?;
    Ok((Op::Atom(sign, rel), rest))
}

/// The delta of all tuples of a set.
fn bulk(bytes: &[u8]) -> Result<(Op, &[u8]), Stop>
    ensures { Gives (λ x. (x.0, x.1.now)) result (at_place op_readers 29 bytes.now) }
{
    let (sign, rest) = sign(bytes)?;
    let (rel, rest) = relation_id(rest)?;
    Ok((Op::Bulk(sign, rel), rest))
}

/// The tuples that a delta adds.
fn added(bytes: &[u8]) -> Result<(Op, &[u8]), Stop>
    ensures { Gives (λ x. (x.0, x.1.now)) result (at_place op_readers 30 bytes.now) }
{
    let (rel, rest) = relation_id(bytes)?;
    Ok((Op::Ins(rel), rest))
}

/// The tuples that a delta takes away.
fn removed(bytes: &[u8]) -> Result<(Op, &[u8]), Stop>
    ensures { Gives (λ x. (x.0, x.1.now)) result (at_place op_readers 31 bytes.now) }
{
    let (rel, rest) = relation_id(bytes)?;
    Ok((Op::Del(rel), rest))
}

/// What is made of tuples and relations.
fn atoms_op(bytes: &[u8], number: u8) -> Result<(Op, &[u8]), Stop>
    requires least { 28 ≤ number }
    requires below { number < 32 }
    ensures { Gives (λ x. (x.0, x.1.now)) result (at_place op_readers number bytes.now) }
{
    match number {
        28 => atom(bytes),
        29 => bulk(bytes),
        30 => added(bytes),
        _ => removed(bytes),
    }
}

/// The operation on deltas of a number.
fn delta_op(number: u8) -> Op
    requires least { 32 ≤ number }
    requires below { number < 35 }
    ensures { (bytes : List ℕ) → at_place op_readers number bytes ≡ Ok (result, bytes) }
{
    match number {
        32 => Op::IsFail,
        33 => Op::Smash,
        _ => Op::Merge,
    }
}

/// The operation of a number below 25.
fn early_op(alloc: Global, bytes: &[u8], number: u8) -> Result<(Op, &[u8]), Stop>
    requires { number < 25 }
    ensures { Gives (λ x. (x.0, x.1.now)) result (at_place op_readers number bytes.now) }
{
    if number < 7 {
        return Ok((arithmetic(number), bytes));
    }
    if number < 14 {
        return Ok((comparison(number), bytes));
    }
    if number < 18 {
        return tuple_op(alloc, bytes, number);
    }
    if number < 21 {
        return Ok((set_op(number), bytes));
    }
    if number < 23 {
        return wide_op(alloc, bytes, number);
    }
    Ok((size_op(number), bytes))
}

/// An operation: its number, and its parts.
#[tactic(auto, unfolding(crate::specs::Reading::op_at))]
pub(crate) fn op(alloc: Global, bytes: &[u8]) -> Result<(Op, &[u8]), Stop>
    ensures { Gives (λ x. (x.0, x.1.now)) result (op_at bytes.now) }
{
    let (number, rest) = small(bytes, 35)?;
    if number < 25 {
        return early_op(alloc, rest, number);
    }
    if number < 28 {
        return field_op(alloc, rest, number);
    }
    if number < 32 {
        return atoms_op(rest, number);
    }
    Ok((delta_op(number), rest))
}

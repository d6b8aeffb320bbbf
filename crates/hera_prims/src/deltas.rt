//! Deltas.
ghost use Rattle.std.specs.Prelude.{◌≡◌, IfOk};
ghost use Rattle.hera_meaning.specs.Deltas.{smash_of, merge_of};
ghost use Rattle.hera_meaning.specs.Values.{delta_in, operand};
ghost use Rattle.hera_meaning.specs.Primitives.{given};
ghost use Rattle.delta_atoms.specs.Plain.{value_of};
ghost use Rattle.hera_prims.specs.Answered.{IsAnswer};

use crate::PrimEnd;
use delta_atoms::{Delta, Value};
use hera_fits::{Args, is_fail_at, row_at, truth};
use hera_meaning::{Op, RelId, Sign};
use smash_merge::{merge_into, smash_into, smash_under};
use std::alloc::{AllocError, Global};

/// The delta of one atom.
pub(crate) fn atom(alloc: Global, sign: Sign, rel: RelId, args: &Args) -> Result<Value, PrimEnd>
    ensures { IsAnswer result (given (Op.Atom sign rel) args.now) }
{
    let delta = Delta::atom(alloc, sign, rel, row_at(args, 0))?;
    Ok(Value::Delta(delta))
}

/// Whether the delta is `fail`.
pub(crate) fn is_fail(args: &Args) -> Result<Value, PrimEnd>
    ensures { IsAnswer result (given Op.IsFail args.now) }
{
    Ok(truth(is_fail_at(args, 0)))
}

/// The delta, `fail` where the value is none.
fn into_delta(alloc: Global, v: Value) -> Delta
    ensures { result ≡ delta_in (value_of v) }
{
    match v {
        Value::Delta(delta) => delta,
        Value::Scalar(_) => Delta::fail(alloc),
        Value::Row(_) => Delta::fail(alloc),
        Value::Rel(_) => Delta::fail(alloc),
    }
}

/// Takes the first operand off as a delta, `fail` where it is none or is not there.
#[tactic(auto, using(hera_fits::proofs::Operands::fronts))]
fn take_delta(alloc: Global, args: &mut Args) -> Delta
    ensures first { result ≡ delta_in (operand args.old 0) }
    ensures next { operand args.new 0 ≡ operand args.old 1 }
{
    match args.pop_front() {
        None => Delta::fail(alloc),
        Some(v) => into_delta(alloc, v),
    }
}

/// Whether the first delta has fewer atoms than the second, where none is `fail`.
fn is_smaller(a: &Delta, b: &Delta) -> bool {
    !a.is_fail() && !b.is_fail() && a.count() < b.count()
}

/// The smash of two deltas: the atoms of the smaller one are put into the larger one.
fn smashed(mut first: Delta, mut second: Delta) -> Result<Delta, AllocError>
    ensures { IfOk result (λ both. both ≡ smash_of first second) }
{
    if is_smaller(&first, &second) {
        smash_under(&mut second, &first)?;
        Ok(second)
    } else {
        smash_into(&mut first, &second)?;
        Ok(first)
    }
}

/// The merge of two deltas: the atoms of the smaller one are put into the larger one.
fn merged(mut first: Delta, mut second: Delta) -> Result<Delta, AllocError>
    ensures { IfOk result (λ both. both ≡ merge_of first second) }
{
    if is_smaller(&first, &second) {
        merge_into(&mut second, &first)?;
        Ok(second)
    } else {
        merge_into(&mut first, &second)?;
        Ok(first)
    }
}

/// The smash of two deltas.
pub(crate) fn smash(alloc: Global, mut args: Args) -> Result<Value, PrimEnd>
    ensures { IsAnswer result (given Op.Smash args) }
{
    let first = take_delta(alloc, &mut args);
    let second = take_delta(alloc, &mut args);
    Ok(Value::Delta(smashed(first, second)?))
}

/// The merge of two deltas.
pub(crate) fn merge(alloc: Global, mut args: Args) -> Result<Value, PrimEnd>
    ensures { IsAnswer result (given Op.Merge args) }
{
    let first = take_delta(alloc, &mut args);
    let second = take_delta(alloc, &mut args);
    Ok(Value::Delta(merged(first, second)?))
}

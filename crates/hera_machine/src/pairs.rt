//! Two instructions at once, of which the first puts an operand up that the second takes off again: it is not put
//! up. A jump by what they give may be a third one. Where a function here does not answer true, nothing has changed,
//! and the first is done as any other.
ghost use Rattle.std.specs.Prelude.{◌≡◌, ◌+◌, ◌<◌, ◌^◌, ℕ, List, [], Some, true, false, length, slice_get};
ghost use Rattle.hera_meaning.specs.Deltas.{State};
ghost use Rattle.hera_meaning.specs.Hosts.{Hosts};
ghost use Rattle.hera_meaning.specs.Values.{int_value};
ghost use Rattle.hera_meaning.specs.declared.schemas.RelDecl.{RelDecl as PlainDecl};
ghost use Rattle.hera_meaning.specs.declared.scalars.Scalar.TheVariants.{Int as int_scalar};
ghost use Rattle.hera_meaning.specs.declared.trees.Const.TheVariants.{Scalar as scalar_const};
ghost use Rattle.hera_code.specs.Machine.{quiet};
ghost use Rattle.hera_values.specs.Little.{slot_in};
ghost use Rattle.hera_machine.specs.Pairs.{with_value, behind, parted_by};
ghost use Rattle.hera_machine.specs.Standing.{GoesOn};
ghost use Rattle.hera_steps.specs.Working.{machine_at};

use crate::loads::go_on_with;
use hera_code::{Code, Instr};
use hera_flat::{Flat, flat_two};
use hera_meaning::{Const, Op, Scalar, Schema};
use hera_steps::Running;

/// Loads a tuple and takes one of its fields, where that is an int or a bool.
#[inline]
fn loaded_field(
    work: &mut Running<'_>,
    code: &Code,
    i: u32,
    schema: &Schema,
    field: usize,
    at: u32,
) -> bool
    requires here { slice_get code.now.instrs work.old.at ≡ Some (Instr.Load i) }
    requires next { slice_get code.now.instrs (work.old.at + 1) ≡ Some (Instr.Prim (Op.Field schema.now field) at) }
    ensures goes { (rels : List PlainDecl) → (hosts : Hosts) → (s : State) → result ≡ true → GoesOn 1 code.now rels hosts s (machine_at s work.old) (machine_at s work.new) }
    ensures kept { result ≡ false → work.new ≡ work.old }
    ensures layers { work.new.layers ≡ work.old.layers }
    ensures relations { work.new.relations ≡ work.old.relations }
{
    // for the proof alone: addresses of code are below 2^64 - 1, and the offset is the instruction's
    let _len = code.instrs.len();
    let _at = at;
    match work.locals.field_at(i as usize, schema, field) {
        None => false,
        Some(v) => go_on_with(work, code, 2, v),
    }
}

/// Loads an int.
#[inline]
fn loaded_int(work: &mut Running<'_>, code: &Code, i: u32) -> bool
    requires { slice_get code.now.instrs work.old.at ≡ Some (Instr.Load i) }
    ensures goes { (rels : List PlainDecl) → (hosts : Hosts) → (s : State) → result ≡ true → GoesOn 1 code.now rels hosts s (machine_at s work.old) (machine_at s work.new) }
    ensures kept { result ≡ false → work.new ≡ work.old }
    ensures layers { work.new.layers ≡ work.old.layers }
    ensures relations { work.new.relations ≡ work.old.relations }
{
    // for the proof alone: addresses of code are below 2^64 - 1
    let _len = code.instrs.len();
    match work.locals.int_at(i as usize) {
        None => false,
        Some(n) => go_on_with(work, code, 1, Flat::Int(n)),
    }
}

/// Loads a relation and tells whether the newest operand, a tuple, is one of its rows. None of them is copied.
#[inline]
fn loaded_asked(work: &mut Running<'_>, i: u32) -> bool
    requires { work.old.at + 2 < 2 ^ 64 }
    ensures there { result ≡ true → slice_get work.old.locals i ≡ Some (slot_in (slice_get work.old.locals i)) }
    ensures done { (s : State) → (place : ℕ) → result ≡ true → quiet (machine_at s work.new) ≡ with_value place Op.In (slot_in (slice_get work.old.locals i)) (machine_at s work.old) }
    ensures kept { result ≡ false → work.new ≡ work.old }
    ensures layers { work.new.layers ≡ work.old.layers }
    ensures relations { work.new.relations ≡ work.old.relations }
{
    let Some(rows) = work.locals.rows_at(i as usize) else {
        return false;
    };
    let Some(found) = work.operands.newest_is_in(rows) else {
        return false;
    };
    work.operands.replace_tuple(Flat::Bool(found));
    work.at += 2;
    true
}

/// Pushes an int and does an operation on it and the newest operand, where that is an int or a bool.
#[inline]
fn computed_with(work: &mut Running<'_>, n: i64, op: &Op) -> bool
    requires { work.old.at + 2 < 2 ^ 64 }
    ensures done { (s : State) → (place : ℕ) → result ≡ true → quiet (machine_at s work.new) ≡ with_value place op.now (int_value n) (machine_at s work.old) }
    ensures kept { result ≡ false → work.new ≡ work.old }
    ensures layers { work.new.layers ≡ work.old.layers }
    ensures relations { work.new.relations ≡ work.old.relations }
{
    let Some(first) = work.operands.newest_int() else {
        return false;
    };
    let Some(v) = flat_two(op, Flat::Int(first), Flat::Int(n)) else {
        return false;
    };
    work.operands.replace_newest(v);
    work.at += 2;
    true
}

/// Pushes an int, does an operation on the newest operand, which is an int, and this one, and jumps by the bool that it
/// gives.
#[inline]
fn parted_with(work: &mut Running<'_>, code: &Code, n: i64, op: &Op, a: u32) -> bool
    requires { work.old.at + 3 < 2 ^ 64 }
    ensures done { (s : State) → (place : ℕ) → result ≡ true → quiet (machine_at s work.new) ≡ behind (parted_by code.now a) (with_value place op.now (int_value n) (machine_at s work.old)) }
    ensures kept { result ≡ false → work.new ≡ work.old }
    ensures layers { work.new.layers ≡ work.old.layers }
    ensures relations { work.new.relations ≡ work.old.relations }
{
    let Some(first) = work.operands.newest_int() else {
        return false;
    };
    let Some(Flat::Bool(b)) = flat_two(op, Flat::Int(first), Flat::Int(n)) else {
        return false;
    };
    if (a as usize) >= code.instrs.len() {
        return false;
    }
    work.operands.drop_newest();
    if b {
        work.at += 3;
    } else {
        work.at = a as usize;
    }
    true
}

/// Loads the slot of this number, where the instruction at hand says so, and takes the field of its tuple that the
/// next one names, or asks its relation for the newest operand, or goes on with the int that is pushed, where the next one
/// says that.
#[inline]
fn loaded_next(work: &mut Running<'_>, code: &Code, i: u32) -> bool
    requires { slice_get code.now.instrs work.old.at ≡ Some (Instr.Load i) }
    ensures goes { (rels : List PlainDecl) → (hosts : Hosts) → (s : State) → result ≡ true → GoesOn 1 code.now rels hosts s (machine_at s work.old) (machine_at s work.new) }
    ensures kept { result ≡ false → work.new ≡ work.old }
    ensures layers { work.new.layers ≡ work.old.layers }
    ensures relations { work.new.relations ≡ work.old.relations }
{
    // for the proof alone: addresses of code are below 2^64 - 1
    let _len = code.instrs.len();
    match code.instrs.near(work.at + 1) {
        Some(Instr::Prim(Op::Field(schema, field), at)) => {
            loaded_field(work, code, i, schema, *field, *at)
        }
        Some(Instr::Prim(Op::In, _)) => loaded_asked(work, i),
        _ => loaded_int(work, code, i),
    }
}

/// Pushes this int, where the instruction at hand says so, and does the operation that the next one names.
#[inline]
fn pushed_next(work: &mut Running<'_>, code: &Code, n: i64) -> bool
    requires { slice_get code.now.instrs work.old.at ≡ Some (Instr.Push (scalar_const (int_scalar n))) }
    ensures goes { (rels : List PlainDecl) → (hosts : Hosts) → (s : State) → result ≡ true → GoesOn 1 code.now rels hosts s (machine_at s work.old) (machine_at s work.new) }
    ensures kept { result ≡ false → work.new ≡ work.old }
    ensures layers { work.new.layers ≡ work.old.layers }
    ensures relations { work.new.relations ≡ work.old.relations }
{
    // for the proof alone: addresses of code are below 2^64 - 1
    let _len = code.instrs.len();
    match code.instrs.near(work.at + 1) {
        Some(Instr::Prim(op, _)) => computed_with(work, n, op),
        _ => false,
    }
}

/// Pushes this int, where the instruction at hand says so, does the operation that the next one names, and jumps by the
/// bool that it gives, where the one behind says that.
#[inline]
fn parted_next(work: &mut Running<'_>, code: &Code, n: i64) -> bool
    requires { slice_get code.now.instrs work.old.at ≡ Some (Instr.Push (scalar_const (int_scalar n))) }
    ensures goes { (rels : List PlainDecl) → (hosts : Hosts) → (s : State) → result ≡ true → GoesOn 1 code.now rels hosts s (machine_at s work.old) (machine_at s work.new) }
    ensures kept { result ≡ false → work.new ≡ work.old }
    ensures layers { work.new.layers ≡ work.old.layers }
    ensures relations { work.new.relations ≡ work.old.relations }
{
    // for the proof alone: addresses of code are below 2^64 - 1
    let _len = code.instrs.len();
    let Some(Instr::Prim(op, _)) = code.instrs.near(work.at + 1) else {
        return false;
    };
    match code.instrs.near(work.at + 2) {
        Some(Instr::Unless(a)) => parted_with(work, code, n, op, *a),
        _ => false,
    }
}

/// Executes the instruction at hand and those behind it, if these are some that are done at once.
#[inline]
pub(crate) fn try_fused(work: &mut Running<'_>, instr: &Instr, code: &Code) -> bool
    requires { slice_get code.now.instrs work.old.at ≡ Some instr.now }
    ensures goes { (rels : List PlainDecl) → (hosts : Hosts) → (s : State) → result ≡ true → GoesOn 1 code.now rels hosts s (machine_at s work.old) (machine_at s work.new) }
    ensures kept { result ≡ false → work.new ≡ work.old }
    ensures layers { work.new.layers ≡ work.old.layers }
    ensures relations { work.new.relations ≡ work.old.relations }
{
    match instr {
        Instr::Load(i) => loaded_next(work, code, *i),
        Instr::Push(Const::Scalar(Scalar::Int(n))) => {
            parted_next(work, code, *n) || pushed_next(work, code, *n)
        }
        _ => false,
    }
}

//! What is behind an int or a bool that one or two instructions put up: it is not put up where an int is pushed next and
//! an operation takes both off again. What that gives may be jumped by, or stored, at once too. Where a function here does not
//! answer true, nothing has changed.
ghost use Rattle.std.specs.Prelude.{◌≡◌, ◌≤◌, ◌+◌, ◌<◌, ◌^◌, ℕ, List, [], Some, true, false, length, slice_get};
ghost use Rattle.hera_meaning.specs.Deltas.{State};
ghost use Rattle.hera_meaning.specs.Hosts.{Hosts};
ghost use Rattle.hera_meaning.specs.Values.{int_value};
ghost use Rattle.hera_meaning.specs.declared.schemas.RelDecl.{RelDecl as PlainDecl};
ghost use Rattle.hera_meaning.specs.declared.scalars.Scalar.TheVariants.{Int as int_scalar};
ghost use Rattle.hera_meaning.specs.declared.trees.Const.TheVariants.{Scalar as scalar_const};
ghost use Rattle.hera_code.specs.Machine.{quiet};
ghost use Rattle.hera_flat.specs.Flats.{flat_value};
ghost use Rattle.hera_machine.specs.Pairs.{with_value, ahead, behind, parted_by, stored_in};
ghost use Rattle.hera_machine.specs.Standing.{GoesOn};
ghost use Rattle.hera_steps.specs.Working.{machine_at};

use hera_code::{Code, Instr};
use hera_flat::{Flat, flat_two};
use hera_meaning::{Const, Op, Scalar};
use hera_steps::Running;

/// Puts an int or a bool up, so many instructions further.
#[inline(always)]
fn put_up(work: &mut Running<'_>, k: usize, v: Flat) -> bool
    requires { work.old.at + k < 2 ^ 64 }
    ensures done { (s : State) → result ≡ true → machine_at s work.new ≡ ahead k (flat_value v) (machine_at s work.old) }
    ensures kept { result ≡ false → work.new ≡ work.old }
    ensures layers { work.new.layers ≡ work.old.layers }
    ensures relations { work.new.relations ≡ work.old.relations }
{
    if !work.operands.push_flat(v) {
        return false;
    }
    work.at += k;
    true
}

/// Puts up what an operation gives of an int or a bool and an int that is pushed.
#[inline(always)]
fn put_computed(work: &mut Running<'_>, k: usize, v: Flat, n: i64, op: &Op) -> bool
    requires { work.old.at + k + 2 < 2 ^ 64 }
    ensures done { (s : State) → (place : ℕ) → result ≡ true → quiet (machine_at s work.new) ≡ with_value place op.now (int_value n) (ahead k (flat_value v) (machine_at s work.old)) }
    ensures kept { result ≡ false → work.new ≡ work.old }
    ensures layers { work.new.layers ≡ work.old.layers }
    ensures relations { work.new.relations ≡ work.old.relations }
{
    let Some(found) = flat_two(op, v, Flat::Int(n)) else {
        return false;
    };
    if !work.operands.push_flat(found) {
        return false;
    }
    work.at += k + 2;
    true
}

/// Jumps by the bool that an operation gives of an int or a bool and an int that is pushed.
#[inline(always)]
fn part_by_computed(
    work: &mut Running<'_>,
    code: &Code,
    k: usize,
    v: Flat,
    n: i64,
    op: &Op,
    a: u32,
) -> bool
    requires { work.old.at + k + 3 < 2 ^ 64 }
    ensures done { (s : State) → (place : ℕ) → result ≡ true → quiet (machine_at s work.new) ≡ behind (parted_by code.now a) (with_value place op.now (int_value n) (ahead k (flat_value v) (machine_at s work.old))) }
    ensures kept { result ≡ false → work.new ≡ work.old }
    ensures layers { work.new.layers ≡ work.old.layers }
    ensures relations { work.new.relations ≡ work.old.relations }
{
    let Some(Flat::Bool(b)) = flat_two(op, v, Flat::Int(n)) else {
        return false;
    };
    if (a as usize) >= code.instrs.len() {
        return false;
    }
    if b {
        work.at += k + 3;
    } else {
        work.at = a as usize;
    }
    true
}

/// Stores what an operation gives of an int or a bool and an int that is pushed.
#[inline(always)]
fn store_computed(work: &mut Running<'_>, k: usize, v: Flat, n: i64, op: &Op, i: u32) -> bool
    requires { work.old.at + k + 3 < 2 ^ 64 }
    ensures done { (s : State) → (place : ℕ) → result ≡ true → quiet (machine_at s work.new) ≡ behind (stored_in i) (with_value place op.now (int_value n) (ahead k (flat_value v) (machine_at s work.old))) }
    ensures kept { result ≡ false → work.new ≡ work.old }
    ensures layers { work.new.layers ≡ work.old.layers }
    ensures relations { work.new.relations ≡ work.old.relations }
{
    let Some(found) = flat_two(op, v, Flat::Int(n)) else {
        return false;
    };
    if !work.locals.has(i as usize) {
        return false;
    }
    let _ = work.locals.put_flat(i as usize, found);
    work.at += k + 3;
    true
}

/// Does the operation of the instruction behind a push of this int, so many instructions further, on an int or a bool that
/// would be put up and the one that is pushed, and jumps by what it gives, or stores it, where the next one says that.
#[inline(always)]
fn compute_with(work: &mut Running<'_>, code: &Code, k: usize, v: Flat, n: i64) -> bool
    requires { slice_get code.now.instrs (work.old.at + k) ≡ Some (Instr.Push (scalar_const (int_scalar n))) }
    ensures goes { (rels : List PlainDecl) → (hosts : Hosts) → (s : State) → result ≡ true → GoesOn 1 code.now rels hosts s (ahead k (flat_value v) (machine_at s work.old)) (machine_at s work.new) }
    ensures kept { result ≡ false → work.new ≡ work.old }
    ensures layers { work.new.layers ≡ work.old.layers }
    ensures relations { work.new.relations ≡ work.old.relations }
{
    // for the proof alone: addresses of code are below 2^64 - 1
    let _len = code.instrs.len();
    let Some(Instr::Prim(op, _)) = code.instrs.near(work.at + k + 1) else {
        return false;
    };
    match code.instrs.near(work.at + k + 2) {
        Some(Instr::Unless(a)) => part_by_computed(work, code, k, v, n, op, *a),
        Some(Instr::Store(i)) => store_computed(work, k, v, n, op, *i),
        _ => put_computed(work, k, v, n, op),
    }
}

/// Puts an int or a bool up, so many instructions further, or goes on with it where an int is pushed next.
#[inline(always)]
pub(crate) fn go_on_with(work: &mut Running<'_>, code: &Code, k: usize, v: Flat) -> bool
    requires { work.old.at + k < 2 ^ 64 }
    ensures goes { (rels : List PlainDecl) → (hosts : Hosts) → (s : State) → result ≡ true → GoesOn 0 code.now rels hosts s (ahead k (flat_value v) (machine_at s work.old)) (machine_at s work.new) }
    ensures kept { result ≡ false → work.new ≡ work.old }
    ensures layers { work.new.layers ≡ work.old.layers }
    ensures relations { work.new.relations ≡ work.old.relations }
{
    match code.instrs.near(work.at + k) {
        Some(Instr::Push(Const::Scalar(Scalar::Int(n)))) => {
            compute_with(work, code, k, v, *n) || put_up(work, k, v)
        }
        _ => put_up(work, k, v),
    }
}

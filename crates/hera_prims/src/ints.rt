//! Arithmetic on ints: what `hera_flat` gives of them, or the trap where it gives nothing.
ghost use Rattle.std.specs.Prelude.{◌≡◌, [], ◌∷◌, ℤ};
ghost use Rattle.hera_meaning.specs.Values.{int_value, int_in, operand};
ghost use Rattle.hera_meaning.specs.Primitives.{in_range, divided, given};
ghost use Rattle.delta_atoms.specs.Plain.{value_of};
ghost use Rattle.hera_flat.specs.Flats.{flat_value, flat_in, flat_answer};
ghost use Rattle.hera_prims.specs.Answered.{IsAnswer, division_trap};

use crate::PrimEnd;
use delta_atoms::Value;
use hera_fits::{Args, int, int_at, truth};
use hera_flat::{Flat, flat_one, flat_two};
use hera_meaning::{Op, TrapName};

/// The int or the bool as a value.
fn value(v: Flat) -> Value
    ensures { value_of result ≡ flat_value v }
{
    match v {
        Flat::Int(n) => int(n),
        Flat::Bool(b) => truth(b),
    }
}

/// What is given, or the trap of an exact result that is out of range.
#[tactic(auto, using(crate::proofs::Traps::traps))]
fn in_range(v: Option<Flat>) -> Result<Value, PrimEnd>
    ensures { (z : ℤ) → v ≡ flat_in (in_range z) → IsAnswer result (in_range z) }
{
    match v {
        Some(v) => Ok(value(v)),
        None => Err(PrimEnd::Trap(TrapName::Overflow)),
    }
}

/// Why there is nothing to be had of a division by this int, where there is nothing.
fn division_trap(by: i64) -> TrapName
    ensures { result ≡ division_trap by }
{
    if by == 0 {
        TrapName::DivZero
    } else {
        TrapName::Overflow
    }
}

/// What is given of a division by this int, or its trap.
#[tactic(auto, using(crate::proofs::Traps::traps))]
fn divided(v: Option<Flat>, by: i64) -> Result<Value, PrimEnd>
    ensures { (f : ℤ → ℤ → ℤ) → (a : ℤ) → v ≡ flat_in (divided f a by) → IsAnswer result (divided f a by) }
{
    match v {
        Some(v) => Ok(value(v)),
        None => Err(PrimEnd::Trap(division_trap(by))),
    }
}

/// What the operation gives of two ints, if anything.
fn given_of(op: &Op, args: &Args) -> Option<Flat>
    ensures { result ≡ flat_answer op.now (int_value (int_in (operand args.now 0)) ∷ int_value (int_in (operand args.now 1)) ∷ []) }
{
    flat_two(op, Flat::Int(int_at(args, 0)), Flat::Int(int_at(args, 1)))
}

/// The int with its sign turned.
pub(crate) fn neg(args: &Args) -> Result<Value, PrimEnd>
    ensures { IsAnswer result (given Op.Neg args.now) }
{
    in_range(flat_one(&Op::Neg, Flat::Int(int_at(args, 0))))
}

/// The sum.
pub(crate) fn add(args: &Args) -> Result<Value, PrimEnd>
    ensures { IsAnswer result (given Op.Add args.now) }
{
    in_range(given_of(&Op::Add, args))
}

/// The difference.
pub(crate) fn sub(args: &Args) -> Result<Value, PrimEnd>
    ensures { IsAnswer result (given Op.Sub args.now) }
{
    in_range(given_of(&Op::Sub, args))
}

/// The product.
pub(crate) fn mul(args: &Args) -> Result<Value, PrimEnd>
    ensures { IsAnswer result (given Op.Mul args.now) }
{
    in_range(given_of(&Op::Mul, args))
}

/// The quotient, toward zero.
pub(crate) fn div(args: &Args) -> Result<Value, PrimEnd>
    ensures { IsAnswer result (given Op.Div args.now) }
{
    divided(given_of(&Op::Div, args), int_at(args, 1))
}

/// The remainder, which has the dividend's sign.
pub(crate) fn rem(args: &Args) -> Result<Value, PrimEnd>
    ensures { IsAnswer result (given Op.Rem args.now) }
{
    divided(given_of(&Op::Rem, args), int_at(args, 1))
}

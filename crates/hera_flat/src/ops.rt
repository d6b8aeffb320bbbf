//! The operations.
ghost use Rattle.std.specs.Prelude.{◌≡◌, [], ◌∷◌, ℤ, SomeIff, FitsSigned, IfSome};
ghost use Rattle.std.specs.Int.{w64};
ghost use Rattle.hera_meaning.specs.Values.{int_value, bool_value};
ghost use Rattle.hera_meaning.specs.Fits.{arity};
ghost use Rattle.hera_meaning.specs.Primitives.{in_range};
ghost use Rattle.hera_flat.specs.Flats.{flat_value, flat_in, flat_answer, IsGiven};

use crate::Flat;
use hera_meaning::Op;

/// The exact int, where it is in range.
#[inline]
#[tactic(auto, using(crate::proofs::Exact::exact))]
fn exact(int: Option<i64>) -> Option<Flat>
    ensures { (z : ℤ) → SomeIff int (FitsSigned w64 z) z → result ≡ flat_in (in_range z) }
{
    match int {
        Some(v) => Some(Flat::Int(v)),
        None => None,
    }
}

/// The quotient, toward zero, where there is one in range.
#[inline]
fn quotient(a: i64, b: i64) -> Option<Flat>
    ensures { result ≡ flat_answer Op.Div (int_value a ∷ int_value b ∷ []) }
{
    if b == 0 || (a == i64::MIN && b == -1) {
        None
    } else {
        Some(Flat::Int(a / b))
    }
}

/// The remainder, which has the dividend's sign, where there is a quotient in range.
#[inline]
fn remainder(a: i64, b: i64) -> Option<Flat>
    ensures { result ≡ flat_answer Op.Rem (int_value a ∷ int_value b ∷ []) }
{
    if b == 0 || (a == i64::MIN && b == -1) {
        None
    } else {
        Some(Flat::Int(a % b))
    }
}

/// What an operation gives of two ints.
#[inline(always)]
#[tactic(auto, using(crate::proofs::Others::others))]
fn of_ints(op: &Op, a: i64, b: i64) -> Option<Flat>
    ensures { result ≡ flat_answer op.now (int_value a ∷ int_value b ∷ []) }
{
    match op {
        Op::Add => exact(a.checked_add(b)),
        Op::Sub => exact(a.checked_sub(b)),
        Op::Mul => exact(a.checked_mul(b)),
        Op::Div => quotient(a, b),
        Op::Rem => remainder(a, b),
        Op::Eq => Some(Flat::Bool(a == b)),
        Op::Ne => Some(Flat::Bool(a != b)),
        Op::Lt => Some(Flat::Bool(a < b)),
        Op::Le => Some(Flat::Bool(a <= b)),
        Op::Gt => Some(Flat::Bool(a > b)),
        Op::Ge => Some(Flat::Bool(a >= b)),
        _ => None,
    }
}

/// What an operation gives of two bools.
#[inline]
#[tactic(auto, using(crate::proofs::Others::others))]
fn of_bools(op: &Op, a: bool, b: bool) -> Option<Flat>
    ensures { result ≡ flat_answer op.now (bool_value a ∷ bool_value b ∷ []) }
{
    match op {
        Op::Eq => Some(Flat::Bool(a == b)),
        Op::Ne => Some(Flat::Bool(a != b)),
        _ => None,
    }
}

/// What an operation gives of two ints or two bools that fit it, if that is an int or a bool. Of
/// others, and where it traps, it answers nothing.
#[inline(always)]
#[tactic(auto, using(crate::proofs::Others::others))]
pub fn flat_two(op: &Op, left: Flat, right: Flat) -> Option<Flat>
    ensures answer { result ≡ flat_answer op.now (flat_value left ∷ flat_value right ∷ []) }
    ensures given { IfSome result (IsGiven op.now (flat_value left ∷ flat_value right ∷ [])) }
{
    match (left, right) {
        (Flat::Int(a), Flat::Int(b)) => of_ints(op, a, b),
        (Flat::Bool(a), Flat::Bool(b)) => of_bools(op, a, b),
        (Flat::Int(_), Flat::Bool(_)) => None,
        (Flat::Bool(_), Flat::Int(_)) => None,
    }
}

/// What an operation gives of an int or a bool that fits it, if that is an int or a bool. Of others,
/// and where it traps, it answers nothing.
#[inline]
#[tactic(auto, using(crate::proofs::Others::others))]
pub fn flat_one(op: &Op, operand: Flat) -> Option<Flat>
    ensures answer { result ≡ flat_answer op.now (flat_value operand ∷ []) }
    ensures given { IfSome result (IsGiven op.now (flat_value operand ∷ [])) }
{
    match (op, operand) {
        (Op::Neg, Flat::Int(v)) => exact(v.checked_neg()),
        (Op::Not, Flat::Bool(b)) => Some(Flat::Bool(!b)),
        _ => None,
    }
}

//! Operations on ints and bools.
use hera_flat::{Flat, flat_one, flat_two};
use hera_meaning::Op;
use std::test::Fail;

/// What the operation gives of two operands.
fn of_two(op: Op, left: Flat, right: Flat) -> Option<Flat> {
    let answer = flat_two(&op, left, right);
    drop(op);
    answer
}

/// What the operation gives of one operand.
fn of_one(op: Op, operand: Flat) -> Option<Flat> {
    let answer = flat_one(&op, operand);
    drop(op);
    answer
}

#[test]
fn ints_and_bools_are_computed(rt: HostRuntime) -> Result<(), Fail> {
    let seven = Flat::Int(7);
    let minus_two = Flat::Int(-2);
    assert!(rt; of_two(Op::Sub, seven, minus_two) == Some(Flat::Int(9)));
    assert!(rt; of_two(Op::Div, seven, minus_two) == Some(Flat::Int(-3)));
    assert!(rt; of_two(Op::Rem, seven, minus_two) == Some(Flat::Int(1)));
    assert!(rt; of_two(Op::Le, seven, minus_two) == Some(Flat::Bool(false)));
    assert!(rt; of_two(Op::Mul, Flat::Int(i64::MAX), minus_two).is_none());
    assert!(rt; of_two(Op::Eq, Flat::Bool(true), Flat::Bool(true)) == Some(Flat::Bool(true)));
    assert!(rt; of_one(Op::Neg, seven) == Some(Flat::Int(-7)));
    assert!(rt; of_one(Op::Not, seven).is_none());
    Ok(())
}

//! Operands that are ints, bools and tuples.
use crate::samples::{numbers, row};
use hera_flat::Flat;
use hera_frames::Operands;
use std::process::Abort;
use std::test::Fail;

/// Puts two ints upon no operands, where there is the place.
fn two_ints(rt: &impl Abort, operands: &mut Operands) -> Result<(), Fail> {
    assert!(rt; !operands.push_flat(Flat::Int(1)));
    operands.reserve(4)?;
    assert!(rt; operands.push_flat(Flat::Int(1)));
    assert!(rt; operands.push_flat(Flat::Int(2)));
    Ok(())
}

#[test]
fn newest_operands_are_looked_at(rt: HostRuntime) -> Result<(), Fail> {
    let mut operands = Operands::new(rt.alloc());
    two_ints(&rt, &mut operands)?;
    assert_eq!(rt; operands.newest_int(), Some(2));
    assert_eq!(rt; operands.newest_ints(), Some((1, 2)));
    assert_eq!(rt; operands.newest_flat(), Some(Flat::Int(2)));
    assert_eq!(rt; operands.newest_bool(), None);
    assert_eq!(rt; operands.newest_two(), Some((Flat::Int(1), Flat::Int(2))));
    assert!(rt; operands.push_flat(Flat::Bool(true)));
    assert_eq!(rt; operands.newest_bool(), Some(true));
    assert_eq!(rt; operands.newest_int(), None);
    assert!(rt; operands.push_tuple(b"row"));
    assert_eq!(rt; operands.newest_flat(), None);
    Ok(())
}

#[test]
fn a_field_of_the_newest_operand_is_taken(rt: HostRuntime) -> Result<(), Fail> {
    let mut operands = Operands::new(rt.alloc());
    operands.reserve(1)?;
    assert!(rt; operands.push_tuple(&row(7)));
    assert_eq!(rt;
        operands.newest_field(&numbers(rt.alloc())?, 0),
        Some(Flat::Int(7))
    );
    Ok(())
}

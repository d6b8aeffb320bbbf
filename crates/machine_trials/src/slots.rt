//! Slots with ints, bools and tuples.
use crate::samples::{numbers, row};
use hera_flat::Flat;
use hera_values::Locals;
use std::test::Fail;

#[test]
fn slots_answer_what_they_have(rt: HostRuntime) -> Result<(), Fail> {
    let alloc = rt.alloc();
    let mut slots = Locals::start(alloc, 3)?;
    assert_eq!(rt; slots.int_at(0), Some(0));
    assert!(rt; slots.put_flat(1, Flat::Bool(true)));
    assert_eq!(rt; slots.flat_at(1), Some(Flat::Bool(true)));
    assert_eq!(rt; slots.int_at(1), None);
    assert_eq!(rt; slots.int_at(3), None);
    assert!(rt; slots.put_tuple(alloc, 2, b"two")?);
    assert!(rt; slots.fit_tuple(2, b"one"));
    assert!(rt; !slots.fit_tuple(0, b"one"));
    assert!(rt; slots.row_at(2).is_some());
    assert!(rt; slots.row_at(1).is_none());
    Ok(())
}

#[test]
fn a_field_of_a_slot_is_taken(rt: HostRuntime) -> Result<(), Fail> {
    let alloc = rt.alloc();
    let mut slots = Locals::start(alloc, 1)?;
    assert!(rt; slots.put_tuple(alloc, 0, &row(7))?);
    assert_eq!(rt; slots.field_at(0, &numbers(alloc)?, 0), Some(Flat::Int(7)));
    Ok(())
}

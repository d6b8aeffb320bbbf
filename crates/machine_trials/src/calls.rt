//! Calls that move arguments from operands to slots, and returns with an answer.
use hera_code::BodyInfo;
use hera_flat::Flat;
use hera_frames::{Callers, Operands, Point};
use hera_reads::Stack;
use hera_values::Locals;
use std::alloc::Global;
use std::test::Fail;

/// Whether a body with one parameter that is called finds the newest operand, 2, in its slot, and the frame that waits its
/// own slot and the answer, 7.
fn calls(alloc: Global, operands: &mut Operands) -> Result<bool, Fail> {
    let mut callers = Callers::new(alloc);
    let mut locals = Locals::start(alloc, 1)?;
    let mut walks = Stack::new(alloc);
    let body = BodyInfo {
        at: 0,
        params: 1,
        slots: 1,
        func: true,
    };
    let point = Point {
        at: 5,
        tip: 0,
        own: 0,
        floor: 1,
        names_below: false,
    };
    if !operands.are_held(1) {
        return Ok(false);
    }
    callers.call(alloc, &body, point, operands, &mut locals, &mut walks)?;
    if locals.int_at(0) != Some(2) {
        return Ok(false);
    }
    let back = callers.resume(Some(Flat::Int(7)), operands, &mut locals, &mut walks);
    Ok(back.is_some() && operands.newest_ints() == Some((1, 7)) && locals.int_at(0) == Some(0))
}

#[test]
fn a_call_takes_its_argument_and_a_return_gives_its_answer(rt: HostRuntime) -> Result<(), Fail> {
    let mut operands = Operands::new(rt.alloc());
    operands.reserve(2)?;
    assert!(rt; operands.push_flat(Flat::Int(1)));
    assert!(rt; operands.push_flat(Flat::Int(2)));
    assert!(rt; calls(rt.alloc(), &mut operands)?);
    Ok(())
}

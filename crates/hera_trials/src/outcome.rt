//! The lines and the statuses of refusals and stops.
use hera_outcome::{Refusal, Stop, conclude, refuse};
use hera_script::Cause;
use hera_volume::{FileId, MemOutside};
use std::alloc::Global;
use std::test::Fail;

/// The lines of the refusals that are told.
const LINES: &[u8] =
    b"usage\nrefused Syntax at 7\ndamaged left at 26\nno relation\nrefused Record at 3\nrefused BadCode at 63\nrefused Rejected at 4\nscript unread\n";

/// The status of a refusal, which is told.
fn status_of(alloc: Global, outside: &mut MemOutside, refusal: Refusal) -> u8 {
    let status = refuse(alloc, outside, &refusal);
    drop(refusal);
    status
}

/// Whether each of the refusals has its status. They are told.
fn have_status(alloc: Global, outside: &mut MemOutside) -> bool {
    let cause = Cause::Syntax;
    let file = FileId::Left;
    status_of(alloc, outside, Refusal::Usage) == 2
        && status_of(alloc, outside, Refusal::Script { cause, at: 7 }) == 3
        && status_of(alloc, outside, Refusal::Damaged { file, at: 26 }) == 5
        && status_of(alloc, outside, Refusal::NoRelation) == 5
        && status_of(alloc, outside, Refusal::Record { number: 3 }) == 3
        && status_of(alloc, outside, Refusal::BadCode { at: 63 }) == 3
        && status_of(alloc, outside, Refusal::Rejected { at: 4 }) == 3
}

/// Whether each refusal and each stop has its status, and the refusals their lines.
fn are_told(alloc: Global, outside: &mut MemOutside) -> bool {
    have_status(alloc, outside)
        && conclude(alloc, outside, Err(Stop::Refused(Refusal::Unread))) == 7
        && conclude(alloc, outside, Err(Stop::Full)) == 10
        && outside.bytes() == LINES
}

#[test]
fn a_refusal_is_told_with_its_line_and_status(rt: HostRuntime) -> Result<(), Fail> {
    let alloc = rt.alloc();
    let mut outside = MemOutside::new(alloc, Vec::new(alloc), None, Vec::new(alloc));
    let are_told = are_told(alloc, &mut outside);
    drop(outside);
    assert!(rt; are_told);
    Ok(())
}

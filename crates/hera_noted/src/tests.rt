//! Ranges in small bodies.
use crate::extents::{Span, slot_ranges};
use hera_code::{Instr, Instrs};
use std::alloc::Global;
use std::test::Fail;

/// The range of slot 0.
fn range_in(alloc: Global, instrs: Vec<Instr>) -> Result<Span, Fail> {
    let body = Span {
        start: 0,
        end: instrs.len(),
    };
    Ok(slot_ranges(alloc, &Instrs::new(instrs), body, 1)?[0])
}

#[test]
fn ranges_end_where_ways_lead_in(rt: HostRuntime) -> Result<(), Fail> {
    let alloc = rt.alloc();
    let loop_inside = vec![in alloc;
        Instr::Rollback,
        Instr::Store(0),
        Instr::Load(0),
        Instr::Back(2),
        Instr::Halt,
    ]?;
    assert_eq!(rt; range_in(alloc, loop_inside)?, Span { start: 2, end: 5 });
    let skipped = vec![in alloc;
        Instr::Unless(4),
        Instr::Store(0),
        Instr::Load(0),
        Instr::Commit,
        Instr::Halt,
    ]?;
    assert_eq!(rt; range_in(alloc, skipped)?, Span { start: 2, end: 4 });
    let entered_from_behind = vec![in alloc;
        Instr::Unless(4),
        Instr::Store(0),
        Instr::Load(0),
        Instr::Commit,
        Instr::Back(3),
    ]?;
    assert_eq!(rt;
        range_in(alloc, entered_from_behind)?,
        Span { start: 2, end: 3 }
    );
    assert_eq!(rt;
        range_in(alloc, vec![in alloc; Instr::Halt]?)?,
        Span { start: 0, end: 0 }
    );
    Ok(())
}

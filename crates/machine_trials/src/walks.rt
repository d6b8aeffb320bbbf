//! A walk over a relation that is named.
use hera_meaning::RelId;
use hera_reads::{Changes, Stack, Walk};
use rel_pages::{Base, read_half};
use std::alloc::Global;
use std::test::Fail;
use when_overlay::Stored;

/// A base with the relation R(a int), which holds the ints 1 to 3.
fn base(alloc: Global) -> Result<Base, Fail> {
    let mut bytes = Vec::from_slice(alloc, b"HERA0001\0\x01\x01R\x01\x01a\x01\0\0\0\x01")?;
    bytes.extend_from_slice(b"\0\0\0\x03")?;
    bytes.extend_from_slice(&[128, 0, 0, 0, 0, 0, 0, 1])?;
    bytes.extend_from_slice(&[128, 0, 0, 0, 0, 0, 0, 2])?;
    bytes.extend_from_slice(&[128, 0, 0, 0, 0, 0, 0, 3])?;
    bytes.resize(8213, 0)?;
    Ok(read_half(alloc, bytes)?)
}

/// Whether the walk has its third row behind the second one, and goes on to it in its place; and no row behind that.
fn goes_on(
    alloc: Global,
    changes: &Changes<'_>,
    stored: &Stored<'_>,
    walks: &mut Stack<Walk>,
) -> Result<bool, Fail> {
    walks.next(alloc, changes, stored)?;
    walks.next(alloc, changes, stored)?;
    let third = walks.coming() == Some(&[128, 0, 0, 0, 0, 0, 0, 3]);
    walks.pass();
    let there = walks.current() == Some(&[128, 0, 0, 0, 0, 0, 0, 3]);
    Ok(third && there && walks.coming().is_none())
}

#[test]
fn a_walk_goes_on_in_its_place(rt: HostRuntime) -> Result<(), Fail> {
    let alloc = rt.alloc();
    let base = base(alloc)?;
    let mut walks = Stack::new(alloc);
    walks.push(Walk::over(alloc, RelId(0), 0))?;
    let changes = Changes::new(alloc, &[])?;
    let went = goes_on(alloc, &changes, &Stored::new(&base, &[]), &mut walks)?;
    assert!(rt; went);
    Ok(())
}

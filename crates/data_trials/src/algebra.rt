//! The set operations and projection, over small sets.
use crate::samples::{schema_of, set_of};
use hera_meaning::Kind;
use hera_rows::{RowSet, Sorted};
use rel_algebra::{inter, minus, project, union};
use std::alloc::{AllocError, Global};
use std::process::Abort;
use std::test::Fail;

/// How many rows a set has.
fn len_of(set: Result<RowSet, AllocError>) -> Result<usize, AllocError> {
    match set {
        Ok(set) => Ok(set.len()),
        Err(e) => Err(e),
    }
}

/// How many rows the union, the difference and the common part of two sets have.
fn sizes(alloc: Global, a: &RowSet, b: &RowSet) -> Result<(usize, usize, usize), AllocError> {
    Ok((
        len_of(union(alloc, a, b))?,
        len_of(minus(alloc, a, b))?,
        len_of(inter(alloc, a, b))?,
    ))
}

/// Whether the rows (false, true) and (true, true) are turned round.
fn are_turned(alloc: Global, both: &RowSet) -> Result<bool, Fail> {
    let flags = schema_of(alloc, &[("a", Kind::Bool), ("b", Kind::Bool)])?;
    let turned = project(alloc, &flags, &[1, 0], both);
    drop(flags);
    let turned = turned?;
    let are_turned = turned.len() == 2 && turned.has(b"\x01\0");
    drop(turned);
    Ok(are_turned)
}

/// The rows (false, true) and (true, true), the second one alone, and none are put together, taken apart and turned round.
fn sets_have_sizes(
    rt: &impl Abort,
    alloc: Global,
    both: &RowSet,
    one: &RowSet,
    none: &RowSet,
) -> Result<(), Fail> {
    for (a, b, wanted) in [
        (both, one, (2, 1, 1)),
        (one, both, (2, 0, 1)),
        (both, none, (2, 2, 0)),
        (none, none, (0, 0, 0)),
    ] {
        assert!(rt; sizes(alloc, a, b)? == wanted);
    }
    assert!(rt; are_turned(alloc, both)?);
    Ok(())
}

#[test]
fn sets_are_put_together_and_taken_apart(rt: HostRuntime) -> Result<(), Fail> {
    let both = set_of(rt.alloc(), &[b"\0\x01", b"\x01\x01"])?;
    let one = set_of(rt.alloc(), &[b"\x01\x01"])?;
    let none = set_of(rt.alloc(), &[])?;
    let tried = sets_have_sizes(&rt, rt.alloc(), &both, &one, &none);
    drop(both);
    drop(one);
    drop(none);
    tried
}

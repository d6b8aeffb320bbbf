//! The least and the greatest of small sets of bools.
ghost use Rattle.std.specs.Prelude.{All, IsTrue};
ghost use Rattle.hera_meaning.specs.Rows.{IsRow};

use crate::samples::{schema_of, set_of};
use hera_aggregate::{AggEnd, greatest, least};
use hera_meaning::{Kind, Scalar, Schema};
use hera_row::check_row;
use hera_rows::RowSet;
use std::alloc::Global;
use std::process::Abort;
use std::test::Fail;

/// Whether all are rows of the schema.
fn are_rows(schema: &Schema, set: &RowSet) -> bool
    ensures { IsTrue result → All (IsRow schema.now) set.now }
{
    for i in 0..set.len() {
        if !check_row(schema, set.row(i)) {
            return false;
        }
    }
    true
}

/// The bool of an answer, and `None` of any other.
fn truth(answer: Result<Scalar, AggEnd>) -> Option<bool> {
    match answer {
        Ok(Scalar::Bool(truth)) => Some(truth),
        _ => None,
    }
}

/// The least and the greatest of these rows of one bool, and `None` where they are no such rows.
fn ends_of(alloc: Global, schema: &Schema, set: &RowSet) -> Option<(Option<bool>, Option<bool>)> {
    if schema.len() != 1 || !are_rows(schema, set) {
        return None;
    }
    Some((
        truth(least(alloc, schema, 0, set)),
        truth(greatest(alloc, schema, 0, set)),
    ))
}

/// The ends of some rows are told, and no rows have none.
fn ends_are_told(rt: &impl Abort, alloc: Global, schema: &Schema) -> Result<(), Fail> {
    for (rows, low, high) in [
        (
            [b"\0".as_slice(), b"\x01"].as_slice(),
            Some(false),
            Some(true),
        ),
        (&[b"\x01"], Some(true), Some(true)),
        (&[], None, None),
    ] {
        let set = set_of(alloc, rows)?;
        let ends = ends_of(alloc, schema, &set);
        drop(set);
        assert!(rt; ends == Some((low, high)));
    }
    Ok(())
}

#[test]
fn the_ends_of_some_rows_are_told_and_no_rows_have_none(rt: HostRuntime) -> Result<(), Fail> {
    let schema = schema_of(rt.alloc(), &[("v", Kind::Bool)])?;
    let tried = ends_are_told(&rt, rt.alloc(), &schema);
    drop(schema);
    tried
}

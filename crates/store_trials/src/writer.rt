//! A half of two relations, each with one row.
ghost use Rattle.std.specs.Prelude.{◌<◌, ◌≤◌, IfOk};
ghost use Rattle.half_writer.specs.Written.{AreRows};
ghost use Rattle.rel_format.specs.declared.version.TheConstants.{HALF_LIMIT};

use crate::samples::{catalogue_of, schema_of};
use half_writer::{HalfFault, HalfWriter};
use hera_meaning::{Kind, Schema};
use hera_row::{Catalogue, check_row};
use hera_rows::RowSet;
use std::alloc::{AllocError, Global};
use std::test::Fail;

/// The row of true.
const TRUE: [u8; 1] = [1];

/// The row of true, where it is one of the schema.
fn one_row(alloc: Global, schema: &Schema) -> Result<RowSet, AllocError>
    ensures { IfOk result (λ rows. AreRows rows) }
{
    let mut rows = RowSet::new(alloc);
    if schema.len() == 0 || !check_row(schema, &TRUE) {
        return Ok(rows);
    }
    rows.push_last(&TRUE)?;
    Ok(rows)
}

/// Adds two relations with these rows.
fn add_twice(writer: &mut HalfWriter, rows: &RowSet) -> Result<(), HalfFault>
    requires more { writer.old.added < 255 }
    requires rows { AreRows rows.now }
{
    writer.add(rows)?;
    writer.add(rows)
}

/// The bytes of a half within the limit, of two relations with these rows.
fn half_of(
    alloc: Global,
    catalogue: &Catalogue,
    rows: &RowSet,
    limit: u64,
) -> Result<Vec<u8>, HalfFault>
    requires limit { limit ≤ HALF_LIMIT }
    requires rows { AreRows rows.now }
{
    let Ok(mut writer) = HalfWriter::new(alloc, catalogue, limit) else {
        return Err(HalfFault::Memory);
    };
    match add_twice(&mut writer, rows) {
        Ok(()) => writer.finish(),
        Err(fault) => {
            drop(writer);
            Err(fault)
        }
    }
}

/// The need that is told of a half that is full.
fn need_of(answer: &Result<Vec<u8>, HalfFault>) -> Option<(u64, u64)> {
    match answer {
        Err(HalfFault::Full { need, limit }) => Some((*need, *limit)),
        _ => None,
    }
}

/// Whether the bytes are a half of two pages, each of one row.
fn has_two_pages(answer: &Result<Vec<u8>, HalfFault>) -> bool {
    let Ok(bytes) = answer else {
        return false;
    };
    if bytes.len() != 65_563 {
        return false;
    }
    let head = b"HERA0002\0\x02\x01R\x01\x01a\x02\x01S\x01\x01a\x02\0\0\0\x02\0\0\0\x01\x01";
    let second = b"\0\x01\0\x01\x01";
    bytes.as_slice().split_at(31).0 == head.as_slice()
        && bytes.as_slice().split_at(32794).1.split_at(5).0 == second.as_slice()
}

/// The rows of true.
fn rows_of_true(alloc: Global) -> Result<RowSet, Fail>
    ensures { IfOk result (λ rows. AreRows rows) }
{
    let schema = schema_of(alloc, &[("a", Kind::Bool)])?;
    let rows = one_row(alloc, &schema);
    drop(schema);
    Ok(rows?)
}

#[test]
fn each_relation_has_pages_of_its_own(rt: HostRuntime) -> Result<(), Fail> {
    let catalogue = catalogue_of(rt.alloc(), &[("R", Kind::Bool), ("S", Kind::Bool)])?;
    let rows = rows_of_true(rt.alloc())?;
    let written = half_of(rt.alloc(), &catalogue, &rows, 65_563);
    let refused = half_of(rt.alloc(), &catalogue, &rows, 65_562);
    drop(rows);
    drop(catalogue);
    let has_pages = has_two_pages(&written);
    let need = need_of(&refused);
    drop(written);
    drop(refused);
    assert!(rt; has_pages);
    assert!(rt; need == Some((65_563, 65_562)));
    Ok(())
}

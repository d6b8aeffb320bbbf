//! The line of a row that breaks a guard.
ghost use Rattle.std.specs.Prelude.{◌≡◌, ◌<◌, ◌++◌, IfOk, length, codes};
ghost use Rattle.hera_meaning.specs.Rows.{IsRow};
ghost use Rattle.hera_meaning.specs.Deltas.{schema_of};
ghost use Rattle.hera_meaning.specs.Printed.{tuple_text};
ghost use Rattle.hera_guard.specs.Guarded.{break_text};

use crate::table::Break;
use delta_atoms::Value;
use hera_meaning::writing::put;
use hera_meaning::{Line, RelDecl, Schema, Shape};
use hera_print::value_line;
use hera_row::Catalogue;
use hera_rows::RowBuf;
use std::alloc::{AllocError, Global};

/// The tuple of a row, with its line feed.
fn tuple_line(alloc: Global, schema: &Schema, row: &[u8]) -> Result<Line, AllocError>
    requires { IsRow schema.now row.now }
    ensures { IfOk result (λ line. line ≡ tuple_text schema.now row.now ++ codes "\n") }
{
    let row = RowBuf::new(alloc, row)?;
    let schema = schema.copy()?;
    let shape = Shape::Tuple(schema);
    let value = Value::Row(row);
    value_line(alloc, &shape, &value, &[])
}

/// The line `guard HOST refused R[..]` of a row of the declared relation.
fn line_of(alloc: Global, host: &[u8], decl: &RelDecl, row: &[u8]) -> Result<Line, AllocError>
    requires { IsRow decl.now.schema row.now }
    ensures { IfOk result (λ line. line ≡ codes "guard " ++ host.now ++ codes " refused " ++ decl.now.name ++ tuple_text decl.now.schema row.now ++ codes "\n") }
{
    let tuple = tuple_line(alloc, &decl.schema, row)?;
    let mut line = Vec::new(alloc);
    put(&mut line, b"guard ")?;
    put(&mut line, host)?;
    put(&mut line, b" refused ")?;
    put(&mut line, decl.name.bytes())?;
    put(&mut line, tuple.bytes())?;
    Ok(Line::new(line))
}

/// The line that says that the host function of this name refuses the row found: its relation's name and its tuple.
pub fn break_line(
    alloc: Global,
    catalogue: &Catalogue,
    host: &[u8],
    found: &Break,
) -> Result<Line, AllocError>
    requires relation { found.now.rel.0 < length catalogue.now }
    requires row { IsRow (schema_of catalogue.now found.now.rel.0) found.now.row }
    ensures { IfOk result (λ line. line ≡ break_text catalogue.now host.now found.now) }
{
    line_of(alloc, host, catalogue.decl(found.rel), found.row.bytes())
}

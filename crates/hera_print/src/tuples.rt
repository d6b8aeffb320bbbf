//! Tuples and relations.
ghost use Rattle.std.specs.Prelude.{◌≡◌, ◌<◌, ◌++◌, length, true, OnOk, codes};
ghost use Rattle.std.specs.List.{list_all};
ghost use Rattle.hera_meaning.specs.Rows.{is_row, field_at, fields_of};
ghost use Rattle.hera_meaning.specs.Printed.{inner_text, fields_text, tuple_text, rows_text, table_text};
ghost use Rattle.hera_row.specs.Fields.{told};
ghost use Rattle.hera_print.specs.Commas.{comma_before};

use super::commas::put_comma;
use hera_meaning::writing::{put, put_bool, put_int, put_number, put_quoted};
use hera_meaning::{ScalarRef, Schema};
use hera_row::field;
use hera_rows::RowSet;
use std::alloc::AllocError;

/// Puts a field of a tuple.
fn put_field(out: &mut Vec<u8>, field: ScalarRef<'_>) -> Result<(), AllocError>
    ensures { OnOk result (out.new.items ≡ out.old.items ++ inner_text (told field.entry)) }
{
    match field {
        ScalarRef::Int(v) => put_int(out, v),
        ScalarRef::Bool(b) => put_bool(out, b),
        ScalarRef::Text(bytes) => put_quoted(out, bytes),
    }
}

/// Puts the field at place `i`, behind a comma and a blank unless it is the first.
fn put_field_at(out: &mut Vec<u8>, schema: &Schema, row: &[u8], i: usize) -> Result<(), AllocError>
    requires row { is_row schema.now row.now ≡ true }
    requires within { i < length schema.now }
    ensures { OnOk result (out.new.items ≡ out.old.items ++ comma_before i ++ inner_text (field_at schema.now row.now i)) }
{
    put_comma(out, i)?;
    put_field(out, field(schema, row, i))
}

/// Puts the fields of a tuple.
fn put_fields(out: &mut Vec<u8>, schema: &Schema, row: &[u8]) -> Result<(), AllocError>
    requires { is_row schema.now row.now ≡ true }
    ensures { OnOk result (out.new.items ≡ out.old.items ++ fields_text (fields_of schema.now row.now)) }
{
    for i in 0..schema.len() {
        put_field_at(out, schema, row, i)?;
    }
    Ok(())
}

/// Puts a tuple: its fields in brackets.
#[tactic(auto, unfolding(hera_meaning::specs::Printed::tuple_text))]
fn put_tuple(out: &mut Vec<u8>, schema: &Schema, row: &[u8]) -> Result<(), AllocError>
    requires { is_row schema.now row.now ≡ true }
    ensures { OnOk result (out.new.items ≡ out.old.items ++ tuple_text schema.now row.now) }
{
    put(out, b"[")?;
    put_fields(out, schema, row)?;
    put(out, b"]")
}

/// Puts a tuple on a line.
pub(crate) fn put_row(out: &mut Vec<u8>, schema: &Schema, row: &[u8]) -> Result<(), AllocError>
    requires { is_row schema.now row.now ≡ true }
    ensures { OnOk result (out.new.items ≡ out.old.items ++ (tuple_text schema.now row.now ++ codes "\n")) }
{
    put_tuple(out, schema, row)?;
    put(out, b"\n")
}

/// Puts each tuple on a line.
fn put_rows(out: &mut Vec<u8>, schema: &Schema, rows: &RowSet) -> Result<(), AllocError>
    requires { list_all (is_row schema.now) rows.now ≡ true }
    ensures { OnOk result (out.new.items ≡ out.old.items ++ rows_text schema.now rows.now) }
{
    for i in 0..rows.len() {
        put_row(out, schema, rows.row(i))?;
    }
    Ok(())
}

/// Puts a relation: a line with the number of its tuples, and then each tuple on a line.
#[tactic(auto, unfolding(hera_meaning::specs::Printed::table_text))]
pub(crate) fn put_table(out: &mut Vec<u8>, schema: &Schema, rows: &RowSet) -> Result<(), AllocError>
    requires { list_all (is_row schema.now) rows.now ≡ true }
    ensures { OnOk result (out.new.items ≡ out.old.items ++ table_text schema.now rows.now) }
{
    put(out, b"rows ")?;
    put_number(out, rows.len() as u128)?;
    put(out, b"\n")?;
    put_rows(out, schema, rows)
}

//! The text of rows.
ghost use Rattle.std.specs.Prelude.{◌≡◌, ◌<◌, ◌≤◌, ◌++◌, ◌∷◌, [], All, IfOk, OnOk, length, map};
ghost use Rattle.csv.specs.Records.{fields_of, partial_of};
ghost use Rattle.csv.specs.Writing.{default_writer, row_text};
ghost use Rattle.hera_meaning.specs.Rows.{IsRow, field_at};
ghost use Rattle.hera_meaning.specs.Printed.{scalar_text};
ghost use Rattle.hera_meaning.specs.Schemas.{names_of};
ghost use Rattle.hera_row.specs.Fields.{told};
ghost use Rattle.hera_csv.specs.Writers.{IsBetween, written, csv_of, fields_text, tuple_fields};

use csv::{ByteRecord, Writer, WriterBuilder};
use hera_meaning::{Line, ScalarRef, Schema};
use hera_row::field;
use hera_rows::{RowMark, Sorted};
use itoa::Buffer;
use std::alloc::{AllocError, Global};

/// Writes a record behind the others.
fn put_record(writer: &mut Writer<Vec<u8>>, fields: &ByteRecord) -> Result<(), AllocError>
    requires { IsBetween writer.old }
    ensures between { OnOk result (IsBetween writer.new) }
    ensures text { OnOk result (written writer.new ≡ written writer.old ++ row_text default_writer (fields_of fields.now)) }
{
    match writer.write_byte_record(fields) {
        Ok(()) => Ok(()),
        Err(_) => Err(AllocError),
    }
}

/// Puts the text of a scalar in the record, behind the fields that it has.
fn push_scalar(fields: &mut ByteRecord, scalar: ScalarRef<'_>) -> Result<(), AllocError>
    requires { partial_of fields.old ≡ [] }
    ensures fields { OnOk result (fields_of fields.new ≡ fields_of fields.old ++ scalar_text (told scalar.entry) ∷ []) }
    ensures partial { OnOk result (partial_of fields.new ≡ []) }
{
    match scalar {
        ScalarRef::Int(v) => fields.push_field(Buffer::new().format(v).as_bytes()),
        ScalarRef::Bool(true) => fields.push_field(b"true"),
        ScalarRef::Bool(false) => fields.push_field(b"false"),
        ScalarRef::Text(bytes) => fields.push_field(bytes),
    }
}

/// Puts the names of the attributes in the record.
fn fill_head(fields: &mut ByteRecord, schema: &Schema) -> Result<(), AllocError>
    ensures fields { OnOk result (fields_of fields.new ≡ names_of schema.now) }
{
    fields.clear();
    for i in 0..schema.len() {
        fields.push_field(schema.attr(i).name.bytes())?;
    }
    Ok(())
}

/// Puts the texts of a row's fields in the record.
fn fill_row(fields: &mut ByteRecord, schema: &Schema, row: &[u8]) -> Result<(), AllocError>
    requires { IsRow schema.now row.now }
    ensures fields { OnOk result (fields_of fields.new ≡ tuple_fields schema.now row.now) }
{
    fields.clear();
    for i in 0..schema.len() {
        push_scalar(fields, field(schema, row, i))?;
    }
    Ok(())
}

/// Writes the record of the names of the attributes.
fn put_head(
    writer: &mut Writer<Vec<u8>>,
    fields: &mut ByteRecord,
    schema: &Schema,
) -> Result<(), AllocError>
    requires { IsBetween writer.old }
    ensures between { OnOk result (IsBetween writer.new) }
    ensures text { OnOk result (written writer.new ≡ written writer.old ++ row_text default_writer (names_of schema.now)) }
{
    fill_head(fields, schema)?;
    put_record(writer, fields)
}

/// The text of the names of the attributes and then of each row, in the order of the rows.
pub fn write_rows<S: Sorted>(alloc: Global, schema: &Schema, rows: &S) -> Result<Line, AllocError>
    requires { All (IsRow schema.now) (S.rows rows.now) }
    ensures { IfOk result (λ line. line ≡ csv_of schema.now (S.rows rows.now)) }
{
    let mut writer = WriterBuilder::new().from_writer(Vec::new(alloc));
    let mut fields = ByteRecord::new(alloc);
    put_head(&mut writer, &mut fields, schema)?;
    let mut last: Option<&[u8]> = None;
    let mut mark = RowMark::start();
    while let Some(row) = rows.above_from(last, &mut mark) {
        fill_row(&mut fields, schema, row)?;
        put_record(&mut writer, &fields)?;
        last = Some(row);
    }
    match writer.into_inner() {
        Ok(text) => Ok(Line::new(text)),
        Err(_) => Err(AllocError),
    }
}

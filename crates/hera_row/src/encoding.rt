//! The row of a tuple.
ghost use Rattle.std.specs.Prelude.{◌≡◌, ◌++◌, true, OnOk, IfOk};
ghost use Rattle.std.specs.Int.{to_be_bytes, w64};
ghost use Rattle.hera_meaning.specs.Rows.{IsRow, row_of, field_bytes, shifted};
ghost use Rattle.hera_meaning.specs.Scalars.{is_kind, is_scalar, fits_int};
ghost use Rattle.hera_row.specs.Fields.{have_kinds};

use crate::ints::shifted;
use crate::scalars::is_kind;
use byteorder::{BigEndian, ByteOrder};
use hera_meaning::{Kind, Scalar, Schema};
use hera_rows::RowBuf;
use std::alloc::{AllocError, Global};

/// The row of the tuple with these fields, which has as many fields as the schema has attributes,
/// each of its attribute's kind.
pub fn encode(alloc: Global, schema: &Schema, fields: &[Scalar]) -> Result<RowBuf, AllocError>
    requires { have_kinds schema.now fields.now ≡ true }
    ensures row { IfOk result (λ row. row ≡ row_of fields.now) }
    ensures valid { IfOk result (λ row. IsRow schema.now row) }
{
    prove_eq!(schema.len(), fields.len());
    let mut row = Vec::new(alloc);
    for field in fields {
        push_field(&mut row, field)?;
    }
    Ok(RowBuf::from_vec(row))
}

/// Whether there are as many fields as attributes, each of its attribute's kind.
pub fn have_kinds(schema: &Schema, fields: &[Scalar]) -> bool
    ensures { result ≡ have_kinds schema.now fields.now }
{
    if schema.len() != fields.len() {
        return false;
    }
    for i in 0..fields.len() {
        if !is_kind(schema.attr(i).kind, &fields[i]) {
            return false;
        }
    }
    true
}

/// Puts the bytes of a field behind the others.
fn push_field(row: &mut Vec<u8>, field: &Scalar) -> Result<(), AllocError>
    ensures ok { OnOk result (row.new.items ≡ row.old.items ++ field_bytes field.now) }
    ensures valid { OnOk result (is_scalar field.now ≡ true) }
{
    match field {
        Scalar::Int(value) => push_int(row, *value)?,
        Scalar::Bool(value) => row.push(u8::from(*value))?,
        Scalar::Text(text) => {
            row.extend_from_slice(text.bytes())?;
            row.push(0)?;
        }
    }
    Ok(())
}

/// Puts the 8 bytes of an int behind the others.
pub(crate) fn push_int(row: &mut Vec<u8>, value: i64) -> Result<(), AllocError>
    ensures ok { OnOk result (row.new.items ≡ row.old.items ++ to_be_bytes w64 (shifted value)) }
    ensures valid { OnOk result (fits_int value ≡ true) }
{
    let mut bytes = [0; 8];
    BigEndian::write_u64(&mut bytes, shifted(value));
    row.extend_from_slice(&bytes)
}

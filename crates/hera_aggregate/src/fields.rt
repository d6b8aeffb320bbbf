//! The bytes of a field.
ghost use Rattle.std.specs.Prelude.{◌≡◌, ◌++◌, OnOk};
ghost use Rattle.std.specs.Int.{to_be_bytes, w64};
ghost use Rattle.hera_meaning.specs.Rows.{field_bytes, shifted};
ghost use Rattle.hera_row.specs.Fields.{told};

use hera_meaning::ScalarRef;
use hera_row::shifted;
use std::alloc::AllocError;

/// Puts the bytes of a field behind the others.
pub fn push_field(row: &mut Vec<u8>, value: ScalarRef<'_>) -> Result<(), AllocError>
    ensures { OnOk result (row.new.items ≡ row.old.items ++ field_bytes (told value.entry)) }
{
    match value {
        ScalarRef::Int(number) => row.extend_from_slice(&int_bytes(number))?,
        ScalarRef::Bool(truth) => row.push(u8::from(truth))?,
        ScalarRef::Text(bytes) => {
            row.extend_from_slice(bytes)?;
            row.push(0)?;
        }
    }
    Ok(())
}

/// The 8 bytes of the int plus 2^63, the highest first.
fn int_bytes(number: i64) -> [u8; 8]
    ensures { result ≡ to_be_bytes w64 (shifted number) }
{
    shifted(number).to_be_bytes()
}

//! The bytes of a row's fields, read in place.
ghost use Rattle.std.specs.Prelude.{◌≡◌, ◌≤◌, ◌++◌, length, nat_eq, OnOk, IfOk};
ghost use Rattle.hera_meaning.specs.Rows.{pieces, first_piece};
ghost use Rattle.hera_meaning.specs.Relations.{piece_at, at_places};

use hera_meaning::Schema;
use hera_row::piece_len;
use hera_rows::RowBuf;
use std::alloc::{AllocError, Global};

/// The bytes of the field at place `i` of a row of the schema, and none past the last.
pub fn piece<'a>(schema: &Schema, row: &'a [u8], i: usize) -> &'a [u8]
    ensures { result.now ≡ piece_at (pieces schema.now row.entry.now) i }
{
    let mut rest = row;
    for place in 0..schema.len() {
        let (front, others) = rest.split_at(piece_len(schema.attr(place).kind, rest));
        if place == i {
            return front;
        }
        rest = others;
    }
    &row[..0]
}

/// The row of the fields at these places of a row of the schema, in the order of the places.
pub fn at_places(
    alloc: Global,
    schema: &Schema,
    places: &[usize],
    row: &[u8],
) -> Result<RowBuf, AllocError>
    ensures { IfOk result (λ image. image ≡ at_places schema.now places.now row.now) }
{
    let mut image = Vec::new(alloc);
    for place in places {
        image.extend_from_slice(piece(schema, row, *place))?;
    }
    Ok(RowBuf::from_vec(image))
}

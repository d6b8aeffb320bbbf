//! The length of a row that is there.
ghost use Rattle.std.specs.Prelude.{◌≡◌, ◌≤◌, length, true, is_some, Some, nat_eq};
ghost use Rattle.std.specs.List.{position};
ghost use Rattle.hera_row.specs.Reading.{field_len, row_len_of};

use hera_meaning::{Kind, Schema};
use hera_row::zero_at;

/// The length of the row with which the bytes begin, where they begin with one. Its texts are not
/// looked at but for their ends.
pub(crate) fn leading_len(schema: &Schema, bytes: &[u8]) -> usize
    requires { is_some (row_len_of schema.now bytes.now) ≡ true }
    ensures length { row_len_of schema.now bytes.now ≡ Some result }
    ensures within { result ≤ length bytes.now }
{
    let mut rest = bytes;
    for place in 0..schema.len() {
        let n = piece_len(schema.attr(place).kind, rest);
        rest = rest.split_at(n).1;
    }
    bytes.len() - rest.len()
}

/// The length of the field with which the bytes begin, where they begin with one.
fn piece_len(kind: Kind, bytes: &[u8]) -> usize
    requires { is_some (field_len kind bytes.now) ≡ true }
    ensures length { field_len kind bytes.now ≡ Some result }
    ensures within { result ≤ length bytes.now }
{
    match kind {
        Kind::Int => 8,
        Kind::Bool => 1,
        Kind::Text => match zero_at(bytes) {
            Some(n) => n + 1,
            None => unreachable!(),
        },
    }
}

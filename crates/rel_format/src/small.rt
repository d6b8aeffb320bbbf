//! Numbers and rows at the front of bytes.
ghost use Rattle.std.specs.Prelude.{◌≡◌, ◌≤◌, drop, length, IfSome};
ghost use Rattle.std.specs.Int.{w16, w32};
ghost use Rattle.hera_row.specs.Reading.{row_len_of};
ghost use Rattle.rel_format.specs.Fields.{number};

use hera_meaning::Schema;
use hera_row::row_len;

/// The bytes from a place on.
pub fn rest_at(bytes: &[u8], at: usize) -> &[u8]
    requires { at ≤ length bytes.now }
    ensures { result.now ≡ drop at bytes.entry.now }
{
    bytes.split_at(at).1
}

/// The first two bytes, a number. None where there are fewer.
pub fn number16(bytes: &[u8]) -> Option<u16>
    ensures value { result ≡ number w16 bytes.now }
    ensures within { IfSome result (λ n. 2 ≤ length bytes.now) }
{
    if bytes.len() < 2 {
        return None;
    }
    Some(u16::from_be_bytes([bytes[0], bytes[1]]))
}

/// The first four bytes, a number. None where there are fewer.
pub fn number32(bytes: &[u8]) -> Option<u32>
    ensures value { result ≡ number w32 bytes.now }
    ensures within { IfSome result (λ n. 4 ≤ length bytes.now) }
{
    if bytes.len() < 4 {
        return None;
    }
    Some(u32::from_be_bytes([bytes[0], bytes[1], bytes[2], bytes[3]]))
}

/// The length of the row of a schema with which the bytes begin. None where they begin with none.
pub fn first_len(schema: &Schema, bytes: &[u8]) -> Option<usize>
    ensures value { result ≡ row_len_of schema.now bytes.now }
    ensures within { IfSome result (λ n. n ≤ length bytes.now) }
{
    row_len(schema, bytes)
}

//! Where the fields of a row end.
ghost use Rattle.std.specs.Prelude.{◌≡◌, ◌≤◌, length, nat_eq};
ghost use Rattle.std.specs.List.{position};
ghost use Rattle.hera_meaning.specs.Rows.{first_piece};

use hera_meaning::Kind;

/// The length of the field of this kind that stands first: 8 bytes for an int, one for a bool, and
/// up to the first zero byte and with it for a text. Where the bytes end before, they are the field.
pub fn piece_len(kind: Kind, bytes: &[u8]) -> usize
    ensures length { result ≡ length (first_piece kind bytes.now) }
    ensures within { result ≤ length bytes.now }
{
    match kind {
        Kind::Int => bytes.len().min(8),
        Kind::Bool => bytes.len().min(1),
        Kind::Text => match zero_at(bytes) {
            Some(n) => n + 1,
            None => bytes.len(),
        },
    }
}

/// Where the first zero byte stands.
pub fn zero_at(bytes: &[u8]) -> Option<usize>
    ensures { result ≡ position (λ b. nat_eq b 0) bytes.now }
{
    bytes.iter().position(|b| *b == 0)
}

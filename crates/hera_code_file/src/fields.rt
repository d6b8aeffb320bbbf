//! Single fields, and numbers.
ghost use Rattle.std.specs.Prelude.{◌≡◌, ℕ, nat_lt, nat_le, length, List};
ghost use Rattle.std.specs.Int.{w16, w32, w64};
ghost use Rattle.hera_code_file.specs.Reading.{Gives, field, small, number_at, word_at, flag_at, sign_at, relation_id_at};

use crate::stop::Stop;
use hera_meaning::{RelId, Sign};
use rel_format::{number16, number32};

/// The bytes begin with a field that breaks its rule.
pub(crate) fn bad(bytes: &[u8]) -> Stop
    ensures { result ≡ Stop.Bad (length bytes.now) }
{
    Stop::Bad { left: bytes.len() }
}

/// A byte below a limit.
pub(crate) fn small(bytes: &[u8], limit: u8) -> Result<(u8, &[u8]), Stop>
    ensures { Gives (λ x. (x.0, x.1.now)) result (small limit bytes.now) }
{
    match bytes {
        [n, rest @ ..] if *n < limit => Ok((*n, rest)),
        _ => Err(bad(bytes)),
    }
}

/// A number of two bytes.
pub(crate) fn half_word(bytes: &[u8]) -> Result<(u16, &[u8]), Stop>
    ensures { Gives (λ x. (x.0, x.1.now)) result (number_at w16 bytes.now) }
{
    match number16(bytes) {
        Some(n) => Ok((n, bytes.split_at(2).1)),
        None => Err(bad(bytes)),
    }
}

/// A number of four bytes.
pub(crate) fn word(bytes: &[u8]) -> Result<(u32, &[u8]), Stop>
    ensures { Gives (λ x. (x.0, x.1.now)) result (word_at bytes.now) }
{
    match number32(bytes) {
        Some(n) => Ok((n, bytes.split_at(4).1)),
        None => Err(bad(bytes)),
    }
}

/// A number of eight bytes.
pub(crate) fn double_word(bytes: &[u8]) -> Result<(u64, &[u8]), Stop>
    ensures { Gives (λ x. (x.0, x.1.now)) result (number_at w64 bytes.now) }
{
    if bytes.len() < 8 {
        return Err(bad(bytes));
    }
    let (front, rest) = bytes.split_at(8);
    let number = u64::from_be_bytes([
        front[0], front[1], front[2], front[3], front[4], front[5], front[6], front[7],
    ]);
    Ok((number, rest))
}

/// A byte 0 or 1.
pub(crate) fn flag(bytes: &[u8]) -> Result<(bool, &[u8]), Stop>
    ensures { Gives (λ x. (x.0, x.1.now)) result (flag_at bytes.now) }
{
    let (n, rest) = small(bytes, 2)?;
    Ok((n > 0, rest))
}

/// A sign, 1 for plus or 2 for minus.
pub(crate) fn sign(bytes: &[u8]) -> Result<(Sign, &[u8]), Stop>
    ensures { Gives (λ x. (x.0, x.1.now)) result (sign_at bytes.now) }
{
    match bytes {
        [1, rest @ ..] => Ok((Sign::Plus, rest)),
        [2, rest @ ..] => Ok((Sign::Minus, rest)),
        _ => Err(bad(bytes)),
    }
}

/// The number of a relation.
pub(crate) fn relation_id(bytes: &[u8]) -> Result<(RelId, &[u8]), Stop>
    ensures { Gives (λ x. (x.0, x.1.now)) result (relation_id_at bytes.now) }
{
    let (n, rest) = half_word(bytes)?;
    Ok((RelId(n), rest))
}

//! Ints with 2^63 added: numbers from 0, in the order of the ints.
ghost use Rattle.std.specs.Prelude.{◌≡◌, ◌-ℤ◌, ◌^◌, pos};
ghost use Rattle.hera_meaning.specs.Rows.{shifted};

/// The int plus 2^63.
pub fn shifted(value: i64) -> u64
    ensures { result ≡ shifted value }
{
    if value >= 0 {
        value as u64 + (1 << 63)
    } else {
        (value - i64::MIN) as u64
    }
}

/// The number less 2^63.
pub fn unshifted(number: u64) -> i64
    ensures { result ≡ pos number -ℤ pos (2 ^ 63) }
{
    if number >= 1 << 63 {
        (number - (1 << 63)) as i64
    } else {
        number as i64 + i64::MIN
    }
}

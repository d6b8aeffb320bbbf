//! Rows without their first bytes.
ghost use Rattle.std.specs.Prelude.{◌≡◌, drop};

/// The bytes behind the first `skip`.
pub fn behind(row: &[u8], skip: usize) -> &[u8]
    ensures { result.now ≡ drop skip row.now }
{
    &row[skip.min(row.len())..]
}

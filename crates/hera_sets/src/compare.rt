//! Byte strings compared: the one code behind sameness and order of rows, names and texts.
ghost use Rattle.std.specs.Prelude.{◌≡◌};
ghost use Rattle.std.specs.Ordering.{nat_cmp};
ghost use Rattle.std.specs.Cmp.Lexicographic.{slice_cmp};
ghost use Rattle.hera_sets.specs.Rows.{is_below, is_same};

use std::cmp::Ordering;

/// How the first stands to the second in byte order: as the first bytes in which they differ do, and where one
/// goes on where the other ends, the shorter one is less. Eight bytes are compared at a time.
pub fn byte_order(a: &[u8], b: &[u8]) -> Ordering
    ensures { result ≡ slice_cmp nat_cmp a.now b.now }
{
    let (mut left, mut right) = (a, b);
    while let (Some((x, behind_x)), Some((y, behind_y))) = (
        left.split_first_chunk::<8>(),
        right.split_first_chunk::<8>(),
    ) {
        let (x, y) = (u64::from_be_bytes(*x), u64::from_be_bytes(*y));
        if x != y {
            return x.cmp(&y);
        }
        left = behind_x;
        right = behind_y;
    }
    if left.is_empty() || right.is_empty() {
        return left.len().cmp(&right.len());
    }
    left.cmp(right)
}

/// Whether both are the same bytes.
#[tactic(auto, unfolding(crate::specs::Rows::is_same))]
pub fn is_same(a: &[u8], b: &[u8]) -> bool
    ensures { result ≡ is_same a.now b.now }
{
    byte_order(a, b).is_eq()
}

/// Whether the first stands before the second in byte order: at the first byte in which they differ
/// it has the lesser, or it ends where the second goes on.
#[tactic(auto, unfolding(crate::specs::Rows::is_below))]
pub fn is_below(a: &[u8], b: &[u8]) -> bool
    ensures { result ≡ is_below a.now b.now }
{
    byte_order(a, b).is_lt()
}

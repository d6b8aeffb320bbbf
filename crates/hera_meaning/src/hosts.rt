//! What host functions do.

use crate::scalars::Text;

/// What a host function answers for its argument.
#[derive(Drop)]
pub enum HostSpec {
    /// Of an int: whether it lies from `lo` to `hi`.
    Band { lo: i64, hi: i64 },
    /// Of an int: the greatest integer not above the quotient by `width`, which is at least 1.
    Bucket { width: u32 },
    /// Of a text: whether it begins with `text`.
    Prefix { text: Text },
    /// Of an int: the int itself, or the nearer end where it lies outside `lo` to `hi`.
    Clamp { lo: i64, hi: i64 },
}

/// What a host function gives back.
#[derive(Clone, Copy, PartialEq, Eq, Debug)]
pub enum HostAnswer {
    Int(i64),
    Bool(bool),
}

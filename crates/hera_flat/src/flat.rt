//! Ints and bools.

/// An int from -2^63 to 2^63-1, or a bool.
#[derive(Clone, Copy, PartialEq, Eq, Debug)]
pub enum Flat {
    /// An int.
    Int(i64),
    /// A bool.
    Bool(bool),
}

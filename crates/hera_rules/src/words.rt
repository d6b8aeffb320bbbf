//! The parts of phrases that hold no phrase.

use hera_meaning::{Kind, Name, Op};

/// A name, and the offset at which it stands.
#[derive(Drop)]
pub struct Word {
    pub name: Name,
    pub at: u32,
}

/// `-` or `!` before an operand.
#[derive(Clone, Copy)]
pub enum Prefix {
    Minus,
    Not,
}

/// `count`, `empty` or `isfail`.
#[derive(Clone, Copy)]
pub enum Test {
    Count,
    Empty,
    IsFail,
}

/// What joins two operands of a chain: `when`, `&&`, `||`, or an operator with its operation. The
/// operators are `+ - * / %`, then `== !=`, then `< <= > >=`, then `in`, and `!` and `&` between deltas.
#[derive(Drop)]
pub enum Joint {
    When,
    And,
    Or,
    Arithmetic(Op),
    Equality(Op),
    Order(Op),
    Member,
    Deltas(Op),
}

/// `select` or `map`.
#[derive(Clone, Copy)]
pub enum WalkKind {
    Keeping,
    Mapping,
}

/// `union`, `minus` and `inter` with their operation; `join`.
#[derive(Drop)]
pub enum Pair {
    Sets(Op),
    Join,
}

/// `sum`, `min` or `max`.
#[derive(Clone, Copy)]
pub enum Fold {
    Sum,
    Least,
    Greatest,
}

/// A new name of an attribute, and the old one.
#[derive(Drop)]
pub struct Renamed {
    pub new: Word,
    pub old: Word,
}

/// What an aggregate of a group computes: the number of tuples, or a fold of an attribute.
#[derive(Drop)]
pub enum Measured {
    Count,
    Of(Fold, Word),
}

/// An aggregate of a group with its name.
#[derive(Drop)]
pub struct Aggregate {
    pub name: Word,
    pub of: Measured,
}

/// An attribute of a written schema.
#[derive(Drop)]
pub struct Field {
    pub name: Word,
    pub kind: Kind,
}

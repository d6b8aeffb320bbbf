//! Scalars, texts, numbers of relations and signs.

ghost use Rattle.std.specs.Prelude.{◌≡◌, IfOk, IfErr, OnOk};
ghost use Rattle.hera_meaning.specs.Texts.{IsText};

use std::alloc::{AllocError, Global};
use std::marker::Model;
use thiserror::Error;

/// The most bytes of a text.
pub const TEXT_LIMIT: usize = 1023;

/// The most bytes of an identifier.
pub const NAME_LIMIT: usize = 255;

/// A text: UTF-8 of at most 1,023 bytes without U+0000. Its bytes lie behind one pointer, so that a scalar is small.
#[derive(Drop)]
pub struct Text {
    bytes: Box<Vec<u8>>,
}

impl Model for Text {
    ghost use Rattle.std.specs.Prelude.{ℕ, List};
    ghost use Rattle.hera_meaning.specs.Texts.{IsText};

    ghost Value = { List ℕ };

    ghost view = { λ t. t.bytes.value.items };

    ghost invariant = { λ t. IsText t.bytes.value.items };
}

/// Why bytes are no text. The causes are tested in this order, memory last.
#[derive(Debug, Drop, Error)]
pub enum TextFault {
    /// The bytes are not UTF-8.
    #[error("the text is not UTF-8")]
    BadUtf8,
    /// A byte is 0.
    #[error("the text has a zero byte")]
    HasZero,
    /// There are more than 1,023 bytes.
    #[error("the text is longer than 1,023 bytes")]
    TooLong,
    /// No memory for a copy of the bytes.
    #[error("out of memory")]
    Memory,
}

impl Text {
    ghost use Rattle.hera_meaning.specs.TextFaults.{IsTextFault};

    /// The text of these bytes. The first broken rule is reported, in the order of `TextFault`.
    pub fn new(alloc: Global, bytes: &[u8]) -> Result<Text, TextFault>
        ensures bytes { IfOk result (λ text. text ≡ bytes.now) }
        ensures valid { OnOk result (IsText bytes.now) }
        ensures refused { IfErr result (IsTextFault bytes.now) }
    {
        if std::str::from_utf8(bytes).is_err() {
            return Err(TextFault::BadUtf8);
        }
        if bytes.contains(&0) {
            return Err(TextFault::HasZero);
        }
        if bytes.len() > TEXT_LIMIT {
            return Err(TextFault::TooLong);
        }
        match boxed(alloc, bytes) {
            Ok(bytes) => Ok(Text { bytes }),
            Err(_) => Err(TextFault::Memory),
        }
    }

    /// The bytes.
    pub fn bytes(&self) -> &[u8]
        ensures bytes { result.now ≡ self.now }
        ensures valid { IsText self.now }
    {
        &self.bytes
    }

    /// A copy.
    pub fn copy(&self) -> Result<Text, AllocError>
        ensures { IfOk result (λ text. text ≡ self.now) }
    {
        let alloc = *self.bytes.allocator();
        Ok(Text {
            bytes: boxed(alloc, &self.bytes)?,
        })
    }
}

/// A copy of the bytes, on the heap.
fn boxed(alloc: Global, bytes: &[u8]) -> Result<Box<Vec<u8>>, AllocError>
    ensures { IfOk result (λ copy. copy.value.items ≡ bytes.now) }
{
    Ok(Box::new(alloc, Vec::from_slice(alloc, bytes)?)?)
}

/// The name of a relation, an attribute, a func or a proc.
pub type Name = Text;

/// What a scalar is.
#[derive(Clone, Copy, PartialEq, Eq, Debug)]
pub enum Kind {
    Int,
    Bool,
    Text,
}

/// A scalar: an int from -2^63 to 2^63-1, a bool or a text.
#[derive(Drop)]
pub enum Scalar {
    Int(i64),
    Bool(bool),
    Text(Text),
}

impl Scalar {
    /// A copy.
    pub fn copy(&self) -> Result<Scalar, AllocError>
        ensures { IfOk result (λ scalar. scalar ≡ self.now) }
    {
        match self {
            Scalar::Int(v) => Ok(Scalar::Int(*v)),
            Scalar::Bool(b) => Ok(Scalar::Bool(*b)),
            Scalar::Text(text) => Ok(Scalar::Text(text.copy()?)),
        }
    }
}

/// A scalar whose text lies elsewhere.
#[derive(Clone, Copy)]
pub enum ScalarRef<'a> {
    Int(i64),
    Bool(bool),
    Text(&'a [u8]),
}

/// The number of a relation: its place in the catalogue.
#[derive(Clone, Copy, PartialEq, Eq, Debug)]
pub struct RelId(pub u16);

/// The sign of an atom: whether it adds its tuple or takes it away.
#[derive(Clone, Copy, PartialEq, Eq, Debug)]
pub enum Sign {
    Plus,
    Minus,
}

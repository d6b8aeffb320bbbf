//! Attributes, schemas, declarations of relations, places and aggregates.

ghost use Rattle.std.specs.Prelude.{◌≡◌, ◌<◌, ◌↔◌, IfOk, IfErr, IsTrue, length, slice_get, MatchOption, take, Some};
ghost use Rattle.hera_sets.specs.Rows.{is_same};
ghost use Rattle.hera_meaning.specs.Schemas.{AreDistinct, names_of, place_named};
ghost use Rattle.hera_meaning.specs.SchemaFaults.{IsFirstRepeat};

use crate::scalars::{Kind, Name};
use hera_sets::is_same;
use std::alloc::{AllocError, Global};
use std::marker::Model;
use thiserror::Error;

/// The most attributes of a schema.
pub const ATTRS_LIMIT: usize = 16;

/// The most relations of a catalogue.
pub const RELATIONS_LIMIT: usize = 256;

/// A named field of a tuple.
#[derive(Drop)]
pub struct Attr {
    pub name: Name,
    pub kind: Kind,
}

impl Attr {
    /// A copy.
    pub fn copy(&self) -> Result<Attr, AllocError>
        ensures { IfOk result (λ attr. attr ≡ self.now) }
    {
        Ok(Attr {
            name: self.name.copy()?,
            kind: self.kind,
        })
    }
}

/// From 1 to 16 attributes with distinct names.
#[derive(Drop)]
pub struct Schema {
    attrs: Vec<Attr>,
}

impl Model for Schema {
    ghost use Rattle.std.specs.Prelude.{List};
    ghost use Rattle.hera_meaning.specs.declared.schemas.Attr.{Attr};

    ghost Value = { List Attr };

    ghost use Rattle.hera_meaning.specs.Schemas.{IsSchema};

    ghost view = { λ s. s.attrs.items };

    ghost invariant = { λ s. IsSchema s.attrs.items };
}

/// Why attributes are no schema. The causes are tested in this order.
#[derive(Debug, Drop, Error)]
pub enum SchemaFault {
    /// There is no attribute.
    #[error("a schema needs an attribute")]
    Empty,
    /// There are more than 16 attributes.
    #[error("a schema has at most 16 attributes")]
    TooMany,
    /// The first attribute whose name stands before, counted from 0.
    #[error("two attributes have one name")]
    Repeated { second: usize },
}

impl Schema {
    ghost use Rattle.hera_meaning.specs.Schemas.{IsSchema};
    ghost use Rattle.hera_meaning.specs.SchemaFaults.{IsSchemaFault};

    /// The schema of these attributes. The first broken rule is reported, in the order of
    /// `SchemaFault`. It takes no memory.
    pub fn new(attrs: Vec<Attr>) -> Result<Schema, SchemaFault>
        ensures attrs { IfOk result (λ schema. schema ≡ attrs.items) }
        ensures valid { IfOk result (λ schema. IsSchema schema) }
        ensures refused { IfErr result (IsSchemaFault attrs.items) }
    {
        if attrs.is_empty() {
            return Err(SchemaFault::Empty);
        }
        if attrs.len() > ATTRS_LIMIT {
            return Err(SchemaFault::TooMany);
        }
        match first_repeat(&attrs) {
            Some(second) => Err(SchemaFault::Repeated { second }),
            None => Ok(Schema { attrs }),
        }
    }

    /// The number of attributes.
    pub fn len(&self) -> usize
        ensures count { result ≡ length self.now }
        ensures valid { IsSchema self.now }
    {
        self.attrs.len()
    }

    /// The attribute at this place.
    pub fn attr(&self, i: usize) -> &Attr
        requires { i < length self.now }
        ensures attr { slice_get self.now i ≡ Some result.now }
        ensures valid { IsSchema self.now }
    {
        &self.attrs[i]
    }

    /// The place of the attribute of this name.
    pub fn position(&self, name: &[u8]) -> Option<usize>
        ensures place { result ≡ place_named name.now self.now }
        ensures valid { IsSchema self.now }
    {
        place_of(&self.attrs, name)
    }

    /// Whether the other schema has the same names and kinds in the same order.
    pub fn same(&self, other: &Schema) -> bool
        ensures { IsTrue result ↔ (self.now ≡ other.now) }
    {
        same_attrs(&self.attrs, &other.attrs)
    }

    /// A copy.
    pub fn copy(&self) -> Result<Schema, AllocError>
        ensures { IfOk result (λ schema. schema ≡ self.now) }
    {
        let attrs = copied(*self.attrs.allocator(), &self.attrs)?;
        Ok(Schema { attrs })
    }
}

/// A copy of the attributes.
fn copied(alloc: Global, attrs: &[Attr]) -> Result<Vec<Attr>, AllocError>
    ensures { IfOk result (λ copy. copy.items ≡ attrs.now) }
{
    let mut copy = Vec::new(alloc);
    for attr in attrs {
        copy.push(attr.copy()?)?;
    }
    Ok(copy)
}

/// Whether the attribute has this name.
fn is_named(attr: &Attr, name: &[u8]) -> bool
    ensures { result ≡ is_same name.now attr.now.name }
{
    is_same(name, attr.name.bytes())
}

/// The place of the first attribute of this name.
fn place_of(attrs: &[Attr], name: &[u8]) -> Option<usize>
    ensures { result ≡ place_named name.now attrs.now }
{
    attrs.iter().position(|attr| is_named(attr, name))
}

/// The first place whose name stands before.
fn first_repeat(attrs: &[Attr]) -> Option<usize>
    ensures { MatchOption result (AreDistinct (names_of attrs.now)) (IsFirstRepeat (names_of attrs.now)) }
{
    for i in 0..attrs.len() {
        if place_of(&attrs[..i], attrs[i].name.bytes()).is_some() {
            return Some(i);
        }
    }
    None
}

/// Whether both list the same names and kinds in the same order.
fn same_attrs(a: &[Attr], b: &[Attr]) -> bool
    ensures { IsTrue result ↔ (a.now ≡ b.now) }
{
    if a.len() != b.len() {
        return false;
    }
    for i in 0..a.len() {
        if !same_attr(&a[i], &b[i]) {
            return false;
        }
    }
    true
}

/// Whether both have the same name and kind.
fn same_attr(a: &Attr, b: &Attr) -> bool
    ensures { IsTrue result ↔ (a.now ≡ b.now) }
{
    a.kind == b.kind && a.name.bytes() == b.name.bytes()
}

/// A relation's name and schema.
#[derive(Drop)]
pub struct RelDecl {
    pub name: Name,
    pub schema: Schema,
}

impl RelDecl {
    /// A copy.
    pub fn copy(&self) -> Result<RelDecl, AllocError>
        ensures { IfOk result (λ decl. decl ≡ self.now) }
    {
        Ok(RelDecl {
            name: self.name.copy()?,
            schema: self.schema.copy()?,
        })
    }
}

/// What a group computes of the tuples of one key: how many there are, or the sum, the least or the
/// greatest of the field at a place.
#[derive(Clone, Copy, PartialEq, Eq, Debug)]
pub enum Agg {
    Count,
    Sum(usize),
    Min(usize),
    Max(usize),
}

/// Places of attributes, counted from 0.
#[derive(Drop)]
pub struct Places {
    items: Vec<usize>,
}

impl Model for Places {
    ghost use Rattle.std.specs.Prelude.{ℕ, List};

    ghost Value = { List ℕ };

    ghost view = { λ p. p.items.items };
}

impl Places {
    /// These places. It takes no memory.
    pub fn new(items: Vec<usize>) -> Places
        ensures { result ≡ items.items }
    {
        Places { items }
    }

    /// The places in order.
    pub fn items(&self) -> &[usize]
        ensures { result.now ≡ self.now }
    {
        &self.items
    }

    /// A copy.
    pub fn copy(&self) -> Result<Places, AllocError>
        ensures { IfOk result (λ places. places ≡ self.now) }
    {
        let mut items = Vec::new(*self.items.allocator());
        items.extend_from_slice(&self.items)?;
        Ok(Places { items })
    }
}

/// Aggregates of a group.
#[derive(Drop)]
pub struct Aggs {
    items: Vec<Agg>,
}

impl Model for Aggs {
    ghost use Rattle.std.specs.Prelude.{List};
    ghost use Rattle.hera_meaning.specs.declared.schemas.Agg.{Agg};

    ghost Value = { List Agg };

    ghost view = { λ a. a.items.items };
}

impl Aggs {
    /// These aggregates. It takes no memory.
    pub fn new(items: Vec<Agg>) -> Aggs
        ensures { result ≡ items.items }
    {
        Aggs { items }
    }

    /// The aggregates in order.
    pub fn items(&self) -> &[Agg]
        ensures { result.now ≡ self.now }
    {
        &self.items
    }

    /// A copy.
    pub fn copy(&self) -> Result<Aggs, AllocError>
        ensures { IfOk result (λ aggs. aggs ≡ self.now) }
    {
        let mut items = Vec::new(*self.items.allocator());
        items.extend_from_slice(&self.items)?;
        Ok(Aggs { items })
    }
}

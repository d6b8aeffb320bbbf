//! Forms in which lists of kinds are numbers, so that they are copied and compared at once.
ghost use Rattle.std.specs.Prelude.{◌≡◌, ◌+◌, ◌*◌, ◌↔◌, cond, is_some, map, IsTrue, IfOk};
ghost use Rattle.hera_meaning.specs.Schemas.{place_named};
ghost use Rattle.hera_meaning.specs.Relations.{lacking};
ghost use Rattle.hera_meaning.specs.Forms.{kinds_of, form_of, join_kinds, group_kinds, kind_at, agg_kind, project_kinds};
ghost use Rattle.hera_stacks.specs.Flat.{digit, numbered, flat_kinds, flat_form, same_flat};

use hera_meaning::{Agg, Attr, Kind, Schema, Shape};
use std::alloc::AllocError;

/// The kinds of attributes: digits of base 4, the last kind's lowest.
#[derive(Clone, Copy)]
pub struct Kinds {
    pub digits: u64,
}

/// A form, without attribute names.
#[derive(Clone, Copy)]
pub enum FlatForm {
    Scalar(Kind),
    Tuple(Kinds),
    Table(Kinds),
    Delta,
}

/// What is known of a value: its form, or that it is the relation of no tuples, whose schema nobody names.
#[derive(Clone, Copy)]
pub enum FlatSeen {
    Known(FlatForm),
    NoRows,
}

/// Whether both are the same form.
pub fn same_form(a: FlatForm, b: FlatForm) -> bool
    ensures same { IsTrue result ↔ (a ≡ b) }
    ensures flat { result ≡ same_flat a b }
{
    match (a, b) {
        (FlatForm::Scalar(k), FlatForm::Scalar(l)) => k == l,
        (FlatForm::Tuple(k), FlatForm::Tuple(l)) => k.digits == l.digits,
        (FlatForm::Table(k), FlatForm::Table(l)) => k.digits == l.digits,
        (FlatForm::Delta, FlatForm::Delta) => true,
        _ => false,
    }
}

/// The digit of a kind.
fn digit(kind: Kind) -> u64
    ensures { result ≡ digit kind }
{
    match kind {
        Kind::Int => 1,
        Kind::Bool => 2,
        Kind::Text => 3,
    }
}

/// No kinds.
pub fn no_kinds() -> Kinds
    ensures { result.digits ≡ 0 }
{
    Kinds { digits: 0 }
}

impl Kinds {
    /// These and one more. There is place for 31; a relation has at most 16.
    fn and(self, kind: Kind) -> Result<Kinds, AllocError>
        ensures { IfOk result (λ kinds. kinds.digits ≡ 4 * self.digits + digit kind) }
    {
        if self.digits >= 1 << 60 {
            return Err(AllocError);
        }
        Ok(Kinds {
            digits: 4 * self.digits + digit(kind),
        })
    }
}

/// The kinds of a schema behind others.
fn and_schema(kinds: Kinds, schema: &Schema) -> Result<Kinds, AllocError>
    ensures { IfOk result (λ all. all.digits ≡ numbered kinds.digits (kinds_of schema.now)) }
{
    let mut all = kinds;
    for i in 0..schema.len() {
        all = all.and(schema.attr(i).kind)?;
    }
    Ok(all)
}

/// The kind of an attribute behind others, if the left schema lacks it.
fn and_if_lacking(kinds: Kinds, left: &Schema, attr: &Attr) -> Result<Kinds, AllocError>
    ensures { IfOk result (λ all. all.digits ≡ cond (is_some (place_named attr.now.name left.now)) kinds.digits (4 * kinds.digits + digit attr.now.kind)) }
{
    if left.position(attr.name.bytes()).is_some() {
        return Ok(kinds);
    }
    kinds.and(attr.kind)
}

/// The kinds of the attributes that the left schema lacks, behind others.
fn and_lacking(kinds: Kinds, left: &Schema, right: &Schema) -> Result<Kinds, AllocError>
    ensures { IfOk result (λ all. all.digits ≡ numbered kinds.digits (kinds_of (lacking left.now right.now))) }
{
    let mut all = kinds;
    for i in 0..right.len() {
        all = and_if_lacking(all, left, right.attr(i))?;
    }
    Ok(all)
}

/// The kind at a place, that of ints behind the last.
pub fn kind_at(schema: &Schema, i: usize) -> Kind
    ensures { result ≡ kind_at schema.now i }
{
    if i < schema.len() {
        schema.attr(i).kind
    } else {
        Kind::Int
    }
}

/// The kinds at these places, behind others.
fn and_places(kinds: Kinds, schema: &Schema, places: &[usize]) -> Result<Kinds, AllocError>
    ensures { IfOk result (λ all. all.digits ≡ numbered kinds.digits (project_kinds schema.now places.now)) }
{
    let mut all = kinds;
    for place in places {
        all = all.and(kind_at(schema, *place))?;
    }
    Ok(all)
}

/// The kind of an aggregate.
fn agg_kind(schema: &Schema, agg: Agg) -> Kind
    ensures { result ≡ agg_kind schema.now agg }
{
    match agg {
        Agg::Count => Kind::Int,
        Agg::Sum(_) => Kind::Int,
        Agg::Min(i) => kind_at(schema, i),
        Agg::Max(i) => kind_at(schema, i),
    }
}

/// The kinds of the aggregates, behind others.
fn and_aggs(kinds: Kinds, schema: &Schema, aggs: &[Agg]) -> Result<Kinds, AllocError>
    ensures { IfOk result (λ all. all.digits ≡ numbered kinds.digits (map (agg_kind schema.now) aggs.now)) }
{
    let mut all = kinds;
    for agg in aggs {
        all = all.and(agg_kind(schema, *agg))?;
    }
    Ok(all)
}

/// The kinds of a schema: 31 at most, else `AllocError`.
pub fn kinds_of(schema: &Schema) -> Result<Kinds, AllocError>
    ensures { IfOk result (λ kinds. kinds ≡ flat_kinds (kinds_of schema.now)) }
{
    and_schema(no_kinds(), schema)
}

/// The kinds of a projection: 31 at most, else `AllocError`.
pub fn project_kinds(schema: &Schema, places: &[usize]) -> Result<Kinds, AllocError>
    ensures { IfOk result (λ kinds. kinds ≡ flat_kinds (project_kinds schema.now places.now)) }
{
    and_places(no_kinds(), schema, places)
}

/// The kinds of a group, its keys and then its aggregates: 31 at most, else `AllocError`.
pub fn group_kinds(schema: &Schema, by: &[usize], aggs: &[Agg]) -> Result<Kinds, AllocError>
    ensures { IfOk result (λ kinds. kinds ≡ flat_kinds (group_kinds schema.now by.now aggs.now)) }
{
    let keys = and_places(no_kinds(), schema, by)?;
    and_aggs(keys, schema, aggs)
}

/// The kinds of a join: 31 at most, else `AllocError`.
pub fn join_kinds(left: &Schema, right: &Schema) -> Result<Kinds, AllocError>
    ensures { IfOk result (λ kinds. kinds ≡ flat_kinds (join_kinds left.now right.now)) }
{
    let kinds = and_schema(no_kinds(), left)?;
    and_lacking(kinds, left, right)
}

/// The form of a shape, with 31 kinds at most, else `AllocError`.
pub fn form_of(shape: &Shape) -> Result<FlatForm, AllocError>
    ensures { IfOk result (λ form. form ≡ flat_form (form_of shape.now)) }
{
    match shape {
        Shape::Int => Ok(FlatForm::Scalar(Kind::Int)),
        Shape::Bool => Ok(FlatForm::Scalar(Kind::Bool)),
        Shape::Text => Ok(FlatForm::Scalar(Kind::Text)),
        Shape::Tuple(schema) => Ok(FlatForm::Tuple(kinds_of(schema)?)),
        Shape::Rel(schema) => Ok(FlatForm::Table(kinds_of(schema)?)),
        Shape::Delta => Ok(FlatForm::Delta),
    }
}

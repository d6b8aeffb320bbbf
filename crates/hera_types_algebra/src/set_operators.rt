//! Project, union, minus, inter and join.

ghost use Rattle.hera_meaning.specs.Plain.{expr_of};
ghost use Rattle.hera_meaning.specs.Relations.{has_name as has_attr_named, lacking};
ghost use Rattle.hera_meaning.specs.Scalars.{is_same_kind};
ghost use Rattle.hera_rules.specs.Agrees.{Gives, typing_of};
ghost use Rattle.hera_rules.specs.Rules.{attr_in, join_type, kinds_agree, pair_row, places_in, project_row, sets_of};
ghost use Rattle.hera_sets.specs.Rows.{is_same};
ghost use Rattle.hera_types_parts.specs.Operations.{over_one, over_two};
ghost use Rattle.hera_types_algebra.specs.Tests.{are_same_rels};
ghost use Rattle.std.specs.List.{list_all};
ghost use Rattle.std.specs.Prelude.{IfErr, IfOk, OnOk, [], cond, map, not, ◌++◌, ◌∷◌, ◌||◌, ◌≡◌};
ghost use Rattle.hera_meaning.specs.declared.trees.Op.TheVariants as ops;
ghost use Rattle.hera_meaning.specs.declared.trees.Shape.TheVariants as shapes;
ghost use Rattle.hera_rules.specs.declared.fault.TypeFault.TheVariants as fault;

use hera_meaning::{ATTRS_LIMIT, Attr, Op, Schema, Shape};
use hera_rules::{Pair, TypeFault, Typed, Word};
use hera_sets::is_same;
use hera_types_parts::{
    Operation, add_attrs, binary, distinct_names, into_core, made, on_one, on_two, place_of_name,
    places_of, put, same_kind, same_schema, stranger_of,
};
use std::alloc::{AllocError, Global};

/// `project`: a rel, distinct names in it.
pub fn check_project(
    alloc: Global,
    at: u32,
    words: Vec<Word>,
    value: Typed,
) -> Result<Typed, TypeFault>
    ensures { Gives typing_of result (project_row at words.items (typing_of value)) }
{
    match projection(alloc, at, &words, &value) {
        Ok(operation) => on_one(alloc, operation, value, at),
        Err(fault) => {
            drop(value);
            Err(fault)
        }
    }
}

/// The operation of a `project`.
fn projection(alloc: Global, at: u32, words: &[Word], value: &Typed) -> Result<Operation, TypeFault>
    ensures { Gives (over_one (expr_of value.now.core) at) result (project_row at words.now (typing_of value.now)) }
{
    let Shape::Rel(schema) = &value.shape else {
        distinct_names(alloc, words)?;
        return Err(TypeFault::Mismatch { at });
    };
    if let Some(fault) = stranger_of(schema, words) {
        return Err(fault);
    }
    distinct_names(alloc, words)?;
    projected(alloc, words, schema)
}

/// The operation of a `project` that breaks no rule.
fn projected(alloc: Global, words: &[Word], schema: &Schema) -> Result<Operation, TypeFault>
    ensures shape { IfOk result (λ o. o.shape ≡ shapes.Rel (map (attr_in schema.now) words.now)) }
    ensures op { IfOk result (λ o. o.op ≡ ops.Project schema.now (places_in schema.now words.now)) }
    ensures refused { IfErr result (λ f. f ≡ fault.Memory) }
{
    let places = places_of(alloc, schema, words)?;
    let mut attrs = Vec::new(alloc);
    add_attrs(&mut attrs, schema, words)?;
    let result = made(attrs)?;
    let own = schema.copy()?;
    Ok(Operation {
        op: Op::Project(own, places),
        shape: Shape::Rel(result),
    })
}

/// `union`, `minus`, `inter`: rels of equal schemas; `join`: common names of one kind, at most 16 in all.
pub fn check_pair(
    alloc: Global,
    pair: Pair,
    at: u32,
    left: Typed,
    right: Typed,
) -> Result<Typed, TypeFault>
    ensures { Gives typing_of result (pair_row pair at (typing_of left) (typing_of right)) }
{
    match pair {
        Pair::Sets(op) => check_sets(alloc, op, at, left, right),
        Pair::Join => check_join(alloc, at, left, right),
    }
}

/// Whether the types are rels of equal schemas.
fn same_rels(left: &Shape, right: &Shape) -> bool
    ensures { result ≡ are_same_rels left.now right.now }
{
    match left {
        Shape::Rel(own) => match right {
            Shape::Rel(other) => same_schema(own, other),
            _ => false,
        },
        _ => false,
    }
}

/// `union`, `minus`, `inter`: rels of equal schemas.
fn check_sets(alloc: Global, op: Op, at: u32, left: Typed, right: Typed) -> Result<Typed, TypeFault>
    ensures { Gives typing_of result (sets_of op at (expr_of left.core) (expr_of right.core) left.shape right.shape) }
{
    if !same_rels(&left.shape, &right.shape) {
        drop((op, left, right));
        return Err(TypeFault::Mismatch { at });
    }
    let Typed { shape, core } = left;
    match binary(alloc, op, core, into_core(right), at) {
        Ok(whole) => Ok(Typed { shape, core: whole }),
        Err(_) => {
            drop(shape);
            Err(TypeFault::Memory)
        }
    }
}

/// Whether one of the attributes has this name.
fn has_attr(attrs: &Schema, name: &[u8]) -> bool
    ensures { result ≡ has_attr_named attrs.now name.now }
{
    place_of_name(attrs, name).is_some()
}

/// The attributes of the left schema, and those of the right schema that the left lacks.
fn joined_attrs(alloc: Global, left: &Schema, right: &Schema) -> Result<Vec<Attr>, AllocError>
    ensures { IfOk result (λ attrs. attrs.items ≡ left.now ++ lacking left.now right.now) }
{
    let mut attrs = copied_attrs(alloc, left)?;
    for i in 0..right.len() {
        add_lacking(&mut attrs, left, right.attr(i))?;
    }
    Ok(attrs)
}

/// The attributes of a schema.
fn copied_attrs(alloc: Global, schema: &Schema) -> Result<Vec<Attr>, AllocError>
    ensures { IfOk result (λ attrs. attrs.items ≡ schema.now) }
{
    let mut attrs = Vec::new(alloc);
    for i in 0..schema.len() {
        let copy = schema.attr(i).copy()?;
        put(&mut attrs, copy)?;
    }
    Ok(attrs)
}

/// An attribute more, unless the left schema has one of its name.
fn add_lacking(attrs: &mut Vec<Attr>, left: &Schema, attr: &Attr) -> Result<(), AllocError>
    ensures { OnOk result (attrs.new.items ≡ attrs.old.items ++ cond (has_attr_named left.now attr.now.name) [] (attr.now ∷ [])) }
{
    if has_attr(left, attr.name.bytes()) {
        return Ok(());
    }
    let copy = attr.copy()?;
    put(attrs, copy)
}

/// Whether common attributes have one kind.
fn agree(left: &Schema, right: &Schema) -> bool
    ensures { result ≡ kinds_agree left.now right.now }
{
    for i in 0..left.len() {
        if !agrees(left.attr(i), right) {
            return false;
        }
    }
    true
}

/// Whether the attributes of this attribute's name have its kind.
fn agrees(attr: &Attr, right: &Schema) -> bool
    ensures { result ≡ list_all (λ b. not (is_same attr.now.name b.name) || is_same_kind attr.now.kind b.kind) right.now }
{
    for i in 0..right.len() {
        if !attr_agrees(attr, right.attr(i)) {
            return false;
        }
    }
    true
}

/// Whether two attributes of one name have one kind.
fn attr_agrees(attr: &Attr, other: &Attr) -> bool
    ensures { result ≡ (not (is_same attr.now.name other.now.name) || is_same_kind attr.now.kind other.now.kind) }
{
    !is_same(attr.name.bytes(), other.name.bytes()) || same_kind(attr.kind, other.kind)
}

/// `join`: common names of one kind, at most 16 in all.
fn check_join(alloc: Global, at: u32, left: Typed, right: Typed) -> Result<Typed, TypeFault>
    ensures { Gives typing_of result (join_type at (expr_of left.core) (expr_of right.core) left.shape right.shape) }
{
    match joining(alloc, at, &left, &right) {
        Ok(operation) => on_two(alloc, operation, left, right, at),
        Err(fault) => {
            drop((left, right));
            Err(fault)
        }
    }
}

/// The operation of a `join`.
fn joining(alloc: Global, at: u32, left: &Typed, right: &Typed) -> Result<Operation, TypeFault>
    ensures { Gives (over_two (expr_of left.now.core) (expr_of right.now.core) at) result (join_type at (expr_of left.now.core) (expr_of right.now.core) left.now.shape right.now.shape) }
{
    let Shape::Rel(own) = &left.shape else {
        return Err(TypeFault::Mismatch { at });
    };
    let Shape::Rel(other) = &right.shape else {
        return Err(TypeFault::Mismatch { at });
    };
    let attrs = joined_attrs(alloc, own, other)?;
    if attrs.len() > ATTRS_LIMIT {
        return Err(TypeFault::TooMany { at });
    }
    if !agree(own, other) {
        return Err(TypeFault::Mismatch { at });
    }
    let result = made(attrs)?;
    let first = own.copy()?;
    let second = other.copy()?;
    Ok(Operation {
        op: Op::Join(first, second),
        shape: Shape::Rel(result),
    })
}

//! Checks of types as written.

ghost use Rattle.hera_meaning.specs.Relations.{has_name};
ghost use Rattle.hera_meaning.specs.Schemas.{names_of};
ghost use Rattle.hera_rules.specs.Agrees.{Gives};
ghost use Rattle.hera_rules.specs.Commands.{field_row, fields_row, schema_row, type_row};
ghost use Rattle.hera_rules.specs.ReadActs.{field_of, fields_of, schema_phrase, type_phrase};
ghost use Rattle.hera_sets.specs.Rows.{holds};
ghost use Rattle.std.specs.Prelude.{[], ◌≡◌};

use hera_meaning::{ATTRS_LIMIT, Attr, Schema, Shape};
use hera_rules::{Relations, TypeFault};
use hera_sets::is_same;
use hera_syntax::{AttrTree, Attrs, SchemaTree, TypeTree};
use hera_types_parts::{kind_token, made, name_bytes, name_copy, put, type_of_kind};
use std::alloc::Global;

/// Whether one of the attributes has this name.
fn has_attr_of(attrs: &[Attr], name: &[u8]) -> bool
    ensures { result ≡ holds (names_of attrs.now) name.now }
{
    any_attr(attrs, name)
}

/// The same, attribute by attribute.
fn any_attr(attrs: &[Attr], name: &[u8]) -> bool
    ensures { result ≡ has_name attrs.now name.now }
{
    attrs.iter().any(|attr| is_same(name, attr.name.bytes()))
}

/// An attribute behind these: a name that stands before is Repeated, the 17th is TooMany.
fn check_written(alloc: Global, attrs: &[Attr], tree: &AttrTree) -> Result<Attr, TypeFault>
    ensures { Gives (λ attr. attr) result (field_row attrs.now (field_of tree.now)) }
{
    if has_attr_of(attrs, name_bytes(&tree.name)) {
        return Err(TypeFault::Repeated { at: tree.name.at });
    }
    if attrs.len() >= ATTRS_LIMIT {
        return Err(TypeFault::TooMany { at: tree.name.at });
    }
    let name = name_copy(alloc, &tree.name)?;
    let kind = kind_token(&tree.kind.word);
    Ok(Attr { name, kind })
}

/// The attributes as written.
pub fn check_fields(alloc: Global, trees: &Attrs) -> Result<Vec<Attr>, TypeFault>
    ensures { Gives (λ attrs. attrs.items) result (fields_row [] (fields_of trees.now)) }
{
    let mut attrs = Vec::new(alloc);
    let first = check_written(alloc, &attrs, &trees.first)?;
    put(&mut attrs, first)?;
    for tree in &trees.rest {
        let next = check_written(alloc, &attrs, tree)?;
        put(&mut attrs, next)?;
    }
    Ok(attrs)
}

/// A schema as written: that of a relation, or attributes.
pub fn check_schema(
    alloc: Global,
    relations: &Relations,
    tree: &SchemaTree,
) -> Result<Schema, TypeFault>
    ensures { Gives (λ schema. schema) result (schema_row relations.now (schema_phrase tree.now)) }
{
    match tree {
        SchemaTree::Name(token) => match relations.find(name_bytes(token)) {
            Some(rel) => Ok(relations.schema(rel).copy()?),
            None => Err(TypeFault::Unknown { at: token.at }),
        },
        SchemaTree::Written { attrs, .. } => {
            let fields = check_fields(alloc, attrs)?;
            made(fields)
        }
    }
}

/// A type as written.
pub fn check_type(alloc: Global, relations: &Relations, tree: &TypeTree) -> Result<Shape, TypeFault>
    ensures { Gives (λ shape. shape) result (type_row relations.now (type_phrase tree.now)) }
{
    match tree {
        TypeTree::Kind(kind) => Ok(type_of_kind(kind_token(&kind.word))),
        TypeTree::Delta(_) => Ok(Shape::Delta),
        TypeTree::Rel { schema, .. } => {
            let schema = check_schema(alloc, relations, schema)?;
            Ok(Shape::Rel(schema))
        }
        TypeTree::Tuple { schema, .. } => {
            let schema = check_schema(alloc, relations, schema)?;
            Ok(Shape::Tuple(schema))
        }
    }
}

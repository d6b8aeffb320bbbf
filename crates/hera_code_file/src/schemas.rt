//! Schemas and relations, read.
ghost use Rattle.std.specs.Prelude.{◌≡◌, ◌≤◌, ◌<◌, [], ◌∷◌, ◌++◌, ℕ, List, length, map, take, IfSome, IfOk, IfErr, OnOk};
ghost use Rattle.std.specs.Option.{option_copied};
ghost use Rattle.std.specs.List.{list_any};
ghost use Rattle.hera_sets.specs.Rows.{holds, is_same};
ghost use Rattle.hera_meaning.specs.Identifiers.{IsIdentifier};
ghost use Rattle.hera_meaning.specs.Schemas.{IsSchema, names_of};
ghost use Rattle.hera_meaning.specs.Catalogues.{decl_name};
ghost use Rattle.rel_format.specs.Fields.{new_name, name_field, length_field, width_field, count_field};
ghost use Rattle.hera_code_file.specs.Reading.{Gives, field, many, attr_at, schema_at, relation_at, relations_at};

use crate::fields::bad;
use crate::stop::Stop;
use hera_meaning::{Attr, Name, RelDecl, Schema, Text, TextFault};
use hera_sets::is_same;
use rel_format::fields::{attr_name_at, count_at, kind_at, length_at, width_at};
use std::alloc::Global;

/// The length of a name.
fn name_len(bytes: &[u8]) -> Result<(u8, &[u8]), Stop>
    ensures { Gives (λ x. (x.0, x.1.now)) result (field 1 (length_field bytes.now) bytes.now) }
{
    match length_at(bytes, 0) {
        Some(n) => Ok((n, bytes.split_at(1).1)),
        None => Err(bad(bytes)),
    }
}

/// The number of attributes.
fn width(bytes: &[u8]) -> Result<(u8, &[u8]), Stop>
    ensures { Gives (λ x. (x.0, x.1.now)) result (field 1 (width_field bytes.now) bytes.now) }
{
    match width_at(bytes, 0) {
        Some(n) => Ok((n, bytes.split_at(1).1)),
        None => Err(bad(bytes)),
    }
}

/// The number of relations.
fn count(bytes: &[u8]) -> Result<(u16, &[u8]), Stop>
    ensures { Gives (λ x. (x.0, x.1.now)) result (field 2 (count_field bytes.now) bytes.now) }
{
    match count_at(bytes, 0) {
        Some(n) => Ok((n, bytes.split_at(2).1)),
        None => Err(bad(bytes)),
    }
}

/// The text of a name.
fn text_of(alloc: Global, name: &[u8]) -> Result<Name, Stop>
    requires { IsIdentifier name.now }
    ensures ok { IfOk result (λ text. text ≡ name.now) }
    ensures err { IfErr result (λ e. e ≡ Stop.Memory) }
{
    match Text::new(alloc, name) {
        Ok(text) => Ok(text),
        Err(fault) => match fault {
            TextFault::Memory => Err(Stop::Memory),
            _ => unreachable!(),
        },
    }
}

/// The attribute with which the bytes begin, behind others of its schema.
#[tactic(auto, unfolding(crate::specs::Reading::attr_at))]
fn attr<'a>(alloc: Global, bytes: &'a [u8], before: &[Attr]) -> Result<(Attr, &'a [u8]), Stop>
    ensures { Gives (λ x. (x.0, x.1.now)) result (attr_at before.now bytes.entry.now) }
{
    let (len, rest) = name_len(bytes)?;
    let len = len as usize;
    let Some(name) = attr_name_at(rest, 0, len, before) else {
        return Err(bad(rest));
    };
    let rest = rest.split_at(len).1;
    let Some(kind) = kind_at(rest, 0) else {
        return Err(bad(rest));
    };
    let name = text_of(alloc, name)?;
    Ok((Attr { name, kind }, rest.split_at(1).1))
}

/// So many attributes.
fn attrs(alloc: Global, bytes: &[u8], count: u8) -> Result<(Vec<Attr>, &[u8]), Stop>
    ensures { Gives (λ x. (x.0.items, x.1.now)) result (many attr_at count [] bytes.now) }
{
    let mut attrs = Vec::new(alloc);
    let mut rest = bytes;
    for _ in 0..count {
        let (attr, behind) = attr(alloc, rest, &attrs)?;
        attrs.push(attr)?;
        rest = behind;
    }
    attrs.shrink_to_fit();
    Ok((attrs, rest))
}

/// The schema of these attributes.
fn schema_of(attrs: Vec<Attr>) -> Schema
    requires { IsSchema attrs.items }
    ensures { result ≡ attrs.items }
{
    match Schema::new(attrs) {
        Ok(schema) => schema,
        Err(_) => unreachable!(),
    }
}

/// A schema: its number of attributes, and the attributes.
#[tactic(auto, unfolding(crate::specs::Reading::schema_at))]
pub(crate) fn schema(alloc: Global, bytes: &[u8]) -> Result<(Schema, &[u8]), Stop>
    ensures { Gives (λ x. (x.0, x.1.now)) result (schema_at bytes.now) }
{
    let (count, rest) = width(bytes)?;
    let (attrs, rest) = attrs(alloc, rest, count)?;
    let schema = schema_of(attrs);
    Ok((schema, rest))
}

/// Whether the relation has this name.
fn is_named(decl: &RelDecl, name: &[u8]) -> bool
    ensures { result ≡ is_same name.now decl.now.name }
{
    is_same(name, decl.name.bytes())
}

/// Whether one of the relations has this name.
fn any_named(decls: &[RelDecl], name: &[u8]) -> bool
    ensures { result ≡ list_any (λ d. is_same name.now d.name) decls.now }
{
    decls.iter().any(|decl| is_named(decl, name))
}

/// The first bytes, a name that none of the relations has.
fn relation_name<'a>(bytes: &'a [u8], len: usize, before: &[RelDecl]) -> Option<&'a [u8]>
    ensures name { option_copied result ≡ new_name (map decl_name before.now) len bytes.entry.now }
    ensures within { IfSome result (λ name. len ≤ length bytes.entry.now) }
    ensures identifier { IfSome result (λ name. IsIdentifier name.now) }
{
    match attr_name_at(bytes, 0, len, &[]) {
        Some(name) => {
            if any_named(before, name) {
                return None;
            }
            Some(name)
        }
        None => None,
    }
}

/// The relation with which the bytes begin, behind others.
#[tactic(auto, unfolding(crate::specs::Reading::relation_at))]
fn relation<'a>(
    alloc: Global,
    bytes: &'a [u8],
    before: &[RelDecl],
) -> Result<(RelDecl, &'a [u8]), Stop>
    ensures { Gives (λ x. (x.0, x.1.now)) result (relation_at before.now bytes.entry.now) }
{
    let (len, rest) = name_len(bytes)?;
    let len = len as usize;
    let Some(name) = relation_name(rest, len, before) else {
        return Err(bad(rest));
    };
    let (schema, rest) = schema(alloc, rest.split_at(len).1)?;
    let name = text_of(alloc, name)?;
    Ok((RelDecl { name, schema }, rest))
}

/// So many relations.
fn some_relations(alloc: Global, bytes: &[u8], count: u16) -> Result<(Vec<RelDecl>, &[u8]), Stop>
    ensures { Gives (λ x. (x.0.items, x.1.now)) result (many relation_at count [] bytes.now) }
{
    let mut relations = Vec::new(alloc);
    let mut rest = bytes;
    for _ in 0..count {
        let (decl, behind) = relation(alloc, rest, &relations)?;
        relations.push(decl)?;
        rest = behind;
    }
    Ok((relations, rest))
}

/// The relations: how many there are, and each.
#[tactic(auto, unfolding(crate::specs::Reading::relations_at))]
pub(crate) fn relations(alloc: Global, bytes: &[u8]) -> Result<(Vec<RelDecl>, &[u8]), Stop>
    ensures { Gives (λ x. (x.0.items, x.1.now)) result (relations_at bytes.now) }
{
    let (count, rest) = count(bytes)?;
    let (relations, rest) = some_relations(alloc, rest, count)?;
    Ok((relations, rest))
}

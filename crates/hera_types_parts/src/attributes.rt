//! Names and attributes in lists.

ghost use Rattle.hera_meaning.specs.Forms.{kind_at};
ghost use Rattle.hera_rules.specs.Rules.{attr_in, place_in, places_in, stranger_in};
ghost use Rattle.std.specs.Prelude.{IfErr, IfOk, OnOk, map, ◌++◌, ◌≡◌};
ghost use Rattle.hera_rules.specs.declared.fault.TypeFault.TheVariants as fault;

use crate::lists::put;
use crate::same::{kind_of_place, place_of_name};
use hera_meaning::{Attr, Kind, Places, Schema};
use hera_rules::{TypeFault, Word};
use std::alloc::{AllocError, Global};

/// The fault of the first word that is no attribute.
pub fn stranger_of(schema: &Schema, words: &[Word]) -> Option<TypeFault>
    ensures { result ≡ stranger_in schema.now words.now }
{
    for word in words {
        if place_of_name(schema, word.name.bytes()).is_none() {
            return Some(TypeFault::Unknown { at: word.at });
        }
    }
    None
}

/// The place of a name, 0 where there is none.
pub fn place_named_or(schema: &Schema, name: &[u8]) -> usize
    ensures { result ≡ place_in schema.now name.now }
{
    match place_of_name(schema, name) {
        Some(place) => place,
        None => 0,
    }
}

/// The kind of the attribute of a name, of the first attribute where there is none.
pub fn kind_named(schema: &Schema, name: &[u8]) -> Kind
    ensures { result ≡ kind_at schema.now (place_in schema.now name.now) }
{
    match place_of_name(schema, name) {
        Some(place) => kind_of_place(schema, place),
        None => first_kind(schema),
    }
}

/// The kind of the first attribute.
fn first_kind(schema: &Schema) -> Kind
    ensures { result ≡ kind_at schema.now 0 }
{
    if schema.len() == 0 {
        return Kind::Int;
    }
    kind_of_place(schema, 0)
}

/// The schema of attributes. Where they are none, which the rules rule out, it answers Memory.
pub fn made(attrs: Vec<Attr>) -> Result<Schema, TypeFault>
    ensures made { IfOk result (λ schema. schema ≡ attrs.items) }
    ensures refused { IfErr result (λ f. f ≡ fault.Memory) }
{
    match Schema::new(attrs) {
        Ok(schema) => Ok(schema),
        Err(_) => Err(TypeFault::Memory),
    }
}

/// The places of names.
pub fn places_of(alloc: Global, schema: &Schema, words: &[Word]) -> Result<Places, AllocError>
    ensures { IfOk result (λ places. places ≡ places_in schema.now words.now) }
{
    let mut places = Vec::new(alloc);
    for word in words {
        put(&mut places, place_named_or(schema, word.name.bytes()))?;
    }
    Ok(Places::new(places))
}

/// The attributes of names, behind others.
pub fn add_attrs(attrs: &mut Vec<Attr>, schema: &Schema, words: &[Word]) -> Result<(), AllocError>
    ensures { OnOk result (attrs.new.items ≡ attrs.old.items ++ map (attr_in schema.now) words.now) }
{
    for word in words {
        let name = word.name.copy()?;
        let kind = kind_named(schema, word.name.bytes());
        put(attrs, Attr { name, kind })?;
    }
    Ok(())
}

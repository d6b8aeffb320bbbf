//! Relations that a catalogue refuses, and rows made wider.
use crate::samples::{add, schema_of};
use hera_meaning::{Kind, Schema, Text};
use hera_row::{Catalogue, CatalogueFault, check_row, is_prefix, widen_row};
use std::alloc::{AllocError, Global};
use std::process::Abort;
use std::test::Fail;

/// Adds the relation, and answers whether the catalogue took it, or why it did not.
fn told_of(catalogue: &mut Catalogue, name: Text, schema: Schema) -> &'static str {
    match add(catalogue, name, schema) {
        Ok(Some(_)) => "added",
        Ok(None) => "no name",
        Err(CatalogueFault::NameTaken) => "taken",
        Err(CatalogueFault::TooMany) => "too many",
        Err(CatalogueFault::Memory) => "memory",
    }
}

/// Adds a relation of this name, and answers whether the catalogue took it, or why it did not.
fn added(catalogue: &mut Catalogue, alloc: Global, name: &[u8]) -> Result<&'static str, Fail> {
    let schema = schema_of(alloc, &[("amount", Kind::Int)])?;
    match Text::new(alloc, name) {
        Ok(name) => Ok(told_of(catalogue, name, schema)),
        Err(e) => {
            drop(schema);
            Err(e.into())
        }
    }
}

/// Adds the relation of the letter r and this number, and answers as `added`.
fn added_number(catalogue: &mut Catalogue, alloc: Global, i: usize) -> Result<&'static str, Fail> {
    let name = format!(in alloc; "r{i}")?;
    let told = added(catalogue, alloc, name.as_bytes());
    drop(name);
    told
}

/// Adds the relations r0 to r255.
fn fill(rt: &impl Abort, alloc: Global, catalogue: &mut Catalogue) -> Result<(), Fail> {
    for i in 0..256 {
        assert!(rt; added_number(catalogue, alloc, i)? == "added");
    }
    Ok(())
}

/// Names, and why a full catalogue refuses each.
const REFUSED: &[(&str, &str)] = &[("r7", "taken"), ("s", "too many"), ("2nd", "no name")];

/// A full catalogue refuses a name that it has, a further relation, and what is no name.
fn refuses(rt: &impl Abort, alloc: Global, catalogue: &mut Catalogue) -> Result<(), Fail> {
    fill(rt, alloc, catalogue)?;
    for (name, told) in REFUSED {
        assert!(rt; added(catalogue, alloc, name.as_bytes())? == *told);
    }
    Ok(())
}

#[test]
fn a_taken_name_is_refused_and_a_257th_relation(rt: HostRuntime) -> Result<(), Fail> {
    let mut catalogue = Catalogue::new(rt.alloc());
    let tried = refuses(&rt, rt.alloc(), &mut catalogue);
    drop(catalogue);
    tried
}

/// Whether the row of true gets a blank int, a blank text and false behind it.
fn is_widened(alloc: Global, old: &Schema, new: &Schema) -> Result<bool, AllocError> {
    let row = [1];
    if !is_prefix(old, new) || is_prefix(new, old) || !check_row(old, &row) {
        return Ok(false);
    }
    let wide = widen_row(alloc, old, new, &row)?;
    let is_blank = wide.bytes() == b"\x01\x80\0\0\0\0\0\0\0\0\0".as_slice();
    drop(wide);
    Ok(is_blank)
}

/// Whether fields that are added to this schema of one bool are blank.
fn gets_blanks(alloc: Global, old: &Schema) -> Result<bool, Fail> {
    let new = schema_of(
        alloc,
        &[
            ("a", Kind::Bool),
            ("b", Kind::Int),
            ("c", Kind::Text),
            ("d", Kind::Bool),
        ],
    )?;
    let is_widened = is_widened(alloc, old, &new);
    drop(new);
    Ok(is_widened?)
}

#[test]
fn added_fields_are_blank(rt: HostRuntime) -> Result<(), Fail> {
    let old = schema_of(rt.alloc(), &[("a", Kind::Bool)])?;
    let are_blank = gets_blanks(rt.alloc(), &old);
    drop(old);
    assert!(rt; are_blank?);
    Ok(())
}

//! Rename.

ghost use Rattle.hera_meaning.specs.Plain.{expr_of};
ghost use Rattle.hera_meaning.specs.declared.trees.Shape.TheVariants as shapes;
ghost use Rattle.hera_rules.specs.Agrees.{Gives, typing_of};
ghost use Rattle.hera_rules.specs.Rules.{kept_names, new_name, old_names, old_words, rename_repeat, rename_row, renamed_attr, stranger_in, typing};
ghost use Rattle.hera_sets.specs.Rows.{holds, is_same};
ghost use Rattle.hera_types_parts.specs.Tests.{Tests};
ghost use Rattle.std.specs.List.{list_any};
ghost use Rattle.std.specs.Option.{option_copied};
ghost use Rattle.std.specs.Prelude.{IfOk, OnOk, [], cond, find, map, ◌++◌, ◌∷◌, ◌≡◌};

use hera_meaning::{Attr, Name, Schema, Shape};
use hera_rules::{Renamed, TypeFault, Typed};
use hera_sets::is_same;
use hera_types_parts::{NameSet, add_new, into_core, made, place_of_name, put, renamed};
use std::alloc::{AllocError, Global};

/// Whether an attribute of this name is renamed.
fn is_renamed(renamed: &[Renamed], name: &[u8]) -> bool
    ensures { result ≡ holds (old_names renamed.now) name.now }
{
    any_renamed(renamed, name)
}

/// The same, name by name.
fn any_renamed(renamed: &[Renamed], name: &[u8]) -> bool
    ensures { result ≡ list_any (λ r. is_same name.now r.old.name) renamed.now }
{
    renamed.iter().any(|r| is_same(name, r.old.name.bytes()))
}

/// The names of the attributes that are not renamed. Where two are one, which no schema has, it answers
/// AllocError.
fn kept_of(alloc: Global, schema: &Schema, renamed: &[Renamed]) -> Result<NameSet, AllocError>
    ensures { IfOk result (λ names. names ≡ kept_names schema.now (old_names renamed.now)) }
{
    let mut names = NameSet::new(alloc);
    for i in 0..schema.len() {
        keep(&mut names, renamed, &schema.attr(i).name)?;
    }
    Ok(names)
}

/// A name more, unless an attribute of this name is renamed.
fn keep(names: &mut NameSet, renamed: &[Renamed], name: &Name) -> Result<(), AllocError>
    ensures { OnOk result (names.new ≡ names.old ++ cond (holds (old_names renamed.now) name.now) [] (name.now ∷ [])) }
{
    if is_renamed(renamed, name.bytes()) {
        return Ok(());
    }
    add_new(names, name.bytes())
}

/// Nothing, or the fault of the first name of a `rename` that stands twice.
fn distinct_renamed(alloc: Global, results: NameSet, renamed: &[Renamed]) -> Result<(), TypeFault>
    ensures { Tests result (rename_repeat results [] renamed.now) }
{
    let mut names = results;
    let mut olds = NameSet::new(alloc);
    for r in renamed {
        let new = r.new.name.bytes();
        if names.has(new) {
            return Err(TypeFault::Repeated { at: r.new.at });
        }
        let old = r.old.name.bytes();
        if olds.has(old) {
            return Err(TypeFault::Repeated { at: r.old.at });
        }
        names.add(new)?;
        olds.add(old)?;
    }
    Ok(())
}

/// The fault of the first old name that is no attribute.
fn stranger_renamed(schema: &Schema, renamed: &[Renamed]) -> Option<TypeFault>
    ensures { result ≡ stranger_in schema.now (old_words renamed.now) }
{
    for r in renamed {
        if place_of_name(schema, r.old.name.bytes()).is_none() {
            return Some(TypeFault::Unknown { at: r.old.at });
        }
    }
    None
}

/// The new name for an old one.
fn find_renamed<'a>(renamed: &'a [Renamed], name: &[u8]) -> Option<&'a Renamed>
    ensures { option_copied result ≡ find (λ r. is_same name.now r.old.name) renamed.now }
{
    renamed.iter().find(|r| is_same(name, r.old.name.bytes()))
}

/// The new name of an attribute.
fn renamed_name(renamed: &[Renamed], name: &Name) -> Result<Name, AllocError>
    ensures { IfOk result (λ new. new ≡ new_name renamed.now name.now) }
{
    match find_renamed(renamed, name.bytes()) {
        Some(r) => r.new.name.copy(),
        None => name.copy(),
    }
}

/// The attributes with their new names.
fn renamed_attrs(
    alloc: Global,
    schema: &Schema,
    renamed: &[Renamed],
) -> Result<Vec<Attr>, AllocError>
    ensures { IfOk result (λ attrs. attrs.items ≡ map (renamed_attr renamed.now) schema.now) }
{
    let mut attrs = Vec::new(alloc);
    for i in 0..schema.len() {
        let attr = schema.attr(i);
        let name = renamed_name(renamed, &attr.name)?;
        put(
            &mut attrs,
            Attr {
                name,
                kind: attr.kind,
            },
        )?;
    }
    Ok(attrs)
}

/// `rename`: a rel, old names in it, each once, distinct results.
pub fn check_rename(
    alloc: Global,
    at: u32,
    renamed: Vec<Renamed>,
    value: Typed,
) -> Result<Typed, TypeFault>
    ensures { Gives typing_of result (rename_row at renamed.items (typing_of value)) }
{
    match renamed_schema(alloc, at, &renamed, &value) {
        Ok(schema) => Ok(Typed {
            shape: Shape::Rel(schema),
            core: into_core(value),
        }),
        Err(fault) => {
            drop(value);
            Err(fault)
        }
    }
}

/// The schema of a `rename`.
fn renamed_schema(
    alloc: Global,
    at: u32,
    renamed: &[Renamed],
    value: &Typed,
) -> Result<Schema, TypeFault>
    ensures { Gives (λ s. typing (shapes.Rel s) (expr_of value.now.core)) result (rename_row at renamed.now (typing_of value.now)) }
{
    let Shape::Rel(schema) = &value.shape else {
        distinct_renamed(alloc, NameSet::new(alloc), renamed)?;
        return Err(TypeFault::Mismatch { at });
    };
    if let Some(fault) = stranger_renamed(schema, renamed) {
        return Err(fault);
    }
    let kept = kept_of(alloc, schema, renamed)?;
    distinct_renamed(alloc, kept, renamed)?;
    let attrs = renamed_attrs(alloc, schema, renamed)?;
    made(attrs)
}

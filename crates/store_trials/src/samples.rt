//! Catalogues to try things on.
use hera_meaning::{Attr, Kind, Schema, Text};
use hera_row::{Catalogue, CatalogueFault, has_names, is_name};
use std::alloc::Global;
use std::test::Fail;

/// The schema of these names and kinds.
pub(crate) fn schema_of(alloc: Global, attrs: &[(&str, Kind)]) -> Result<Schema, Fail> {
    let mut all = Vec::new(alloc);
    for (name, kind) in attrs {
        all.push(Attr {
            name: Text::new(alloc, name.as_bytes())?,
            kind: *kind,
        })?;
    }
    Ok(Schema::new(all)?)
}

/// Adds a relation, unless a name is none.
fn declare(catalogue: &mut Catalogue, name: Text, schema: Schema) -> Result<(), CatalogueFault> {
    if !is_name(name.bytes()) || !has_names(&schema) {
        drop(name);
        drop(schema);
        return Ok(());
    }
    let _number = catalogue.add(name, schema)?;
    Ok(())
}

/// Adds a relation of this name with these attributes, unless its names are none.
pub(crate) fn add(
    alloc: Global,
    catalogue: &mut Catalogue,
    name: &str,
    attrs: &[(&str, Kind)],
) -> Result<(), Fail> {
    let schema = schema_of(alloc, attrs)?;
    match Text::new(alloc, name.as_bytes()) {
        Ok(name) => Ok(declare(catalogue, name, schema)?),
        Err(e) => {
            drop(schema);
            Err(e.into())
        }
    }
}

/// Adds relations of these names, each of one attribute `a` of that kind.
fn add_all(
    alloc: Global,
    catalogue: &mut Catalogue,
    relations: &[(&str, Kind)],
) -> Result<(), Fail> {
    for (name, kind) in relations {
        add(alloc, catalogue, name, &[("a", *kind)])?;
    }
    Ok(())
}

/// The catalogue of relations of these names, each of one attribute `a` of that kind.
pub(crate) fn catalogue_of(alloc: Global, relations: &[(&str, Kind)]) -> Result<Catalogue, Fail> {
    let mut catalogue = Catalogue::new(alloc);
    match add_all(alloc, &mut catalogue, relations) {
        Ok(()) => Ok(catalogue),
        Err(e) => {
            drop(catalogue);
            Err(e)
        }
    }
}

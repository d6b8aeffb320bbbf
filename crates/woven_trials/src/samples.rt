//! Catalogues to try things on.
use hera_meaning::{Attr, Kind, Schema, Text};
use hera_row::{Catalogue, has_names, is_name};
use std::alloc::Global;
use std::test::Fail;

/// The schema of these names and kinds.
pub(crate) fn schema_of(alloc: Global, attrs: &[(&str, Kind)]) -> Result<Schema, Fail> {
    let mut all = Vec::new(alloc);
    for (name, kind) in attrs {
        all.push(Attr {
            name: Text::new(alloc, name.as_bytes())?,
            kind: *kind,
        })?;
    }
    Ok(Schema::new(all)?)
}

/// Adds a relation of this name with these attributes, unless its names are none.
pub(crate) fn add(
    alloc: Global,
    catalogue: &mut Catalogue,
    name: &str,
    attrs: &[(&str, Kind)],
) -> Result<(), Fail> {
    let schema = schema_of(alloc, attrs)?;
    let name = Text::new(alloc, name.as_bytes())?;
    if is_name(name.bytes()) && has_names(&schema) {
        catalogue.add(name, schema)?;
    }
    Ok(())
}

/// The catalogue of relations of these names, each of one attribute `a` of that kind.
pub(crate) fn catalogue_of(alloc: Global, relations: &[(&str, Kind)]) -> Result<Catalogue, Fail> {
    let mut catalogue = Catalogue::new(alloc);
    for (name, kind) in relations {
        add(alloc, &mut catalogue, name, &[("a", *kind)])?;
    }
    Ok(catalogue)
}

//! Schemas and sets of rows to try things on.
use hera_meaning::{Attr, Kind, RelId, Schema, Text};
use hera_row::{Catalogue, CatalogueFault, has_names, is_name};
use hera_rows::RowSet;
use std::alloc::{AllocError, Global};
use std::test::Fail;

/// The schema of these names and kinds.
pub(crate) fn schema_of(alloc: Global, attrs: &[(&str, Kind)]) -> Result<Schema, Fail> {
    let mut all = Vec::new(alloc);
    for (name, kind) in attrs {
        all.push(Attr {
            name: Text::new(alloc, name.as_bytes())?,
            kind: *kind,
        })?;
    }
    Ok(Schema::new(all)?)
}

/// Adds a relation and gives its number, and `None` where a name is none.
pub(crate) fn add(
    catalogue: &mut Catalogue,
    name: Text,
    schema: Schema,
) -> Result<Option<RelId>, CatalogueFault> {
    if !is_name(name.bytes()) || !has_names(&schema) {
        drop(name);
        drop(schema);
        return Ok(None);
    }
    Ok(Some(catalogue.add(name, schema)?))
}

/// Adds a relation of this name with one int, `a`, and gives its number, and `None` where the name is none.
pub(crate) fn add_int(
    alloc: Global,
    catalogue: &mut Catalogue,
    name: &[u8],
) -> Result<Option<RelId>, Fail> {
    let schema = schema_of(alloc, &[("a", Kind::Int)])?;
    match Text::new(alloc, name) {
        Ok(name) => Ok(add(catalogue, name, schema)?),
        Err(e) => {
            drop(schema);
            Err(e.into())
        }
    }
}

/// The set of these rows.
pub(crate) fn set_of(alloc: Global, rows: &[&[u8]]) -> Result<RowSet, AllocError> {
    let mut set = RowSet::new(alloc);
    for row in rows {
        let _new = set.insert(row)?;
    }
    Ok(set)
}

/// Puts zeros behind the bytes, up to this length.
pub(crate) fn pad(bytes: &mut Vec<u8>, len: usize) -> Result<(), AllocError> {
    bytes.resize(len, 0)
}

/// The row of this int.
pub(crate) fn row(n: u16) -> [u8; 8] {
    let low = n.to_be_bytes();
    [128, 0, 0, 0, 0, 0, low[0], low[1]]
}

/// Puts the rows of the ints from the first up to before the second behind the bytes.
pub(crate) fn put_rows(bytes: &mut Vec<u8>, first: u16, past: u16) -> Result<(), AllocError> {
    for n in first..past {
        bytes.extend_from_slice(&row(n))?;
    }
    Ok(())
}

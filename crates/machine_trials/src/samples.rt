//! A schema and rows of it to try things on.
use hera_meaning::{Attr, Kind, Schema, Text};
use std::alloc::Global;
use std::test::Fail;

/// The schema of one int.
pub(crate) fn numbers(alloc: Global) -> Result<Schema, Fail> {
    let attrs = vec![in alloc;
        Attr {
            name: Text::new(alloc, b"a")?,
            kind: Kind::Int
        },
    ]?;
    Ok(Schema::new(attrs)?)
}

/// The row of this int.
pub(crate) fn row(n: u8) -> [u8; 8] {
    [128, 0, 0, 0, 0, 0, 0, n]
}

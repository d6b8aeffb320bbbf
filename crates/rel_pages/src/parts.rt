//! Where the pages of each relation lie.
ghost use Rattle.std.specs.Prelude.{◌≡◌, ◌≤◌, ◌+◌, IfOk};
ghost use Rattle.rel_pages.specs.Parts.{parts_from, total};

use std::alloc::{AllocError, Global};

/// The place and the length of a relation's pages.
#[derive(Clone, Copy)]
pub(crate) struct RelationPages {
    pub(crate) at: usize,
    pub(crate) len: usize,
}

/// Parts of these lengths, one behind another from a place on.
pub(crate) fn parts_from(
    alloc: Global,
    at: usize,
    lens: &[usize],
) -> Result<Vec<RelationPages>, AllocError>
    requires { at + total lens.now ≤ 18446744073709551615 }
    ensures { IfOk result (λ parts. parts.items ≡ parts_from at lens.now) }
{
    let mut parts = Vec::new(alloc);
    let mut at = at;
    for len in lens {
        parts.push(RelationPages { at, len: *len })?;
        at += *len;
    }
    Ok(parts)
}

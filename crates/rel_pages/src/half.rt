//! A half read to its first gate.
ghost use Rattle.std.specs.Prelude.{◌≡◌, ◌≤◌, [], All, IfOk};
ghost use Rattle.rel_format.specs.Pages.{Format};
ghost use Rattle.rel_pages.specs.Halves.{HalfParts};
ghost use Rattle.rel_pages.specs.Starts.{IsRead};

use crate::pages::pages_at;
use crate::parts::{RelationPages, parts_from};
use crate::starts::ReadStart;
use hera_row::Catalogue;
use rel_format::{PageFault, read_header};
use std::alloc::Global;

/// The relations of a half, the parts of its bytes that are their pages, and the place of its first
/// gate. It is noted where some rows begin.
pub(crate) fn parts_of(
    alloc: Global,
    magic: &[u8],
    page: usize,
    bytes: &[u8],
    starts: &mut Vec<ReadStart>,
) -> Result<((Catalogue, Vec<RelationPages>), usize), PageFault>
    requires sized { 4 ≤ page }
    requires none { starts.old.items ≡ [] }
    ensures read { (f : Format) → f.magic ≡ magic.now → f.page ≡ page → HalfParts f bytes.now result }
    ensures starts { IfOk result (λ x. All (IsRead x.0.0 bytes.now) starts.new.items) }
{
    let (rels, at) = read_header(alloc, magic, bytes)?;
    let (lens, end) = pages_at(alloc, page, bytes, at, &rels, starts)?;
    match parts_from(alloc, at + 4, &lens) {
        Ok(parts) => Ok(((rels, parts), end)),
        Err(_) => Err(PageFault::Memory),
    }
}

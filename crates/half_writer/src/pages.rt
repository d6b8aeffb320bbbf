//! The pages of a relation, written one after another.
ghost use Rattle.std.specs.Prelude.{◌≡◌, ◌≤◌, ◌<◌, ◌+◌, ◌++◌, List, ℕ, length, IfOk, IfErr, OnOk, OnErr};
ghost use Rattle.rel_format.specs.declared.version.TheConstants.{HALF_LIMIT, PAGE_TWO};
ghost use Rattle.hera_sets.specs.Rows.{Row};
ghost use Rattle.rel_format.specs.Pages.{paged, rel_bytes, page_bytes, joined, used_by, zeros};
ghost use Rattle.half_writer.specs.Written.{IsFullAt};

use rel_format::{PAGE_HEAD, PAGE_TWO};
use std::alloc::{AllocError, AllocFailed, Global};
use thiserror::Error;

/// Why a half is not written.
#[derive(Debug, Drop, Error)]
pub enum HalfFault {
    /// The half needs more bytes than the limit.
    #[error("the half has no room")]
    Full { need: u64, limit: u64 },
    /// No memory for the bytes.
    #[error("out of memory")]
    Memory,
}

/// Appends so many zero bytes.
fn push_zeros(bytes: &mut Vec<u8>, count: usize) -> Result<(), AllocError>
    ensures zeros { OnOk result (bytes.new.items ≡ bytes.old.items ++ zeros count) }
    ensures length { OnOk result (length bytes.new.items ≡ length bytes.old.items + count) }
{
    for _ in 0..count {
        bytes.push(0)?;
    }
    Ok(())
}

/// Appends the page of so many rows with these bytes.
fn push_page(pages: &mut Vec<u8>, rel: u16, count: u16, rows: &[u8]) -> Result<(), AllocError>
    requires { 4 + length rows.now ≤ PAGE_TWO }
    ensures page { (held : List Row) → count ≡ length held → rows.now ≡ joined held → OnOk result (pages.new.items ≡ pages.old.items ++ page_bytes PAGE_TWO rel held) }
    ensures length { OnOk result (length pages.new.items ≡ length pages.old.items + PAGE_TWO) }
{
    pages.extend_from_slice(&rel.to_be_bytes())?;
    pages.extend_from_slice(&count.to_be_bytes())?;
    pages.extend_from_slice(rows)?;
    push_zeros(pages, PAGE_TWO - (PAGE_HEAD + rows.len()))?;
    Ok(())
}

/// Appends the page of so many rows with these bytes, where there is room for it beside `front`
/// bytes.
pub(crate) fn close_page(
    pages: &mut Vec<u8>,
    rel: u16,
    count: u16,
    rows: &[u8],
    front: u64,
    limit: u64,
) -> Result<(), HalfFault>
    requires rows { 4 + length rows.now ≤ PAGE_TWO }
    requires room { front + length pages.old.items ≤ limit }
    requires limit { limit ≤ HALF_LIMIT }
    ensures page { (held : List Row) → count ≡ length held → rows.now ≡ joined held → OnOk result (pages.new.items ≡ pages.old.items ++ page_bytes PAGE_TWO rel held) }
    ensures length { OnOk result (length pages.new.items ≡ length pages.old.items + PAGE_TWO) }
    ensures room { OnOk result (front + length pages.old.items + PAGE_TWO ≤ limit) }
    ensures full { IfErr result (λ e. IsFullAt (front + length pages.old.items + PAGE_TWO) limit e) }
{
    let need = front + pages.as_slice().len() as u64 + PAGE_TWO as u64;
    if need > limit {
        return Err(HalfFault::Full { need, limit });
    }
    match push_page(pages, rel, count, rows) {
        Ok(()) => Ok(()),
        Err(_) => Err(HalfFault::Memory),
    }
}

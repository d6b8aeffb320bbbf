//! The rows of each relation of a catalogue, in the bytes of a half.
ghost use Rattle.std.specs.Prelude.{◌≡◌, ◌<◌, ◌≤◌, ◌⊎◌, [], length, slice_get, replicate, Some, IfOk, Vec};
ghost use Rattle.std.specs.Global.{Global};
ghost use Rattle.rel_pages.specs.declared.starts.RowStart.{RowStart};
ghost use Rattle.hera_meaning.specs.Deltas.{IsState};
ghost use Rattle.rel_format.specs.Pages.{format_two, half_of, pages_of};
ghost use Rattle.rel_format.specs.Versions.{version_in};
ghost use Rattle.rel_pages.specs.Stored.{empty_state};
ghost use Rattle.rel_pages.specs.Halves.{HalfIs};

use crate::half::parts_of;
use crate::indexed::IndexedRel;
use crate::page_rel::PageRel;
use crate::parts::RelationPages;
use crate::starts::{RowStart, all_starts};
use hera_meaning::RelId;
use hera_row::Catalogue;
use rel_format::{HALF_LIMIT, PageFault, Version, header_bytes, rest_at};
use std::alloc::{AllocError, Global};
use std::marker::Model;

/// A catalogue, and the rows of each of its relations, which lie in the bytes of a half of this
/// format.
#[derive(Drop)]
pub struct Base {
    version: Version,
    catalogue: Catalogue,
    bytes: Vec<u8>,
    parts: Vec<RelationPages>,
    /// Where rows begin, a list for each relation.
    starts: Vec<Vec<RowStart>>,
    journal: usize,
}

impl Model for Base {
    ghost use Rattle.rel_format.specs.Versions.{format_of};
    ghost use Rattle.rel_pages.specs.Stored.{Stored};
    ghost use Rattle.rel_pages.specs.Parts.{state_of, IsBase};
    ghost use Rattle.rel_pages.specs.Starts.{AreStarts};

    ghost Value = { Stored };

    ghost view = { λ b. record { version = b.version; catalogue = b.catalogue; state = state_of (format_of b.version).page b.catalogue b.parts.items b.bytes.items; bytes = b.bytes.items; journal = b.journal } };

    ghost invariant = { λ b. IsBase (format_of b.version) b.catalogue b.parts.items b.bytes.items b.journal × AreStarts (format_of b.version).page b.catalogue b.parts.items b.bytes.items b.starts.items };
}

/// Reads a half of either format up to its first gate. `Damaged` tells the length of the longest good prefix, or
/// 268435456 where there are more bytes than that.
pub fn read_half(alloc: Global, bytes: Vec<u8>) -> Result<Base, PageFault>
    ensures { HalfIs bytes.items result }
{
    if bytes.len() as u64 > HALF_LIMIT {
        return Err(PageFault::Damaged { at: HALF_LIMIT });
    }
    let version = Version::of(&bytes);
    let page = version.page();
    let mut read = Vec::new(alloc);
    let ((catalogue, parts), journal) = parts_of(alloc, version.magic(), page, &bytes, &mut read)?;
    match all_starts(alloc, page, &catalogue, &parts, &bytes, &read) {
        Ok(starts) => Ok(Base {
            version,
            catalogue,
            bytes,
            parts,
            starts,
            journal,
        }),
        Err(_) => Err(PageFault::Memory),
    }
}

impl Base {
    /// The base in which no relation of the catalogue has a row, with the bytes of its half
    /// of format 2.
    pub fn empty(alloc: Global, catalogue: Catalogue) -> Result<Base, AllocError>
        ensures version { IfOk result (λ base. base.version ≡ Version.Two) }
        ensures catalogue { IfOk result (λ base. base.catalogue ≡ catalogue) }
        ensures state { IfOk result (λ base. base.state ≡ empty_state catalogue) }
        ensures bytes { IfOk result (λ base. base.bytes ≡ half_of format_two catalogue (empty_state catalogue)) }
        ensures journal { IfOk result (λ base. base.journal ≡ length (pages_of format_two catalogue (empty_state catalogue))) }
    {
        let version = Version::Two;
        let mut bytes = header_bytes(alloc, version.magic(), &catalogue)?;
        // no pages
        bytes.extend_from_slice(&[0, 0, 0, 0])?;
        let journal = bytes.as_slice().len();
        // the closed gate
        bytes.push(0)?;
        let parts = empty_parts(alloc, journal, catalogue.len())?;
        Ok(Base {
            version,
            catalogue,
            bytes,
            parts,
            starts: Vec::new(alloc),
            journal,
        })
    }

    /// The format of the half.
    pub fn version(&self) -> Version
        ensures { result ≡ self.now.version }
    {
        self.version
    }

    /// The relations.
    pub fn catalogue(&self) -> &Catalogue
        ensures catalogue { result.now ≡ self.now.catalogue }
        // Each relation has an ascending list of rows of its schema.
        ensures valid { IsState self.now.catalogue self.now.state }
        ensures relations { length self.now.state ≡ length self.now.catalogue }
    {
        &self.catalogue
    }

    /// The bytes of the half, as they were read.
    pub fn bytes(&self) -> &[u8]
        ensures { result.now ≡ self.now.bytes }
    {
        &self.bytes
    }

    /// The place of the first gate.
    pub fn journal_at(&self) -> usize
        ensures place { result ≡ self.now.journal }
        ensures within { result ≤ length self.now.bytes }
    {
        self.journal
    }

    /// The rows of a relation, which are slices of the base's bytes. It takes no memory.
    pub fn rel(&self, rel: RelId) -> PageRel<'_>
        requires { rel.0 < length self.now.catalogue }
        ensures { slice_get self.now.state rel.0 ≡ Some result }
    {
        match self.parts.get(rel.0 as usize) {
            Some(part) => PageRel {
                schema: &self.catalogue.decl(rel).schema,
                pages: rest_at(&self.bytes, part.at).split_at(part.len).0,
                page: self.version.page(),
            },
            None => unreachable!(),
        }
    }

    /// The same rows as `rel` gives, in which a search walks few of them. It takes no memory.
    pub fn indexed(&self, rel: RelId) -> IndexedRel<'_>
        requires { rel.0 < length self.now.catalogue }
        ensures { slice_get self.now.state rel.0 ≡ Some result }
    {
        let Some(part) = self.parts.get(rel.0 as usize) else {
            unreachable!()
        };
        IndexedRel {
            schema: &self.catalogue.decl(rel).schema,
            pages: rest_at(&self.bytes, part.at).split_at(part.len).0,
            page: self.version.page(),
            starts: starts_at(&self.starts, rel),
        }
    }
}

/// The list of a relation, or none.
fn starts_at(lists: &[Vec<RowStart>], rel: RelId) -> &[RowStart]
    ensures { (result.now ≡ []) ⊎ ((starts : Vec RowStart Global) × (slice_get lists.now rel.0 ≡ Some starts) × (result.now ≡ starts.items)) }
{
    match lists.get(rel.0 as usize) {
        Some(starts) => starts.as_slice(),
        None => &[],
    }
}

/// So many parts without bytes at a place.
fn empty_parts(alloc: Global, at: usize, count: usize) -> Result<Vec<RelationPages>, AllocError>
    ensures { IfOk result (λ parts. parts.items ≡ replicate count (record { at = at; len = 0 })) }
{
    let mut parts = Vec::new(alloc);
    for _ in 0..count {
        parts.push(RelationPages { at, len: 0 })?;
    }
    Ok(parts)
}

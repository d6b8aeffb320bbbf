//! The writer of halves.
ghost use Rattle.std.specs.Prelude.{◌≡◌, ◌≤◌, ◌<◌, ◌+◌, ◌++◌, ◌∷◌, [], ℕ, List, length, IfOk, IfErr, OnOk};
ghost use Rattle.rel_format.specs.declared.version.TheConstants.{HALF_LIMIT, PAGE_TWO};
ghost use Rattle.std.specs.Int.{to_be_bytes, w32};
ghost use Rattle.rel_format.specs.Pages.{format_two, paged, half_of};
ghost use Rattle.half_writer.specs.Written.{AreRows, IsFullAt, IsFirstFull, written_of, with_rel, finished, need_of};
ghost use Rattle.hera_meaning.specs.declared.schemas.TheConstants.{RELATIONS_LIMIT};
ghost use Rattle.hera_meaning.specs.declared.schemas.RelDecl.{RelDecl};
ghost use Rattle.hera_meaning.specs.Deltas.{State};

use crate::adding::add_pages;
use crate::pages::HalfFault;
use hera_row::Catalogue;
use hera_rows::Sorted;
use rel_format::{Version, header_bytes};
use std::alloc::{AllocError, Global};
use std::marker::Model;

/// The bytes of the page count, and of a closed gate.
const COUNT_AND_GATE: u64 = 5;

/// A half that is written, one relation after another.
#[derive(Drop)]
pub struct HalfWriter {
    header: Vec<u8>,
    added: u16,
    count: u32,
    pages: Vec<u8>,
    limit: u64,
}

impl Model for HalfWriter {
    ghost use Rattle.std.specs.Prelude.{◌≤◌, length};
    ghost use Rattle.rel_format.specs.declared.version.TheConstants.{HALF_LIMIT};
    ghost use Rattle.half_writer.specs.Written.{Written};

    ghost Value = { Written };

    ghost view = { λ w. record { header = w.header.items; added = w.added; count = w.count; pages = w.pages.items; limit = w.limit } };

    ghost invariant = { λ w. record { few : w.count ≤ length w.pages.items; within : length w.pages.items ≤ HALF_LIMIT; limit : w.limit ≤ HALF_LIMIT } };
}

impl HalfWriter {
    /// The writer of a half of these relations, of at most so many bytes.
    pub fn new(alloc: Global, catalogue: &Catalogue, limit: u64) -> Result<HalfWriter, AllocError>
        requires { limit ≤ HALF_LIMIT }
        ensures { IfOk result (λ writer. writer ≡ written_of format_two catalogue.now limit []) }
    {
        let header = header_bytes(alloc, Version::Two.magic(), catalogue)?;
        Ok(HalfWriter {
            header,
            added: 0,
            count: 0,
            pages: Vec::new(alloc),
            limit,
        })
    }

    /// Appends the pages of the next relation, which has these rows. `Full` tells the first number
    /// of bytes past the limit, as pages are added. After a refusal the writer is of no use.
    pub fn add<S: Sorted>(&mut self, rows: &S) -> Result<(), HalfFault>
        requires more { self.old.added < RELATIONS_LIMIT }
        requires rows { AreRows (S.rows rows.now) }
        ensures add { OnOk result (self.new ≡ with_rel PAGE_TWO self.old (S.rows rows.now)) }
        ensures room { OnOk result (need_of self.new ≤ self.new.limit) }
        ensures full { IfErr result (IsFirstFull PAGE_TWO (need_of self.old) (length (paged PAGE_TWO (S.rows rows.now))) self.old.limit) }
    {
        let head = self.header.as_slice().len() as u64 + COUNT_AND_GATE;
        let added = add_pages(
            head,
            &mut self.pages,
            self.count,
            self.added,
            rows,
            self.limit,
        );
        match added {
            Ok(count) => {
                self.count = count;
                self.added += 1;
                Ok(())
            }
            Err(fault) => {
                self.count = 0;
                self.pages.clear();
                Err(fault)
            }
        }
    }

    /// The bytes of the half, with a closed gate behind its pages. `Full` comes exactly where they
    /// pass the limit.
    pub fn finish(self) -> Result<Vec<u8>, HalfFault>
        ensures bytes { IfOk result (λ bytes. bytes.items ≡ finished self) }
        ensures half { (rels : List RelDecl) (limit : ℕ) (state : State) → self ≡ written_of format_two rels limit state → IfOk result (λ bytes. bytes.items ≡ half_of format_two rels state) }
        ensures room { OnOk result (need_of self ≤ self.limit) }
        ensures full { IfErr result (IsFullAt (need_of self) self.limit) }
    {
        let HalfWriter {
            header,
            count,
            pages,
            limit,
            ..
        } = self;
        let need = header.as_slice().len() as u64 + COUNT_AND_GATE + pages.as_slice().len() as u64;
        if need > limit {
            return Err(HalfFault::Full { need, limit });
        }
        match bytes_of(header, count, pages) {
            Ok(bytes) => Ok(bytes),
            Err(_) => Err(HalfFault::Memory),
        }
    }
}

/// The header, the page count, the pages and a closed gate, in the buffer of the pages.
fn bytes_of(header: Vec<u8>, count: u32, pages: Vec<u8>) -> Result<Vec<u8>, AllocError>
    ensures { IfOk result (λ bytes. bytes.items ≡ header.items ++ to_be_bytes w32 count ++ pages.items ++ 0 ∷ []) }
{
    let mut bytes = pages;
    let size = bytes.as_slice().len();
    bytes.extend_from_slice(&header)?;
    bytes.extend_from_slice(&count.to_be_bytes())?;
    bytes.rotate_left(size);
    bytes.push(0)?;
    Ok(bytes)
}

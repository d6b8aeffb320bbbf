//! The header of a half.
ghost use Rattle.std.specs.Prelude.{◌≡◌, ◌≤◌, ◌+◌, ℕ, suc, true, false, List, [], ◌∷◌, ◌++◌, ◌<◌, All, IfOk, IfErr, OnOk, length, map};
ghost use Rattle.hera_sets.specs.Rows.{holds};
ghost use Rattle.hera_meaning.specs.declared.schemas.TheConstants.{ATTRS_LIMIT, RELATIONS_LIMIT};
ghost use Rattle.hera_meaning.specs.Identifiers.{IsIdentifier};
ghost use Rattle.hera_meaning.specs.Schemas.{AreDistinct, names_of};
ghost use Rattle.hera_meaning.specs.Catalogues.{decl_name};
ghost use Rattle.rel_format.specs.Pages.{Format};
ghost use Rattle.rel_format.specs.Table.{RelationSoFar, at_magic, at_rels, at_attr, behind_attr, with_attr, with_attrs};
ghost use Rattle.rel_format.specs.Places.{Reads, HeaderIs};

use crate::fields::{attr_name_at, count_at, kind_at, length_at, magic_at, rel_name_at, width_at};
use crate::version::MAGIC_LEN;
use hera_meaning::{Attr, Name, RELATIONS_LIMIT, RelDecl, Schema, Text, TextFault};
use hera_row::{Catalogue, CatalogueFault};
use std::alloc::{AllocError, AllocFailed, Global};
use thiserror::Error;

/// Why bytes are no pages.
#[derive(Debug, Drop, Error)]
pub enum PageFault {
    /// A field breaks its rule, or does not lie wholly in the file.
    #[error("the half is damaged")]
    Damaged { at: u64 },
    /// No memory for the catalogue.
    #[error("out of memory")]
    Memory,
}

/// The damage at this place.
pub fn damaged(at: usize) -> PageFault
    ensures { result ≡ PageFault.Damaged at }
{
    PageFault::Damaged { at: at as u64 }
}

/// The relations with whose header the bytes begin, and the place behind it, which is that of the
/// page count.
pub fn read_header(
    alloc: Global,
    magic: &[u8],
    bytes: &[u8],
) -> Result<(Catalogue, usize), PageFault>
    ensures within { IfOk result (λ x. x.1 ≤ length bytes.now) }
    ensures read { (f : Format) → f.magic ≡ magic.now → HeaderIs f bytes.now result }
{
    match header_at(alloc, magic, bytes) {
        Ok((rels, at)) => {
            prove!(rels.len() <= RELATIONS_LIMIT);
            Ok((rels, at))
        }
        Err(fault) => Err(fault),
    }
}

/// The relations of a half, and the place behind them.
fn header_at(alloc: Global, magic: &[u8], bytes: &[u8]) -> Result<(Catalogue, usize), PageFault>
    ensures within { IfOk result (λ x. x.1 ≤ length bytes.now) }
    ensures read { (f : Format) → f.magic ≡ magic.now → Reads f bytes.now 0 at_magic (λ rels. at_rels rels 0) result }
{
    if !magic_at(bytes, magic) {
        return Err(damaged(0));
    }
    let mut at = MAGIC_LEN;
    let Some(count) = count_at(bytes, at) else {
        return Err(damaged(at));
    };
    at += 2;
    let mut rels = Catalogue::new(alloc);
    for _ in 0..count {
        let (decl, behind) = decl_at(alloc, bytes, at, &rels)?;
        add(&mut rels, decl)?;
        at = behind;
    }
    let header = (rels, at);
    Ok(header)
}

/// Adds a relation of a new name.
fn add(rels: &mut Catalogue, decl: RelDecl) -> Result<(), PageFault>
    requires name { IsIdentifier decl.name }
    requires attrs { All IsIdentifier (names_of decl.schema) }
    requires new { holds (map decl_name rels.old) decl.name ≡ false }
    requires few { length rels.old < RELATIONS_LIMIT }
    ensures ok { OnOk result (rels.new ≡ rels.old ++ decl ∷ []) }
    ensures err { IfErr result (λ e. e ≡ PageFault.Memory) }
{
    match rels.add(decl.name, decl.schema) {
        Ok(_) => Ok(()),
        Err(CatalogueFault::Memory) => Err(PageFault::Memory),
        Err(_) => unreachable!(),
    }
}

/// The relation whose name's length stands at a place, and the place behind it.
fn decl_at(
    alloc: Global,
    bytes: &[u8],
    at: usize,
    rels: &Catalogue,
) -> Result<(RelDecl, usize), PageFault>
    requires { at ≤ length bytes.now }
    ensures within { IfOk result (λ x. x.1 ≤ length bytes.now) }
    ensures name { IfOk result (λ x. IsIdentifier x.0.name) }
    ensures attrs { IfOk result (λ x. All IsIdentifier (names_of x.0.schema)) }
    ensures new { IfOk result (λ x. holds (map decl_name rels.now) x.0.name ≡ false) }
    ensures read { (f : Format) (left : ℕ) → Reads f bytes.now at (at_rels rels.now (suc left)) (λ d. at_rels (rels.now ++ d ∷ []) left) result }
{
    let Some(len) = length_at(bytes, at) else {
        return Err(damaged(at));
    };
    let name_at = at + 1;
    let Some(name) = rel_name_at(bytes, name_at, len as usize, rels) else {
        return Err(damaged(name_at));
    };
    let place = name_at + name.len();
    let Some(width) = width_at(bytes, place) else {
        return Err(damaged(place));
    };
    let name = text_of(alloc, name)?;
    let (attrs, behind) = attrs_at(alloc, bytes, place + 1, width)?;
    let schema = schema_of(attrs);
    Ok((RelDecl { name, schema }, behind))
}

/// The schema of attributes of distinct names.
fn schema_of(attrs: Vec<Attr>) -> Schema
    requires some { 1 ≤ length attrs.items }
    requires few { length attrs.items ≤ ATTRS_LIMIT }
    requires distinct { AreDistinct (names_of attrs.items) }
    ensures { result ≡ attrs.items }
{
    match Schema::new(attrs) {
        Ok(schema) => schema,
        Err(_) => unreachable!(),
    }
}

/// So many attributes, the first of which stands at a place, and the place behind them.
fn attrs_at(
    alloc: Global,
    bytes: &[u8],
    at: usize,
    width: u8,
) -> Result<(Vec<Attr>, usize), PageFault>
    requires { at ≤ length bytes.now }
    ensures within { IfOk result (λ x. x.1 ≤ length bytes.now) }
    ensures count { IfOk result (λ x. length x.0.items ≡ width) }
    ensures distinct { IfOk result (λ x. AreDistinct (names_of x.0.items)) }
    ensures names { IfOk result (λ x. All IsIdentifier (names_of x.0.items)) }
    ensures read { (f : Format) (p : RelationSoFar) → p.attrs ≡ [] → Reads f bytes.now at (behind_attr p width) (λ attrs. behind_attr (with_attrs p attrs.items) 0) result }
{
    let mut attrs = Vec::new(alloc);
    let mut at = at;
    for _ in 0..width {
        let (attr, behind) = attr_at(alloc, bytes, at, &attrs)?;
        push(&mut attrs, attr)?;
        at = behind;
    }
    Ok((attrs, at))
}

/// Puts an attribute behind the others.
fn push(attrs: &mut Vec<Attr>, attr: Attr) -> Result<(), PageFault>
    ensures ok { OnOk result (attrs.new.items ≡ attrs.old.items ++ attr ∷ []) }
    ensures err { IfErr result (λ e. e ≡ PageFault.Memory) }
{
    match attrs.push(attr) {
        Ok(()) => Ok(()),
        Err(_) => Err(PageFault::Memory),
    }
}

/// The attribute at a place, and the place behind it.
fn attr_at(
    alloc: Global,
    bytes: &[u8],
    at: usize,
    attrs: &[Attr],
) -> Result<(Attr, usize), PageFault>
    requires { at ≤ length bytes.now }
    ensures within { IfOk result (λ x. x.1 ≤ length bytes.now) }
    ensures name { IfOk result (λ x. IsIdentifier x.0.name) }
    ensures new { IfOk result (λ x. holds (names_of attrs.now) x.0.name ≡ false) }
    ensures read { (f : Format) (p : RelationSoFar) (more : ℕ) → p.attrs ≡ attrs.now → Reads f bytes.now at (at_attr p more) (λ a. behind_attr (with_attr p a) more) result }
{
    let Some(len) = length_at(bytes, at) else {
        return Err(damaged(at));
    };
    let name_at = at + 1;
    let Some(name) = attr_name_at(bytes, name_at, len as usize, attrs) else {
        return Err(damaged(name_at));
    };
    let place = name_at + name.len();
    let Some(kind) = kind_at(bytes, place) else {
        return Err(damaged(place));
    };
    let name = text_of(alloc, name)?;
    Ok((Attr { name, kind }, place + 1))
}

/// The text of a name.
fn text_of(alloc: Global, name: &[u8]) -> Result<Name, PageFault>
    requires { IsIdentifier name.now }
    ensures ok { IfOk result (λ text. text ≡ name.now) }
    ensures err { IfErr result (λ e. e ≡ PageFault.Memory) }
{
    match Text::new(alloc, name) {
        Ok(text) => Ok(text),
        Err(fault) => match fault {
            TextFault::Memory => Err(PageFault::Memory),
            _ => unreachable!(),
        },
    }
}

//! The header of a half, written.
ghost use Rattle.std.specs.Prelude.{◌≡◌, ◌≤◌, ◌++◌, length, IfOk, OnOk};
ghost use Rattle.hera_meaning.specs.Identifiers.{identifier_limit};
ghost use Rattle.hera_meaning.specs.Catalogues.{IsDecl};
ghost use Rattle.rel_format.specs.Pages.{Format, kind_byte, name_bytes, attr_bytes, decl_bytes, header_of};

use hera_meaning::{Attr, Kind, RelDecl, RelId};
use hera_row::Catalogue;
use std::alloc::{AllocError, Global};

/// The header with these relations, before the page count.
pub fn header_bytes(alloc: Global, magic: &[u8], rels: &Catalogue) -> Result<Vec<u8>, AllocError>
    ensures { (f : Format) → f.magic ≡ magic.now → IfOk result (λ bytes. bytes.items ≡ header_of f rels.now) }
{
    let mut bytes = Vec::from_slice(alloc, magic)?;
    let count = rels.len() as u16;
    bytes.extend_from_slice(&count.to_be_bytes())?;
    for number in 0..count {
        push_decl(&mut bytes, rels.decl(RelId(number)))?;
    }
    Ok(bytes)
}

/// Appends a relation.
fn push_decl(bytes: &mut Vec<u8>, decl: &RelDecl) -> Result<(), AllocError>
    requires { IsDecl decl.now }
    ensures { OnOk result (bytes.new.items ≡ bytes.old.items ++ decl_bytes decl.now) }
{
    push_name(bytes, decl.name.bytes())?;
    bytes.push(decl.schema.len() as u8)?;
    for i in 0..decl.schema.len() {
        push_attr(bytes, decl.schema.attr(i))?;
    }
    Ok(())
}

/// Appends an attribute.
fn push_attr(bytes: &mut Vec<u8>, attr: &Attr) -> Result<(), AllocError>
    requires { length attr.now.name ≤ identifier_limit }
    ensures { OnOk result (bytes.new.items ≡ bytes.old.items ++ attr_bytes attr.now) }
{
    push_name(bytes, attr.name.bytes())?;
    bytes.push(kind_byte(attr.kind))?;
    Ok(())
}

/// Appends a name behind its length.
fn push_name(bytes: &mut Vec<u8>, name: &[u8]) -> Result<(), AllocError>
    requires { length name.now ≤ identifier_limit }
    ensures { OnOk result (bytes.new.items ≡ bytes.old.items ++ name_bytes name.now) }
{
    bytes.push(name.len() as u8)?;
    bytes.extend_from_slice(name)?;
    Ok(())
}

/// The byte of a kind.
pub fn kind_byte(kind: Kind) -> u8
    ensures { result ≡ kind_byte kind }
{
    match kind {
        Kind::Int => 1,
        Kind::Bool => 2,
        Kind::Text => 3,
    }
}

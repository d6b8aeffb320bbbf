//! Numbers, schemas and relations, written.
ghost use Rattle.std.specs.Prelude.{◌≡◌, ◌≤◌, ◌<◌, ◌^◌, ◌∷◌, ◌++◌, [], List, ℕ, length, OnOk};
ghost use Rattle.std.specs.Int.{to_be_bytes, w16, w64};
ghost use Rattle.hera_meaning.specs.Identifiers.{identifier_limit};
ghost use Rattle.hera_meaning.specs.Catalogues.{IsCatalogue, IsDecl};
ghost use Rattle.rel_format.specs.Pages.{kind_byte, name_bytes, attr_bytes, decl_bytes};
ghost use Rattle.hera_code_file.specs.Printing.{word, flag, schema_bytes, relations_bytes};
ghost use Rattle.hera_code_file.specs.Fitting.{IsNamed, IsWord};
ghost use Rattle.hera_code_writer.specs.Writable.{AreNames};

use hera_meaning::writing::put;
use hera_meaning::{Attr, RelDecl, Schema};
use rel_format::kind_byte;
use std::alloc::AllocError;

/// A byte.
pub(crate) fn put_byte(out: &mut Vec<u8>, n: u8) -> Result<(), AllocError>
    ensures { OnOk result (out.new.items ≡ out.old.items ++ n ∷ []) }
{
    out.push(n)?;
    Ok(())
}

/// Two bytes.
pub(crate) fn put_half(out: &mut Vec<u8>, n: u16) -> Result<(), AllocError>
    ensures text { OnOk result (out.new.items ≡ out.old.items ++ to_be_bytes w16 n) }
    ensures fits { OnOk result (n < 2 ^ 16) }
{
    put(out, &n.to_be_bytes())
}

/// Four bytes.
pub(crate) fn put_word(out: &mut Vec<u8>, n: u32) -> Result<(), AllocError>
    ensures text { OnOk result (out.new.items ≡ out.old.items ++ word n) }
    ensures fits { OnOk result (IsWord n) }
{
    put(out, &n.to_be_bytes())
}

/// Eight bytes.
pub(crate) fn put_double(out: &mut Vec<u8>, n: u64) -> Result<(), AllocError>
    ensures { OnOk result (out.new.items ≡ out.old.items ++ to_be_bytes w64 n) }
{
    put(out, &n.to_be_bytes())
}

/// A byte 0 or 1.
pub(crate) fn put_flag(out: &mut Vec<u8>, b: bool) -> Result<(), AllocError>
    ensures { OnOk result (out.new.items ≡ out.old.items ++ flag b) }
{
    put_byte(out, u8::from(b))
}

/// A name behind its length.
fn put_name(out: &mut Vec<u8>, name: &[u8]) -> Result<(), AllocError>
    requires { length name.now ≤ identifier_limit }
    ensures { OnOk result (out.new.items ≡ out.old.items ++ name_bytes name.now) }
{
    put_byte(out, name.len() as u8)?;
    put(out, name)
}

/// An attribute.
fn put_attr(out: &mut Vec<u8>, attr: &Attr) -> Result<(), AllocError>
    requires { length attr.now.name ≤ identifier_limit }
    ensures { OnOk result (out.new.items ≡ out.old.items ++ attr_bytes attr.now) }
{
    put_name(out, attr.name.bytes())?;
    put_byte(out, kind_byte(attr.kind))
}

/// A schema: its number of attributes, and the attributes.
pub(crate) fn put_schema(out: &mut Vec<u8>, schema: &Schema) -> Result<(), AllocError>
    requires { AreNames schema.now }
    ensures text { OnOk result (out.new.items ≡ out.old.items ++ schema_bytes schema.now) }
    ensures fits { OnOk result (IsNamed schema.now) }
{
    put_byte(out, schema.len() as u8)?;
    for i in 0..schema.len() {
        put_attr(out, schema.attr(i))?;
    }
    Ok(())
}

/// A relation: its name, and its schema.
fn put_decl(out: &mut Vec<u8>, decl: &RelDecl) -> Result<(), AllocError>
    requires { IsDecl decl.now }
    ensures { OnOk result (out.new.items ≡ out.old.items ++ decl_bytes decl.now) }
{
    put_name(out, decl.name.bytes())?;
    put_schema(out, &decl.schema)
}

/// The relations: how many there are, and each.
pub(crate) fn put_relations(out: &mut Vec<u8>, relations: &[RelDecl]) -> Result<(), AllocError>
    requires { IsCatalogue relations.now }
    ensures { OnOk result (out.new.items ≡ out.old.items ++ relations_bytes relations.now) }
{
    put_half(out, relations.len() as u16)?;
    for decl in relations {
        put_decl(out, decl)?;
    }
    Ok(())
}

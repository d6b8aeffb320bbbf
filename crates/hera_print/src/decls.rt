//! Declarations of relations.
ghost use Rattle.std.specs.Prelude.{◌≡◌, ◌++◌, IfOk, OnOk};
ghost use Rattle.hera_meaning.specs.Printed.{kind_text, attr_text, attrs_text, decl_text};
ghost use Rattle.hera_print.specs.Commas.{comma_before};

use super::commas::put_comma;
use hera_meaning::writing::put;
use hera_meaning::{Attr, Kind, Line, RelDecl, Schema};
use std::alloc::{AllocError, Global};

/// The line of a relation's declaration, as `relation R(a int, b text);`.
#[tactic(auto, unfolding(hera_meaning::specs::Printed::decl_text))]
pub fn decl_line(alloc: Global, decl: &RelDecl) -> Result<Line, AllocError>
    ensures { IfOk result (λ line. line ≡ decl_text decl.now) }
{
    let mut out = Vec::new(alloc);
    put(&mut out, b"relation ")?;
    put(&mut out, decl.name.bytes())?;
    put(&mut out, b"(")?;
    put_attrs(&mut out, &decl.schema)?;
    put(&mut out, b");\n")?;
    Ok(Line::new(out))
}

/// Puts the attributes of a schema.
fn put_attrs(out: &mut Vec<u8>, schema: &Schema) -> Result<(), AllocError>
    ensures { OnOk result (out.new.items ≡ out.old.items ++ attrs_text schema.now) }
{
    for i in 0..schema.len() {
        put_attr(out, i, schema.attr(i))?;
    }
    Ok(())
}

/// Puts the attribute of place `i`, behind a comma and a blank unless it is the first: its name and
/// its kind.
fn put_attr(out: &mut Vec<u8>, i: usize, attr: &Attr) -> Result<(), AllocError>
    ensures { OnOk result (out.new.items ≡ out.old.items ++ comma_before i ++ attr_text attr.now) }
{
    put_comma(out, i)?;
    put(out, attr.name.bytes())?;
    put(out, b" ")?;
    put_kind(out, attr.kind)
}

fn put_kind(out: &mut Vec<u8>, kind: Kind) -> Result<(), AllocError>
    ensures { OnOk result (out.new.items ≡ out.old.items ++ kind_text kind) }
{
    match kind {
        Kind::Int => put(out, b"int"),
        Kind::Bool => put(out, b"bool"),
        Kind::Text => put(out, b"text"),
    }
}

//! Rows, atoms, delta literals and the lines of `rows`.

ghost use Rattle.hera_meaning.specs.Plain.{expr_of, links_in};
ghost use Rattle.hera_meaning.specs.Trees.{prim};
ghost use Rattle.hera_meaning.specs.declared.trees.Op.TheVariants as ops;
ghost use Rattle.hera_meaning.specs.declared.trees.Shape.TheVariants as shapes;
ghost use Rattle.hera_rules.specs.Agrees.{Gives, typing_of, typings_of};
ghost use Rattle.hera_rules.specs.Environments.{env_of};
ghost use Rattle.hera_rules.specs.Read.{word_of};
ghost use Rattle.hera_rules.specs.Rules.{atom_row, atoms_row, attrs_of, exprs_from, is_scalar, line_row, lines_row, make_row, merges_from, row_row, scalar_kind, types_of, typing};
ghost use Rattle.std.specs.List.{list_all};
ghost use Rattle.std.specs.Prelude.{IfErr, IfOk, length, ◌≡◌};
ghost use Rattle.hera_rules.specs.declared.fault.TypeFault.TheVariants as fault;

use crate::calls::take_kinds;
use hera_meaning::{ATTRS_LIMIT, Attr, Const, Core, Kind, Link, Op, Schema, Shape, Sign};
use hera_rules::{TypeFault, Typed, Word};
use hera_syntax::Token;
use hera_types_parts::{
    GlobalNames, boxed, cores, distinct_names, into_core, made, name_bytes, number_of, put, unary,
};
use std::alloc::{AllocError, Global};

/// Whether each value is a scalar.
fn all_scalars(values: &[Typed]) -> bool
    ensures { result ≡ list_all is_scalar (types_of (typings_of values.now)) }
{
    each_scalar(values)
}

/// The same, value by value.
fn each_scalar(values: &[Typed]) -> bool
    ensures { result ≡ list_all (λ v. is_scalar v.shape) values.now }
{
    values.iter().all(|value| scalar_shape(&value.shape))
}

/// Whether the type is a scalar's.
fn scalar_shape(shape: &Shape) -> bool
    ensures { result ≡ is_scalar shape.now }
{
    match shape {
        Shape::Int | Shape::Bool | Shape::Text => true,
        _ => false,
    }
}

/// The kind of a scalar's type.
fn kind_of_shape(shape: &Shape) -> Kind
    ensures { result ≡ scalar_kind shape.now }
{
    match shape {
        Shape::Bool => Kind::Bool,
        Shape::Text => Kind::Text,
        _ => Kind::Int,
    }
}

/// Attributes of these names, and of the kinds of these values.
fn row_attrs(alloc: Global, words: &[Word], values: &[Typed]) -> Result<Vec<Attr>, AllocError>
    ensures { IfOk result (λ attrs. attrs.items ≡ attrs_of words.now (typings_of values.now)) }
{
    let mut attrs = Vec::new(alloc);
    for i in 0..words.len() {
        if i >= values.len() {
            return Ok(attrs);
        }
        let name = words[i].name.copy()?;
        let kind = kind_of_shape(&values[i].shape);
        put(&mut attrs, Attr { name, kind })?;
    }
    Ok(attrs)
}

/// `[a = e]`: distinct names, at most 16, scalar values.
pub fn check_row(
    alloc: Global,
    at: u32,
    words: Vec<Word>,
    values: Vec<Typed>,
) -> Result<Typed, TypeFault>
    ensures { Gives typing_of result (row_row at words.items (typings_of values.items)) }
{
    distinct_names(alloc, &words)?;
    if words.len() > ATTRS_LIMIT {
        return Err(TypeFault::TooMany { at });
    }
    if !all_scalars(&values) {
        return Err(TypeFault::Mismatch { at });
    }
    row_of(alloc, at, &words, values)
}

/// The row of these names and values.
fn row_of(alloc: Global, at: u32, words: &[Word], values: Vec<Typed>) -> Result<Typed, TypeFault>
    ensures typed { IfOk result (λ v. typing_of v ≡ typing (shapes.Tuple (attrs_of words.now (typings_of values.items))) (make_row (attrs_of words.now (typings_of values.items)) (typings_of values.items) at)) }
    ensures refused { IfErr result (λ f. f ≡ fault.Memory) }
{
    let schema = made(row_attrs(alloc, words, &values)?)?;
    let core = row_with(alloc, &schema, values, at)?;
    let shape = Shape::Tuple(schema);
    Ok(Typed { shape, core })
}

/// The row of a schema.
#[tactic(auto, using(hera_meaning::proofs::PlainLaws::plain))]
fn row_with(alloc: Global, schema: &Schema, values: Vec<Typed>, at: u32) -> Result<Core, AllocError>
    ensures { IfOk result (λ core. expr_of core ≡ make_row schema.now (typings_of values.items) at) }
{
    let schema = schema.copy()?;
    let args = cores(alloc, values)?;
    Ok(Core::Prim(Op::MakeRow(schema), args, at))
}

/// `+R(..)`: the relation's kinds in order.
pub fn check_atom(
    alloc: Global,
    globals: &GlobalNames,
    sign: Sign,
    token: &Token,
    values: Vec<Typed>,
) -> Result<Typed, TypeFault>
    ensures { Gives typing_of result (atom_row (env_of globals.now) sign (word_of token.now) (typings_of values.items)) }
{
    let Some(rel) = globals.relation(name_bytes(token)) else {
        return Err(TypeFault::Unknown { at: token.at });
    };
    let schema = globals.schema(rel);
    if !take_kinds(schema, &values) {
        return Err(TypeFault::Mismatch { at: token.at });
    }
    let row = row_with(alloc, schema, values, token.at)?;
    Ok(Typed {
        shape: Shape::Delta,
        core: unary(alloc, Op::Atom(sign, rel), row, token.at)?,
    })
}

/// A line of `rows`.
pub fn check_line(
    alloc: Global,
    globals: &GlobalNames,
    token: &Token,
    at: u32,
    values: Vec<Typed>,
) -> Result<Typed, TypeFault>
    ensures { Gives typing_of result (line_row (env_of globals.now) (word_of token.now) at (typings_of values.items)) }
{
    let Some(rel) = globals.relation(name_bytes(token)) else {
        return Err(TypeFault::Unknown { at: token.at });
    };
    let schema = globals.schema(rel);
    if !take_kinds(schema, &values) {
        return Err(TypeFault::Mismatch { at });
    }
    let own = schema.copy()?;
    let core = row_with(alloc, schema, values, at)?;
    Ok(Typed {
        shape: Shape::Tuple(own),
        core,
    })
}

/// `rows`.
pub fn check_lines(
    alloc: Global,
    globals: &GlobalNames,
    token: &Token,
    at: u32,
    values: Vec<Typed>,
) -> Result<Typed, TypeFault>
    ensures { Gives typing_of result (lines_row (env_of globals.now) (word_of token.now) at (typings_of values.items)) }
{
    let Some(rel) = globals.relation(name_bytes(token)) else {
        return Err(TypeFault::Unknown { at: token.at });
    };
    let schema = globals.schema(rel).copy()?;
    let core = table_of(alloc, values, at)?;
    Ok(Typed {
        shape: Shape::Rel(schema),
        core,
    })
}

/// The table of rows.
#[tactic(auto, using(hera_meaning::proofs::PlainLaws::plain))]
fn table_of(alloc: Global, values: Vec<Typed>, at: u32) -> Result<Core, TypeFault>
    ensures table { IfOk result (λ core. expr_of core ≡ prim (ops.MakeRel (length (typings_of values.items))) (exprs_from (typings_of values.items)) at) }
    ensures refused { IfErr result (λ f. f ≡ fault.Memory) }
{
    let count = number_of(values.len())?;
    let args = cores(alloc, values)?;
    Ok(Core::Prim(Op::MakeRel(count), args, at))
}

/// The links of a delta literal behind its first atom.
fn merges_of(alloc: Global, at: u32, values: Vec<Typed>) -> Result<Vec<Link>, AllocError>
    ensures { IfOk result (λ all. links_in all.items ≡ merges_from at (typings_of values.items)) }
{
    let mut all = Vec::new(alloc);
    for value in values {
        put(
            &mut all,
            Link {
                op: Op::Merge,
                arg: into_core(value),
                at,
            },
        )?;
    }
    Ok(all)
}

/// `{..}`: the empty delta, an atom, or several of them merged.
#[tactic(auto, using(hera_meaning::proofs::PlainLaws::plain))]
pub fn check_atoms(alloc: Global, at: u32, values: Vec<Typed>) -> Result<Typed, TypeFault>
    ensures typed { IfOk result (λ v. typing_of v ≡ atoms_row at (typings_of values.items)) }
    ensures refused { IfErr result (λ f. f ≡ fault.Memory) }
{
    let mut rest = values;
    if rest.len() == 0 {
        return Ok(Typed {
            shape: Shape::Delta,
            core: Core::Const(Const::EmptyDelta),
        });
    }
    let first = into_core(rest.remove(0));
    if rest.len() == 0 {
        return Ok(Typed {
            shape: Shape::Delta,
            core: first,
        });
    }
    let start = boxed(alloc, first)?;
    let links = merges_of(alloc, at, rest)?;
    Ok(Typed {
        shape: Shape::Delta,
        core: Core::Chain(start, links),
    })
}

//! Types, attributes and parameters.

ghost use Rattle.std.specs.Prelude.{◌<◌, ◌≤◌, [], ◌∷◌, length, IfOk, OnOk, IsErrOf};
ghost use Rattle.hera_syntax.specs.Grammar.{phrase};
ghost use Rattle.hera_syntax.specs.Grammar as phrases;
ghost use Rattle.hera_syntax.specs.Programs.{attr_outline, attrs_outline, kind_outline, param_outline, params_outline, schema_outline, some_params_outline, type_outline};
ghost use Rattle.hera_parser_exprs.specs.Reading.{Tells, Gives, Sticks};

use crate::terminals::{DELTA, KIND_WORDS, REL, TUPLE, TYPE_STARTS};
use hera_parser_exprs::terminals::{CLOSE_PAREN, COMMA, NAME, PAREN};
use hera_parser_exprs::{Items, Parser, Stop};
use hera_syntax::{AttrTree, Attrs, KindTree, Param, Params, SchemaTree, TypeTree};
use std::alloc::Global;

/// `'int' | 'bool' | 'text'`
fn kind(parser: &mut Parser<'_>) -> Result<KindTree, Stop>
    ensures reads { IfOk result (λ tree. Gives (phrase phrases.kind ∷ []) parser.old (kind_outline tree) [] parser.new) }
    ensures sticks { IsErrOf result Stop.Syntax → Sticks (phrase phrases.kind ∷ []) parser.old parser.new }
    ensures shorter { OnOk result (length parser.new < length parser.old) }
{
    let word = parser.keep(KIND_WORDS)?;
    Ok(KindTree::new(word))
}

/// `name kind`
fn attr(parser: &mut Parser<'_>) -> Result<AttrTree, Stop>
    ensures reads { IfOk result (λ tree. Gives (phrase phrases.attr ∷ []) parser.old (attr_outline tree) [] parser.new) }
    ensures sticks { IsErrOf result Stop.Syntax → Sticks (phrase phrases.attr ∷ []) parser.old parser.new }
    ensures shorter { OnOk result (length parser.new < length parser.old) }
{
    let name = parser.keep(NAME)?;
    let kind = kind(parser)?;
    Ok(AttrTree::new(name, kind))
}

/// `name kind (',' name kind)*`
pub(crate) fn attrs(parser: &mut Parser<'_>, alloc: Global) -> Result<Attrs, Stop>
    ensures reads { IfOk result (λ tree. Gives (phrase phrases.attrs ∷ []) parser.old (attrs_outline tree) [] parser.new) }
    ensures sticks { IsErrOf result Stop.Syntax → Sticks (phrase phrases.attrs ∷ []) parser.old parser.new }
    ensures shorter { OnOk result (length parser.new < length parser.old) }
{
    let first = attr(parser)?;
    let mut items = Items::new(alloc, first);
    'rest: while parser.takes(COMMA) {
        let item = attr(parser);
        items = items.with(item)?;
    }
    let Items { first, rest } = items;
    Ok(Attrs::new(first, rest))
}

/// `name | '(' attrs ')'`
fn schema(parser: &mut Parser<'_>, alloc: Global) -> Result<SchemaTree, Stop>
    ensures reads { IfOk result (λ tree. Gives (phrase phrases.schema ∷ []) parser.old (schema_outline tree) [] parser.new) }
    ensures sticks { IsErrOf result Stop.Syntax → Sticks (phrase phrases.schema ∷ []) parser.old parser.new }
    ensures shorter { OnOk result (length parser.new < length parser.old) }
{
    if parser.next_is(NAME) {
        let name = parser.keep(NAME)?;
        return Ok(SchemaTree::name(name));
    }
    let bracket = parser.keep(PAREN)?;
    let attrs = attrs(parser, alloc);
    let part = parser.joined_until(bracket, attrs, CLOSE_PAREN)?;
    let (bracket, attrs) = part;
    Ok(SchemaTree::written(bracket, attrs))
}

/// The type of scalars of a kind.
fn kind_type(parser: &mut Parser<'_>) -> Result<TypeTree, Stop>
    requires { Tells phrases.type_tree 0 parser.old }
    ensures reads { IfOk result (λ tree. Gives (phrase phrases.type_tree ∷ []) parser.old (type_outline tree) [] parser.new) }
    ensures sticks { IsErrOf result Stop.Syntax → Sticks (phrase phrases.type_tree ∷ []) parser.old parser.new }
    ensures shorter { OnOk result (length parser.new < length parser.old) }
{
    let kind = kind(parser)?;
    Ok(TypeTree::kind(kind))
}

/// The type of deltas.
fn delta_type(parser: &mut Parser<'_>) -> Result<TypeTree, Stop>
    requires { Tells phrases.type_tree 1 parser.old }
    ensures reads { IfOk result (λ tree. Gives (phrase phrases.type_tree ∷ []) parser.old (type_outline tree) [] parser.new) }
    ensures sticks { IsErrOf result Stop.Syntax → Sticks (phrase phrases.type_tree ∷ []) parser.old parser.new }
    ensures shorter { OnOk result (length parser.new < length parser.old) }
{
    let word = parser.keep(DELTA)?;
    Ok(TypeTree::delta(word))
}

/// The type of relations.
fn rel_type(parser: &mut Parser<'_>, alloc: Global) -> Result<TypeTree, Stop>
    requires { Tells phrases.type_tree 2 parser.old }
    ensures reads { IfOk result (λ tree. Gives (phrase phrases.type_tree ∷ []) parser.old (type_outline tree) [] parser.new) }
    ensures sticks { IsErrOf result Stop.Syntax → Sticks (phrase phrases.type_tree ∷ []) parser.old parser.new }
    ensures shorter { OnOk result (length parser.new < length parser.old) }
{
    let word = parser.keep(REL)?;
    let schema = schema(parser, alloc)?;
    Ok(TypeTree::rel(word, schema))
}

/// The type of tuples.
fn tuple_type(parser: &mut Parser<'_>, alloc: Global) -> Result<TypeTree, Stop>
    requires { Tells phrases.type_tree 3 parser.old }
    ensures reads { IfOk result (λ tree. Gives (phrase phrases.type_tree ∷ []) parser.old (type_outline tree) [] parser.new) }
    ensures sticks { IsErrOf result Stop.Syntax → Sticks (phrase phrases.type_tree ∷ []) parser.old parser.new }
    ensures shorter { OnOk result (length parser.new < length parser.old) }
{
    let word = parser.keep(TUPLE)?;
    let schema = schema(parser, alloc)?;
    Ok(TypeTree::tuple(word, schema))
}

/// A type.
pub(crate) fn type_tree(parser: &mut Parser<'_>, alloc: Global) -> Result<TypeTree, Stop>
    ensures reads { IfOk result (λ tree. Gives (phrase phrases.type_tree ∷ []) parser.old (type_outline tree) [] parser.new) }
    ensures sticks { IsErrOf result Stop.Syntax → Sticks (phrase phrases.type_tree ∷ []) parser.old parser.new }
    ensures shorter { OnOk result (length parser.new < length parser.old) }
{
    if parser.next_is(KIND_WORDS) {
        return kind_type(parser);
    }
    if parser.next_is(DELTA) {
        return delta_type(parser);
    }
    if parser.next_is(REL) {
        return rel_type(parser, alloc);
    }
    tuple_type(parser, alloc)
}

/// `type name`
fn param(parser: &mut Parser<'_>, alloc: Global) -> Result<Param, Stop>
    ensures reads { IfOk result (λ tree. Gives (phrase phrases.param ∷ []) parser.old (param_outline tree) [] parser.new) }
    ensures sticks { IsErrOf result Stop.Syntax → Sticks (phrase phrases.param ∷ []) parser.old parser.new }
    ensures shorter { OnOk result (length parser.new < length parser.old) }
{
    let type_tree = type_tree(parser, alloc)?;
    let both = parser.kept_behind(type_tree, NAME)?;
    let (type_tree, name) = both;
    Ok(Param::new(type_tree, name))
}

/// `type name (',' type name)*`
fn params(parser: &mut Parser<'_>, alloc: Global) -> Result<Params, Stop>
    ensures reads { IfOk result (λ tree. Gives (phrase phrases.params ∷ []) parser.old (params_outline tree) [] parser.new) }
    ensures sticks { IsErrOf result Stop.Syntax → Sticks (phrase phrases.params ∷ []) parser.old parser.new }
    ensures shorter { OnOk result (length parser.new < length parser.old) }
{
    let first = param(parser, alloc)?;
    let mut items = Items::new(alloc, first);
    'rest: while parser.takes(COMMA) {
        let item = param(parser, alloc);
        items = items.with(item)?;
    }
    let Items { first, rest } = items;
    Ok(Params::new(first, rest))
}

/// `params?`
pub(crate) fn some_params(parser: &mut Parser<'_>, alloc: Global) -> Result<Option<Params>, Stop>
    ensures reads { IfOk result (λ tree. Gives (phrase phrases.some_params ∷ []) parser.old (some_params_outline tree) [] parser.new) }
    ensures sticks { IsErrOf result Stop.Syntax → Sticks (phrase phrases.some_params ∷ []) parser.old parser.new }
    ensures no_longer { OnOk result (length parser.new ≤ length parser.old) }
{
    if !parser.next_is(TYPE_STARTS) {
        return Ok(None);
    }
    let inner = params(parser, alloc)?;
    Ok(Some(inner))
}

//! Checks of the forms of an expression, once its parts are typed.

ghost use Rattle.std.specs.Prelude.{◌≡◌, IfOk, IfErr, true};
ghost use Rattle.hera_rules.specs.Agrees.{Gives, typing_of, typings_of};
ghost use Rattle.hera_rules.specs.Environments.{env_of};
ghost use Rattle.hera_rules.specs.Read.{aggregates_of, bindings_words, int_of, prime_phrase, renamed_all, text_of, words_of};
ghost use Rattle.hera_rules.specs.declared.fault.TypeFault.TheVariants as fault;
ghost use Rattle.hera_meaning.specs.Trees.{constant as constant_expr};
ghost use Rattle.hera_meaning.specs.declared.scalars.Scalar.TheVariants as scalars;
ghost use Rattle.hera_meaning.specs.declared.trees.Const.TheVariants as consts;
ghost use Rattle.hera_rules.specs.Rules.{group_row, literal_row, project_row, rename_row, row_row, typing};
ghost use Rattle.hera_types_exprs.specs.Parts.{has_one_part, one_row};

use hera_meaning::{Const, Core, Scalar, Shape};
use hera_rules::{Aggregate, TypeFault, Typed, Word};
use hera_syntax::{Bindings, NamedAggs, Names, Prime, Renamings, Token, TokenKind};
use hera_types_algebra::{check_group, check_project, check_rename};
use hera_types_checks::{check_bulk, check_fold, check_part, check_row, check_test};
use hera_types_parts::{
    GlobalNames, aggregates, fold_word, part_word, put, renamings, sign_word, test_word, text_copy,
    word, words,
};
use std::alloc::Global;

/// `[a = e]`, once its values are typed.
pub fn check_named(
    alloc: Global,
    at: u32,
    bindings: &Bindings,
    values: Vec<Typed>,
) -> Result<Typed, TypeFault>
    ensures { Gives typing_of result (row_row at (bindings_words bindings.now) (typings_of values.items)) }
{
    let names = binding_names(alloc, bindings)?;
    check_row(alloc, at, names, values)
}

/// A form with one part, once that is typed.
#[tactic(auto, using(crate::proofs::Steps::steps))]
pub fn check_one(
    alloc: Global,
    globals: &GlobalNames,
    e: &Prime,
    value: Typed,
) -> Result<Typed, TypeFault>
    requires { has_one_part e.now ≡ true }
    ensures { Gives typing_of result (one_row (env_of globals.now) (prime_phrase e.now) (typing_of value)) }
{
    match e {
        Prime::Project { word, names, .. } => check_project_by(alloc, word.at, names, value),
        Prime::Rename {
            word,
            renamings: names,
            ..
        } => check_rename_by(alloc, word.at, names, value),
        Prime::Group {
            word,
            names,
            aggs,
            ..
        } => check_group_by(alloc, word.at, names, aggs, value),
        Prime::Measure { word, .. } => check_test(alloc, test_word(word), word.at, value),
        Prime::Fold { word, name, .. } => check_fold(alloc, fold_word(word), word.at, name, value),
        Prime::Bulk {
            word,
            sign,
            name,
            ..
        } => check_bulk(alloc, globals, sign_word(sign), name, word.at, value),
        Prime::Part { word, name, .. } => check_part(
            alloc,
            globals,
            part_word(word),
            name,
            word.at,
            value,
        ),
        _ => unreachable!(),
    }
}

/// A `project`, once its operand is typed.
fn check_project_by(alloc: Global, at: u32, names: &Names, value: Typed) -> Result<Typed, TypeFault>
    ensures { Gives typing_of result (project_row at (words_of names.now) (typing_of value)) }
{
    match words(alloc, names) {
        Ok(all) => check_project(alloc, at, all, value),
        Err(_) => {
            drop(value);
            Err(TypeFault::Memory)
        }
    }
}

/// A `rename`, once its operand is typed.
fn check_rename_by(
    alloc: Global,
    at: u32,
    names: &Renamings,
    value: Typed,
) -> Result<Typed, TypeFault>
    ensures { Gives typing_of result (rename_row at (renamed_all names.now) (typing_of value)) }
{
    match renamings(alloc, names) {
        Ok(all) => check_rename(alloc, at, all, value),
        Err(_) => {
            drop(value);
            Err(TypeFault::Memory)
        }
    }
}

/// A `group`, once its operand is typed.
fn check_group_by(
    alloc: Global,
    at: u32,
    names: &Names,
    aggs: &NamedAggs,
    value: Typed,
) -> Result<Typed, TypeFault>
    ensures { Gives typing_of result (group_row at (words_of names.now) (aggregates_of aggs.now) (typing_of value)) }
{
    match keys_and_aggregates(alloc, names, aggs) {
        Ok((by, all)) => check_group(alloc, at, by, all, value),
        Err(_) => {
            drop(value);
            Err(TypeFault::Memory)
        }
    }
}

/// The names and the aggregates of a `group`.
fn keys_and_aggregates(
    alloc: Global,
    names: &Names,
    aggs: &NamedAggs,
) -> Result<(Vec<Word>, Vec<Aggregate>), TypeFault>
    ensures keys { IfOk result (λ both. both.0.items ≡ words_of names.now) }
    ensures aggregates { IfOk result (λ both. both.1.items ≡ aggregates_of aggs.now) }
{
    let by = words(alloc, names)?;
    let all = aggregates(alloc, aggs)?;
    Ok((by, all))
}

/// A constant of a type.
#[tactic(auto, using(hera_meaning::proofs::PlainLaws::plain))]
fn constant(value: Const, shape: Shape) -> Typed
    ensures { typing_of result ≡ typing shape (constant_expr value) }
{
    Typed {
        shape,
        core: Core::Const(value),
    }
}

/// An int literal.
pub fn int_literal(token: &Token) -> Typed
    ensures { typing_of result ≡ literal_row (consts.Scalar (scalars.Int (int_of token.now.kind))) }
{
    let value = match &token.kind {
        TokenKind::Int(value) => *value,
        _ => 0,
    };
    constant(Const::Scalar(Scalar::Int(value)), Shape::Int)
}

/// `true` or `false`.
pub fn bool_literal(value: bool) -> Typed
    ensures { typing_of result ≡ literal_row (consts.Scalar (scalars.Bool value)) }
{
    constant(Const::Scalar(Scalar::Bool(value)), Shape::Bool)
}

/// `fail`.
pub fn fail_literal() -> Typed
    ensures { typing_of result ≡ literal_row consts.FailDelta }
{
    constant(Const::FailDelta, Shape::Delta)
}

/// A text literal.
pub fn text_literal(alloc: Global, token: &Token) -> Result<Typed, TypeFault>
    ensures literal { IfOk result (λ v. typing_of v ≡ literal_row (consts.Scalar (scalars.Text (text_of token.now.kind)))) }
    ensures refused { IfErr result (λ f. f ≡ fault.Memory) }
{
    let text = text_copy(alloc, token)?;
    Ok(constant(Const::Scalar(Scalar::Text(text)), Shape::Text))
}

/// The names of `[a = e]`.
#[tactic(auto, using(crate::proofs::Steps::steps))]
fn binding_names(alloc: Global, e: &Bindings) -> Result<Vec<Word>, TypeFault>
    ensures names { IfOk result (λ all. all.items ≡ bindings_words e.now) }
    ensures refused { IfErr result (λ f. f ≡ fault.Memory) }
{
    let mut all = Vec::new(alloc);
    put(&mut all, word(alloc, &e.first.name)?)?;
    for binding in &e.rest {
        put(&mut all, word(alloc, &binding.name)?)?;
    }
    Ok(all)
}

//! Types and cores of expressions.

ghost use Rattle.std.specs.Prelude.{◌≡◌, [], OnOk, true};
ghost use Rattle.hera_rules.specs.Agrees.{Gives, Keeps, typing_of};
ghost use Rattle.hera_rules.specs.Checked.{check, check_all};
ghost use Rattle.hera_rules.specs.Environments.{env_of};
ghost use Rattle.hera_rules.specs.Phrases as phrases;
ghost use Rattle.hera_rules.specs.Read.{
  args_in,
  args_phrases,
  atom_phrase,
  atoms_phrases,
  bindings_phrases,
  bindings_words,
  expr_phrase,
  line_phrase,
  lines_phrases,
  operand_phrase,
  pair_of,
  post_of,
  prefix_of_tree,
  prime_phrase,
  some_atoms,
  some_lines,
  walk_of,
  word_of,
};
ghost use Rattle.hera_rules.specs.Typing.{slots_of, slots_of_all};
ghost use Rattle.hera_types_exprs.specs.Parts.{has_many_parts, has_one_part, list_of};

use crate::forms::{bool_literal, check_named, check_one, fail_literal, int_literal, text_literal};
use crate::waiting::Waiting;
use hera_rules::{TypeFault, Typed};
use hera_syntax::{
    ArgTrees, Atom, Atoms, Bindings, Expr, LineTree, LineTrees, OperandTree, Post, Prefix, Prime,
    Token,
};
use hera_types_algebra::check_pair;
use hera_types_checks::{
    Chain, check_atom, check_atoms, check_call, check_field, check_line, check_lines, check_prefix,
    check_variable, check_walk,
};
use hera_types_parts::{
    GlobalNames, LocalNames, check_name, level_joint, pair_word, prefix_word, put, sign_word,
    walk_word,
};
use std::alloc::Global;

/// An expression of one level: its first operand, and then each operator with its operand.
#[cycle(check)]
#[tactic(auto, using(crate::proofs::Steps::steps))]
pub fn expr(
    alloc: Global,
    globals: &GlobalNames,
    scope: &mut LocalNames,
    e: &Expr,
) -> Result<Typed, TypeFault>
    ensures checks { Gives typing_of result (check (env_of globals.now) scope.old.locals.items scope.old.next (expr_phrase e.now)) }
    ensures keeps { OnOk result (Keeps scope.old scope.new (slots_of (expr_phrase e.now))) }
{
    let first = operand(alloc, globals, scope, &e.first)?;
    let mut chain = Chain::new(alloc, first);
    for tail in &e.rest {
        let right = operand(alloc, globals, scope, &tail.operand)?;
        let joint = level_joint(e.level, &tail.op);
        chain = chain.join(joint, tail.op.at, right)?;
    }
    chain.finish(alloc)
}

/// An operand of a chain: an expression of the next level, or a prefix.
#[cycle(check)]
#[tactic(auto, using(crate::proofs::Steps::steps))]
fn operand(
    alloc: Global,
    globals: &GlobalNames,
    scope: &mut LocalNames,
    e: &OperandTree,
) -> Result<Typed, TypeFault>
    ensures checks { Gives typing_of result (check (env_of globals.now) scope.old.locals.items scope.old.next (operand_phrase e.now)) }
    ensures keeps { OnOk result (Keeps scope.old scope.new (slots_of (operand_phrase e.now))) }
{
    match e {
        OperandTree::Inner(inner) => expr(alloc, globals, scope, inner),
        OperandTree::Prefix(inner) => prefix(alloc, globals, scope, inner),
    }
}

/// An operand with its prefix.
#[cycle(check)]
#[tactic(auto, using(crate::proofs::Steps::steps))]
fn prefix(
    alloc: Global,
    globals: &GlobalNames,
    scope: &mut LocalNames,
    e: &Prefix,
) -> Result<Typed, TypeFault>
    ensures checks { Gives typing_of result (check (env_of globals.now) scope.old.locals.items scope.old.next (prefix_of_tree e.now)) }
    ensures keeps { OnOk result (Keeps scope.old scope.new (slots_of (prefix_of_tree e.now))) }
{
    let value = post(alloc, globals, scope, &e.operand)?;
    match &e.op {
        None => Ok(value),
        Some(token) => check_prefix(alloc, prefix_word(token), token.at, value),
    }
}

/// An operand with its attribute.
#[cycle(check)]
#[tactic(auto, using(crate::proofs::Steps::steps))]
fn post(
    alloc: Global,
    globals: &GlobalNames,
    scope: &mut LocalNames,
    e: &Post,
) -> Result<Typed, TypeFault>
    ensures checks { Gives typing_of result (check (env_of globals.now) scope.old.locals.items scope.old.next (post_of e.now)) }
    ensures keeps { OnOk result (Keeps scope.old scope.new (slots_of (post_of e.now))) }
{
    let value = prime(alloc, globals, scope, &e.operand)?;
    match &e.field {
        None => Ok(value),
        Some(token) => check_field(alloc, token, value),
    }
}

/// An expression that no operator splits.
#[cycle(check)]
#[tactic(auto, using(crate::proofs::Steps::steps))]
fn prime(
    alloc: Global,
    globals: &GlobalNames,
    scope: &mut LocalNames,
    e: &Prime,
) -> Result<Typed, TypeFault>
    ensures checks { Gives typing_of result (check (env_of globals.now) scope.old.locals.items scope.old.next (prime_phrase e.now)) }
    ensures keeps { OnOk result (Keeps scope.old scope.new (slots_of (prime_phrase e.now))) }
{
    match e {
        Prime::Int(token) => Ok(int_literal(token)),
        Prime::Text(token) => text_literal(alloc, token),
        Prime::True(_) => Ok(bool_literal(true)),
        Prime::False(_) => Ok(bool_literal(false)),
        Prime::Fail(_) => Ok(fail_literal()),
        Prime::Name(token) => check_name(globals, scope, token),
        Prime::Paren { inner, .. } => expr(alloc, globals, scope, inner),
        Prime::Call { name, args, .. } => call(alloc, globals, scope, name, args),
        Prime::Row { bracket, bindings } => row(alloc, globals, scope, bracket.at, bindings),
        Prime::Delta { bracket, atoms } => delta(alloc, globals, scope, bracket.at, atoms),
        Prime::Rows { .. } | Prime::Walk { .. } | Prime::Pair { .. } => {
            many_parts(alloc, globals, scope, e)
        }
        Prime::Project { .. }
        | Prime::Rename { .. }
        | Prime::Group { .. }
        | Prime::Measure { .. }
        | Prime::Fold { .. }
        | Prime::Bulk { .. }
        | Prime::Part { .. } => one_part(alloc, globals, scope, e),
    }
}

/// `rows`, a walk, or an operator of two expressions.
#[cycle(check)]
#[tactic(auto, using(crate::proofs::Steps::steps))]
fn many_parts(
    alloc: Global,
    globals: &GlobalNames,
    scope: &mut LocalNames,
    e: &Prime,
) -> Result<Typed, TypeFault>
    requires { has_many_parts e.now ≡ true }
    ensures checks { Gives typing_of result (check (env_of globals.now) scope.old.locals.items scope.old.next (prime_phrase e.now)) }
    ensures keeps { OnOk result (Keeps scope.old scope.new (slots_of (prime_phrase e.now))) }
{
    match e {
        Prime::Rows {
            word,
            name,
            lines,
            ..
        } => rows(alloc, globals, scope, name, word.at, lines),
        Prime::Walk {
            word,
            name,
            over,
            body,
            ..
        } => walk(alloc, globals, scope, word, name, over, body),
        Prime::Pair {
            word,
            left,
            right,
            ..
        } => pair(alloc, globals, scope, word, left, right),
        _ => unreachable!(),
    }
}

/// A keyword with one expression in its brackets.
#[cycle(check)]
#[tactic(auto, using(crate::proofs::Steps::steps))]
fn one_part(
    alloc: Global,
    globals: &GlobalNames,
    scope: &mut LocalNames,
    e: &Prime,
) -> Result<Typed, TypeFault>
    requires { has_one_part e.now ≡ true }
    ensures checks { Gives typing_of result (check (env_of globals.now) scope.old.locals.items scope.old.next (prime_phrase e.now)) }
    ensures keeps { OnOk result (Keeps scope.old scope.new (slots_of (prime_phrase e.now))) }
{
    match e {
        Prime::Project { over, .. }
        | Prime::Rename { over, .. }
        | Prime::Group { over, .. }
        | Prime::Measure { over, .. }
        | Prime::Fold { over, .. }
        | Prime::Bulk { over, .. }
        | Prime::Part { over, .. } => {
            let value = expr(alloc, globals, scope, over)?;
            check_one(alloc, globals, e, value)
        }
        _ => unreachable!(),
    }
}

/// A call and its arguments, if any.
#[cycle(check)]
#[tactic(auto, using(crate::proofs::Steps::steps))]
fn call(
    alloc: Global,
    globals: &GlobalNames,
    scope: &mut LocalNames,
    name: &Token,
    list: &Option<Box<ArgTrees>>,
) -> Result<Typed, TypeFault>
    ensures checks { Gives typing_of result (check (env_of globals.now) scope.old.locals.items scope.old.next (phrases.calling (word_of name.now) (args_in list.now))) }
    ensures keeps { OnOk result (Keeps scope.old scope.new (slots_of (phrases.calling (word_of name.now) (args_in list.now)))) }
{
    match list {
        Some(inner) => {
            let values = args(alloc, globals, scope, inner)?;
            check_call(alloc, globals, name, values)
        }
        None => check_call(alloc, globals, name, Vec::new(alloc)),
    }
}

/// A row, `[a = e]`.
#[cycle(check)]
#[tactic(auto, using(crate::proofs::Steps::steps))]
fn row(
    alloc: Global,
    globals: &GlobalNames,
    scope: &mut LocalNames,
    at: u32,
    list: &Bindings,
) -> Result<Typed, TypeFault>
    ensures checks { Gives typing_of result (check (env_of globals.now) scope.old.locals.items scope.old.next (phrases.row at (bindings_words list.now) (bindings_phrases list.now))) }
    ensures keeps { OnOk result (Keeps scope.old scope.new (slots_of (phrases.row at (bindings_words list.now) (bindings_phrases list.now)))) }
{
    let values = bindings(alloc, globals, scope, list)?;
    check_named(alloc, at, list, values)
}

/// A delta literal and its atoms, if any.
#[cycle(check)]
#[tactic(auto, using(crate::proofs::Steps::steps))]
fn delta(
    alloc: Global,
    globals: &GlobalNames,
    scope: &mut LocalNames,
    at: u32,
    list: &Option<Box<Atoms>>,
) -> Result<Typed, TypeFault>
    ensures checks { Gives typing_of result (check (env_of globals.now) scope.old.locals.items scope.old.next (phrases.atoms at (some_atoms list.now))) }
    ensures keeps { OnOk result (Keeps scope.old scope.new (slots_of (phrases.atoms at (some_atoms list.now)))) }
{
    match list {
        Some(inner) => {
            let values = atoms(alloc, globals, scope, inner)?;
            check_atoms(alloc, at, values)
        }
        None => check_atoms(alloc, at, Vec::new(alloc)),
    }
}

/// `rows` and its lines, if any.
#[cycle(check)]
#[tactic(auto, using(crate::proofs::Steps::steps))]
fn rows(
    alloc: Global,
    globals: &GlobalNames,
    scope: &mut LocalNames,
    name: &Token,
    at: u32,
    list: &Option<Box<LineTrees>>,
) -> Result<Typed, TypeFault>
    ensures checks { Gives typing_of result (check (env_of globals.now) scope.old.locals.items scope.old.next (phrases.lines (word_of name.now) at (some_lines (word_of name.now) list.now))) }
    ensures keeps { OnOk result (Keeps scope.old scope.new (slots_of (phrases.lines (word_of name.now) at (some_lines (word_of name.now) list.now)))) }
{
    match list {
        Some(inner) => {
            let values = lines(alloc, globals, scope, inner, name)?;
            check_lines(alloc, globals, name, at, values)
        }
        None => check_lines(alloc, globals, name, at, Vec::new(alloc)),
    }
}

/// A `select` or a `map`. Its variable is visible in its body alone.
#[cycle(check)]
#[tactic(auto, using(crate::proofs::Steps::steps))]
fn walk(
    alloc: Global,
    globals: &GlobalNames,
    scope: &mut LocalNames,
    word: &Token,
    name: &Token,
    over: &Expr,
    body: &Expr,
) -> Result<Typed, TypeFault>
    ensures checks { Gives typing_of result (check (env_of globals.now) scope.old.locals.items scope.old.next (phrases.walking (walk_of word.now.kind) word.now.at (word_of name.now) (expr_phrase over.now) (expr_phrase body.now))) }
    ensures keeps { OnOk result (Keeps scope.old scope.new (slots_of (phrases.walking (walk_of word.now.kind) word.now.at (word_of name.now) (expr_phrase over.now) (expr_phrase body.now)))) }
{
    let depth = scope.visible();
    let slot = scope.take_slot()?;
    let of = expr(alloc, globals, scope, over)?;
    let range = Waiting { typed: of };
    let local = check_variable(
        globals,
        scope,
        alloc,
        name,
        word.at,
        slot,
        &range.typed.shape,
    )?;
    scope.push_local(local)?;
    let inner = expr(alloc, globals, scope, body)?;
    scope.leave(depth);
    let typed = range.into_typed();
    check_walk(alloc, walk_word(word), word.at, slot, typed, inner)
}

/// A `union`, a `minus`, an `inter` or a `join`: its left part, then its right.
#[cycle(check)]
#[tactic(auto, using(crate::proofs::Steps::steps))]
fn pair(
    alloc: Global,
    globals: &GlobalNames,
    scope: &mut LocalNames,
    word: &Token,
    left: &Expr,
    right: &Expr,
) -> Result<Typed, TypeFault>
    ensures checks { Gives typing_of result (check (env_of globals.now) scope.old.locals.items scope.old.next (phrases.pairing (pair_of word.now.kind) word.now.at (expr_phrase left.now) (expr_phrase right.now))) }
    ensures keeps { OnOk result (Keeps scope.old scope.new (slots_of (phrases.pairing (pair_of word.now.kind) word.now.at (expr_phrase left.now) (expr_phrase right.now)))) }
{
    let own = expr(alloc, globals, scope, left)?;
    let first = Waiting { typed: own };
    let other = expr(alloc, globals, scope, right)?;
    let typed = first.into_typed();
    check_pair(alloc, pair_word(word), word.at, typed, other)
}

/// Arguments from the left.
#[cycle(check)]
#[tactic(auto, using(crate::proofs::Steps::steps))]
pub fn args(
    alloc: Global,
    globals: &GlobalNames,
    scope: &mut LocalNames,
    e: &ArgTrees,
) -> Result<Vec<Typed>, TypeFault>
    ensures checks { Gives list_of result (check_all (env_of globals.now) scope.old.locals.items scope.old.next [] (args_phrases e.now)) }
    ensures keeps { OnOk result (Keeps scope.old scope.new (slots_of_all (args_phrases e.now))) }
{
    let mut all = Vec::new(alloc);
    let first = expr(alloc, globals, scope, &e.first)?;
    put(&mut all, first)?;
    for next in &e.rest {
        let typed = expr(alloc, globals, scope, next)?;
        put(&mut all, typed)?;
    }
    Ok(all)
}

/// The values of `[a = e]` from the left.
#[cycle(check)]
#[tactic(auto, using(crate::proofs::Steps::steps))]
fn bindings(
    alloc: Global,
    globals: &GlobalNames,
    scope: &mut LocalNames,
    e: &Bindings,
) -> Result<Vec<Typed>, TypeFault>
    ensures checks { Gives list_of result (check_all (env_of globals.now) scope.old.locals.items scope.old.next [] (bindings_phrases e.now)) }
    ensures keeps { OnOk result (Keeps scope.old scope.new (slots_of_all (bindings_phrases e.now))) }
{
    let mut all = Vec::new(alloc);
    let first = expr(alloc, globals, scope, &e.first.value)?;
    put(&mut all, first)?;
    for binding in &e.rest {
        let typed = expr(alloc, globals, scope, &binding.value)?;
        put(&mut all, typed)?;
    }
    Ok(all)
}

/// The atoms of a delta literal from the left.
#[cycle(check)]
#[tactic(auto, using(crate::proofs::Steps::steps))]
fn atoms(
    alloc: Global,
    globals: &GlobalNames,
    scope: &mut LocalNames,
    e: &Atoms,
) -> Result<Vec<Typed>, TypeFault>
    ensures checks { Gives list_of result (check_all (env_of globals.now) scope.old.locals.items scope.old.next [] (atoms_phrases e.now)) }
    ensures keeps { OnOk result (Keeps scope.old scope.new (slots_of_all (atoms_phrases e.now))) }
{
    let mut all = Vec::new(alloc);
    let first = atom(alloc, globals, scope, &e.first)?;
    put(&mut all, first)?;
    for next in &e.rest {
        let typed = atom(alloc, globals, scope, next)?;
        put(&mut all, typed)?;
    }
    Ok(all)
}

/// An atom.
#[cycle(check)]
#[tactic(auto, using(crate::proofs::Steps::steps))]
fn atom(
    alloc: Global,
    globals: &GlobalNames,
    scope: &mut LocalNames,
    e: &Atom,
) -> Result<Typed, TypeFault>
    ensures checks { Gives typing_of result (check (env_of globals.now) scope.old.locals.items scope.old.next (atom_phrase e.now)) }
    ensures keeps { OnOk result (Keeps scope.old scope.new (slots_of (atom_phrase e.now))) }
{
    let values = args(alloc, globals, scope, &e.args)?;
    check_atom(alloc, globals, sign_word(&e.sign), &e.name, values)
}

/// The lines of `rows` from the left.
#[cycle(check)]
#[tactic(auto, using(crate::proofs::Steps::steps))]
fn lines(
    alloc: Global,
    globals: &GlobalNames,
    scope: &mut LocalNames,
    e: &LineTrees,
    name: &Token,
) -> Result<Vec<Typed>, TypeFault>
    ensures checks { Gives list_of result (check_all (env_of globals.now) scope.old.locals.items scope.old.next [] (lines_phrases (word_of name.now) e.now)) }
    ensures keeps { OnOk result (Keeps scope.old scope.new (slots_of_all (lines_phrases (word_of name.now) e.now))) }
{
    let mut all = Vec::new(alloc);
    let first = line(alloc, globals, scope, &e.first, name)?;
    put(&mut all, first)?;
    for next in &e.rest {
        let typed = line(alloc, globals, scope, next, name)?;
        put(&mut all, typed)?;
    }
    Ok(all)
}

/// A line of `rows`.
#[cycle(check)]
#[tactic(auto, using(crate::proofs::Steps::steps))]
fn line(
    alloc: Global,
    globals: &GlobalNames,
    scope: &mut LocalNames,
    e: &LineTree,
    name: &Token,
) -> Result<Typed, TypeFault>
    ensures checks { Gives typing_of result (check (env_of globals.now) scope.old.locals.items scope.old.next (line_phrase (word_of name.now) e.now)) }
    ensures keeps { OnOk result (Keeps scope.old scope.new (slots_of (line_phrase (word_of name.now) e.now))) }
{
    let values = args(alloc, globals, scope, &e.args)?;
    check_line(alloc, globals, name, e.bracket.at, values)
}

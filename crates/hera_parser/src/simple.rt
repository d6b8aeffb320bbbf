//! Statements that hold no block.

ghost use Rattle.std.specs.Prelude.{◌<◌, ◌≤◌, [], ◌∷◌, length, IfOk, OnOk, IsErrOf};
ghost use Rattle.hera_syntax.specs.Grammar.{phrase};
ghost use Rattle.hera_syntax.specs.Grammar as phrases;
ghost use Rattle.hera_syntax.specs.Programs.{some_text_outline, some_value_outline, stmt_outline};
ghost use Rattle.hera_parser_exprs.specs.Reading.{Tells, Gives, Sticks};

use crate::decls::type_tree;
use crate::terminals::{APPLY, ASSERT, COMMIT, PRINT, RETURN, ROLLBACK};
use hera_parser_exprs::terminals::{
    CLOSE_PAREN, EQUALS, EXPR_STARTS, NAME, PAREN, SEMICOLON, TEXT,
};
use hera_parser_exprs::{Parser, Stop};
use hera_syntax::{Expr, StmtTree, Token};
use std::alloc::Global;

/// A declaration of a local.
pub(crate) fn declare(parser: &mut Parser<'_>, alloc: Global) -> Result<StmtTree, Stop>
    requires { Tells phrases.stmt 0 parser.old }
    ensures reads { IfOk result (λ tree. Gives (phrase phrases.stmt ∷ []) parser.old (stmt_outline tree) [] parser.new) }
    ensures sticks { IsErrOf result Stop.Syntax → Sticks (phrase phrases.stmt ∷ []) parser.old parser.new }
    ensures shorter { OnOk result (length parser.new < length parser.old) }
{
    let type_tree = type_tree(parser, alloc)?;
    let head = parser.kept_behind(type_tree, NAME)?;
    let head = parser.ended_by(head, EQUALS)?;
    let value = parser.expr(alloc);
    let part = parser.joined_until(head, value, SEMICOLON)?;
    let ((type_tree, name), value) = part;
    Ok(StmtTree::declare(type_tree, name, value))
}

/// `print` of a value.
pub(crate) fn print(parser: &mut Parser<'_>, alloc: Global) -> Result<StmtTree, Stop>
    requires { Tells phrases.stmt 5 parser.old }
    ensures reads { IfOk result (λ tree. Gives (phrase phrases.stmt ∷ []) parser.old (stmt_outline tree) [] parser.new) }
    ensures sticks { IsErrOf result Stop.Syntax → Sticks (phrase phrases.stmt ∷ []) parser.old parser.new }
    ensures shorter { OnOk result (length parser.new < length parser.old) }
{
    let word = parser.keep(PRINT)?;
    let value = parser.expr(alloc);
    let part = parser.joined_until(word, value, SEMICOLON)?;
    let (word, value) = part;
    Ok(StmtTree::print(word, value))
}

/// `apply` of a value.
pub(crate) fn apply(parser: &mut Parser<'_>, alloc: Global) -> Result<StmtTree, Stop>
    requires { Tells phrases.stmt 6 parser.old }
    ensures reads { IfOk result (λ tree. Gives (phrase phrases.stmt ∷ []) parser.old (stmt_outline tree) [] parser.new) }
    ensures sticks { IsErrOf result Stop.Syntax → Sticks (phrase phrases.stmt ∷ []) parser.old parser.new }
    ensures shorter { OnOk result (length parser.new < length parser.old) }
{
    let word = parser.keep(APPLY)?;
    let value = parser.expr(alloc);
    let part = parser.joined_until(word, value, SEMICOLON)?;
    let (word, value) = part;
    Ok(StmtTree::apply(word, value))
}

/// `assert` of a value.
pub(crate) fn assert(parser: &mut Parser<'_>, alloc: Global) -> Result<StmtTree, Stop>
    requires { Tells phrases.stmt 7 parser.old }
    ensures reads { IfOk result (λ tree. Gives (phrase phrases.stmt ∷ []) parser.old (stmt_outline tree) [] parser.new) }
    ensures sticks { IsErrOf result Stop.Syntax → Sticks (phrase phrases.stmt ∷ []) parser.old parser.new }
    ensures shorter { OnOk result (length parser.new < length parser.old) }
{
    let word = parser.keep(ASSERT)?;
    let value = parser.expr(alloc);
    let part = parser.joined_until(word, value, SEMICOLON)?;
    let (word, value) = part;
    Ok(StmtTree::assert(word, value))
}

/// A `commit`.
pub(crate) fn commit(parser: &mut Parser<'_>) -> Result<StmtTree, Stop>
    requires { Tells phrases.stmt 8 parser.old }
    ensures reads { IfOk result (λ tree. Gives (phrase phrases.stmt ∷ []) parser.old (stmt_outline tree) [] parser.new) }
    ensures sticks { IsErrOf result Stop.Syntax → Sticks (phrase phrases.stmt ∷ []) parser.old parser.new }
    ensures shorter { OnOk result (length parser.new < length parser.old) }
{
    let word = parser.keep(COMMIT)?;
    let label = some_text(parser);
    let part = parser.joined_until(word, label, SEMICOLON)?;
    let (word, label) = part;
    Ok(StmtTree::commit(word, label))
}

/// `text?`
fn some_text(parser: &mut Parser<'_>) -> Result<Option<Token>, Stop>
    ensures reads { IfOk result (λ label. Gives (phrase phrases.some_text ∷ []) parser.old (some_text_outline label) [] parser.new) }
    ensures sticks { IsErrOf result Stop.Syntax → Sticks (phrase phrases.some_text ∷ []) parser.old parser.new }
    ensures no_longer { OnOk result (length parser.new ≤ length parser.old) }
{
    if !parser.next_is(TEXT) {
        return Ok(None);
    }
    let label = parser.keep(TEXT)?;
    Ok(Some(label))
}

/// A `rollback`.
pub(crate) fn rollback(parser: &mut Parser<'_>) -> Result<StmtTree, Stop>
    requires { Tells phrases.stmt 9 parser.old }
    ensures reads { IfOk result (λ tree. Gives (phrase phrases.stmt ∷ []) parser.old (stmt_outline tree) [] parser.new) }
    ensures sticks { IsErrOf result Stop.Syntax → Sticks (phrase phrases.stmt ∷ []) parser.old parser.new }
    ensures shorter { OnOk result (length parser.new < length parser.old) }
{
    let word = parser.keep(ROLLBACK)?;
    parser.skip(SEMICOLON)?;
    Ok(StmtTree::rollback(word))
}

/// A `return`.
pub(crate) fn give_back(parser: &mut Parser<'_>, alloc: Global) -> Result<StmtTree, Stop>
    requires { Tells phrases.stmt 10 parser.old }
    ensures reads { IfOk result (λ tree. Gives (phrase phrases.stmt ∷ []) parser.old (stmt_outline tree) [] parser.new) }
    ensures sticks { IsErrOf result Stop.Syntax → Sticks (phrase phrases.stmt ∷ []) parser.old parser.new }
    ensures shorter { OnOk result (length parser.new < length parser.old) }
{
    let word = parser.keep(RETURN)?;
    let value = some_value(parser, alloc);
    let part = parser.joined_until(word, value, SEMICOLON)?;
    let (word, value) = part;
    Ok(StmtTree::give_back(word, value))
}

/// `expr?`
fn some_value(parser: &mut Parser<'_>, alloc: Global) -> Result<Option<Expr>, Stop>
    ensures reads { IfOk result (λ tree. Gives (phrase phrases.some_value ∷ []) parser.old (some_value_outline tree) [] parser.new) }
    ensures sticks { IsErrOf result Stop.Syntax → Sticks (phrase phrases.some_value ∷ []) parser.old parser.new }
    ensures no_longer { OnOk result (length parser.new ≤ length parser.old) }
{
    if !parser.next_is(EXPR_STARTS) {
        return Ok(None);
    }
    let inner = parser.expr(alloc)?;
    Ok(Some(inner))
}

/// `name '=' expr ';'` or `name '(' args? ')' ';'`
pub(crate) fn named(parser: &mut Parser<'_>, alloc: Global) -> Result<StmtTree, Stop>
    requires { Tells phrases.stmt 1 parser.old }
    ensures reads { IfOk result (λ tree. Gives (phrase phrases.stmt ∷ []) parser.old (stmt_outline tree) [] parser.new) }
    ensures sticks { IsErrOf result Stop.Syntax → Sticks (phrase phrases.stmt ∷ []) parser.old parser.new }
    ensures shorter { OnOk result (length parser.new < length parser.old) }
{
    let name = parser.keep(NAME)?;
    if parser.next_is(&[EQUALS]) {
        let target = parser.ended_by(name, EQUALS)?;
        let value = parser.expr(alloc);
        let assigned = parser.joined_until(target, value, SEMICOLON)?;
        let (name, value) = assigned;
        return Ok(StmtTree::assign(name, value));
    }
    let head = parser.kept_behind(name, PAREN)?;
    let args = parser.some_args(alloc);
    let part = parser.joined_until(head, args, CLOSE_PAREN)?;
    let part = parser.ended_by(part, SEMICOLON)?;
    let ((name, bracket), args) = part;
    Ok(StmtTree::call(name, bracket, args))
}

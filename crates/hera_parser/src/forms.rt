//! The forms of a statement.

ghost use Rattle.hera_syntax.specs.Grammar as phrases;
ghost use Rattle.hera_parser.specs.Numbers.{stmt_number};
ghost use Rattle.hera_parser_exprs.specs.Reading.{Tells};

use crate::terminals::{APPLY, ASSERT, COMMIT, FOREACH, IF, PRINT, ROLLBACK, TYPE_STARTS, WHILE};
use hera_parser_exprs::Parser;
use hera_parser_exprs::terminals::NAME;

/// The form of a statement.
#[derive(Clone, Copy)]
pub enum StmtForm {
    /// A declaration of a local.
    Declare,
    /// An assignment or a call.
    Named,
    /// `if`
    If,
    /// `while`
    While,
    /// `foreach`
    Foreach,
    /// `print`
    Print,
    /// `apply`
    Apply,
    /// `assert`
    Assert,
    /// `commit`
    Commit,
    /// `rollback`
    Rollback,
    /// `return`
    Return,
}

/// The form that the next token tells. It is the last one where the token begins none.
pub(crate) fn stmt_form(parser: &Parser<'_>) -> StmtForm
    ensures { Tells phrases.stmt (stmt_number result) parser.now }
{
    if parser.next_is(TYPE_STARTS) {
        return StmtForm::Declare;
    }
    if parser.next_is(NAME) {
        return StmtForm::Named;
    }
    if parser.next_is(IF) {
        return StmtForm::If;
    }
    if parser.next_is(WHILE) {
        return StmtForm::While;
    }
    if parser.next_is(FOREACH) {
        return StmtForm::Foreach;
    }
    if parser.next_is(PRINT) {
        return StmtForm::Print;
    }
    if parser.next_is(APPLY) {
        return StmtForm::Apply;
    }
    if parser.next_is(ASSERT) {
        return StmtForm::Assert;
    }
    if parser.next_is(COMMIT) {
        return StmtForm::Commit;
    }
    if parser.next_is(ROLLBACK) {
        return StmtForm::Rollback;
    }
    StmtForm::Return
}

//! Statements.

ghost use Rattle.std.specs.Prelude.{◌<◌, ◌≤◌, [], ◌∷◌, ◌++◌, length, IfOk, OnOk, IsErrOf};
ghost use Rattle.hera_syntax.specs.Grammar.{phrase, keep, leave};
ghost use Rattle.hera_syntax.specs.Grammar as phrases;
ghost use Rattle.hera_syntax.specs.Programs.{block_outline, else_if_row, last_else, stmt_outline};
ghost use Rattle.std.specs.List.{flat_map};
ghost use Rattle.hera_parser.specs.Pieces.{else_if_rest};
ghost use Rattle.hera_parser_exprs.specs.Reading.{Tells, Gives, Sticks};

use crate::forms::{StmtForm, stmt_form};
use crate::simple::{apply, assert, commit, declare, give_back, named, print, rollback};
use crate::terminals::{ELSE, FOREACH, IF, STMT_STARTS, WHILE};
use hera_parser_exprs::terminals::{BRACE, CLOSE_BRACE, CLOSE_PAREN, IN};
use hera_parser_exprs::{Items, Parser, Stop, joined, pushed};
use hera_syntax::{Block, ElseIf, StmtTree, Terminal};
use std::alloc::Global;

/// `'{' stmt* '}'`
#[cycle(stmt)]
pub(crate) fn block(parser: &mut Parser<'_>, alloc: Global) -> Result<Block, Stop>
    ensures reads { IfOk result (λ tree. Gives (phrase phrases.block ∷ []) parser.old (block_outline tree) [] parser.new) }
    ensures sticks { IsErrOf result Stop.Syntax → Sticks (phrase phrases.block ∷ []) parser.old parser.new }
    ensures shorter { OnOk result (length parser.new < length parser.old) }
{
    let bracket = parser.keep(BRACE)?;
    let mut items = Items::new(alloc, bracket);
    'stmts: while parser.next_is(STMT_STARTS) {
        let stmt = stmt(parser, alloc);
        items = items.with(stmt)?;
    }
    let all = parser.ended_by(items, CLOSE_BRACE)?;
    let Items { first, rest } = all;
    Ok(Block::new(first, rest))
}

/// A statement.
#[cycle(stmt)]
fn stmt(parser: &mut Parser<'_>, alloc: Global) -> Result<StmtTree, Stop>
    ensures reads { IfOk result (λ tree. Gives (phrase phrases.stmt ∷ []) parser.old (stmt_outline tree) [] parser.new) }
    ensures sticks { IsErrOf result Stop.Syntax → Sticks (phrase phrases.stmt ∷ []) parser.old parser.new }
    ensures shorter { OnOk result (length parser.new < length parser.old) }
{
    match stmt_form(parser) {
        StmtForm::Declare => declare(parser, alloc),
        StmtForm::Named => named(parser, alloc),
        StmtForm::If => branch(parser, alloc),
        StmtForm::While => repeat(parser, alloc),
        StmtForm::Foreach => foreach(parser, alloc),
        StmtForm::Print => print(parser, alloc),
        StmtForm::Apply => apply(parser, alloc),
        StmtForm::Assert => assert(parser, alloc),
        StmtForm::Commit => commit(parser),
        StmtForm::Rollback => rollback(parser),
        StmtForm::Return => give_back(parser, alloc),
    }
}

/// A keyword, a condition and a block.
#[cycle(stmt)]
fn guarded(parser: &mut Parser<'_>, alloc: Global, words: &[Terminal]) -> Result<ElseIf, Stop>
    ensures reads { IfOk result (λ tree. Gives (keep words.now ∷ keep phrases.paren ∷ phrase phrases.expr ∷ leave phrases.close_paren ∷ phrase phrases.block ∷ []) parser.old (else_if_rest tree) [] parser.new) }
    ensures sticks { IsErrOf result Stop.Syntax → Sticks (keep words.now ∷ keep phrases.paren ∷ phrase phrases.expr ∷ leave phrases.close_paren ∷ phrase phrases.block ∷ []) parser.old parser.new }
    ensures shorter { OnOk result (length parser.new < length parser.old) }
{
    let head = parser.bracketed(words)?;
    let condition = parser.expr(alloc);
    let part = parser.joined_until(head, condition, CLOSE_PAREN)?;
    let block = block(parser, alloc);
    let part = joined(part, block)?;
    let (((word, bracket), condition), block) = part;
    Ok(ElseIf::new(word, bracket, condition, block))
}

/// A `while`.
#[cycle(stmt)]
fn repeat(parser: &mut Parser<'_>, alloc: Global) -> Result<StmtTree, Stop>
    requires { Tells phrases.stmt 3 parser.old }
    ensures reads { IfOk result (λ tree. Gives (phrase phrases.stmt ∷ []) parser.old (stmt_outline tree) [] parser.new) }
    ensures sticks { IsErrOf result Stop.Syntax → Sticks (phrase phrases.stmt ∷ []) parser.old parser.new }
    ensures shorter { OnOk result (length parser.new < length parser.old) }
{
    let head = guarded(parser, alloc, WHILE)?;
    let ElseIf {
        word,
        bracket,
        condition,
        block,
    } = head;
    Ok(StmtTree::repeat(word, bracket, condition, block))
}

/// A `foreach`.
#[cycle(stmt)]
fn foreach(parser: &mut Parser<'_>, alloc: Global) -> Result<StmtTree, Stop>
    requires { Tells phrases.stmt 4 parser.old }
    ensures reads { IfOk result (λ tree. Gives (phrase phrases.stmt ∷ []) parser.old (stmt_outline tree) [] parser.new) }
    ensures sticks { IsErrOf result Stop.Syntax → Sticks (phrase phrases.stmt ∷ []) parser.old parser.new }
    ensures shorter { OnOk result (length parser.new < length parser.old) }
{
    let head = parser.naming(FOREACH, IN)?;
    let over = parser.expr(alloc);
    let part = parser.joined_until(head, over, CLOSE_PAREN)?;
    let block = block(parser, alloc);
    let part = joined(part, block)?;
    let ((((word, bracket), name), over), block) = part;
    Ok(StmtTree::foreach(word, bracket, name, over, block))
}

/// `('else' 'if' '(' expr ')' block)* ('else' block)?`
#[cycle(stmt)]
fn elses(parser: &mut Parser<'_>, alloc: Global) -> Result<(Vec<ElseIf>, Option<Block>), Stop>
    ensures reads { IfOk result (λ both. Gives (phrase phrases.else_part ∷ []) parser.old (flat_map else_if_row both.0.items ++ last_else both.1) [] parser.new) }
    ensures sticks { IsErrOf result Stop.Syntax → Sticks (phrase phrases.else_part ∷ []) parser.old parser.new }
    ensures no_longer { OnOk result (length parser.new ≤ length parser.old) }
{
    let mut items = Vec::new(alloc);
    'elses: while parser.takes(ELSE) {
        if !parser.next_is(IF) {
            let last = block(parser, alloc);
            let end = joined(items, last)?;
            let (items, last) = end;
            return Ok((items, Some(last)));
        }
        let item = guarded(parser, alloc, IF);
        items = pushed(items, item)?;
    }
    Ok((items, None))
}

/// An `if`.
#[cycle(stmt)]
fn branch(parser: &mut Parser<'_>, alloc: Global) -> Result<StmtTree, Stop>
    requires { Tells phrases.stmt 2 parser.old }
    ensures reads { IfOk result (λ tree. Gives (phrase phrases.stmt ∷ []) parser.old (stmt_outline tree) [] parser.new) }
    ensures sticks { IsErrOf result Stop.Syntax → Sticks (phrase phrases.stmt ∷ []) parser.old parser.new }
    ensures shorter { OnOk result (length parser.new < length parser.old) }
{
    let head = guarded(parser, alloc, IF)?;
    let rest = elses(parser, alloc);
    let both = joined(head, rest)?;
    let (head, (else_ifs, last)) = both;
    let ElseIf {
        word,
        bracket,
        condition,
        block,
    } = head;
    Ok(StmtTree::branch(word, bracket, condition, block, else_ifs, last))
}

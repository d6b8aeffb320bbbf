//! Declarations, and the whole program.

ghost use Rattle.std.specs.Prelude.{◌<◌, ◌≤◌, [], ◌∷◌, ◌++◌, length, IfOk, OnOk, IsErrOf};
ghost use Rattle.hera_syntax.specs.Grammar.{phrase};
ghost use Rattle.hera_syntax.specs.Grammar as phrases;
ghost use Rattle.hera_syntax.specs.Outline.{node};
ghost use Rattle.hera_syntax.specs.Programs.{func_outline, func_row, last_main_outline, main_outline, outline, proc_outline, proc_row, relation_outline, relation_row};
ghost use Rattle.std.specs.List.{flat_map};
ghost use Rattle.hera_parser_exprs.specs.Reading.{Gives, Sticks};

use crate::decls::{attrs, some_params, type_tree};
use crate::stmts::block;
use crate::terminals::{FUNC, MAIN, PROC, RELATION};
use hera_parser_exprs::terminals::{CLOSE_PAREN, NAME, PAREN, SEMICOLON};
use hera_parser_exprs::{Parser, Stop, joined, pushed};
use hera_syntax::{Func, Main, Proc, Relation, Tree};
use std::alloc::Global;

/// A relation.
fn relation(parser: &mut Parser<'_>, alloc: Global) -> Result<Relation, Stop>
    ensures reads { IfOk result (λ tree. Gives (phrase phrases.relation ∷ []) parser.old (relation_outline tree) [] parser.new) }
    ensures sticks { IsErrOf result Stop.Syntax → Sticks (phrase phrases.relation ∷ []) parser.old parser.new }
    ensures shorter { OnOk result (length parser.new < length parser.old) }
{
    let word = parser.keep(RELATION)?;
    let head = parser.kept_behind(word, NAME)?;
    let head = parser.kept_behind(head, PAREN)?;
    let attrs = attrs(parser, alloc);
    let part = parser.joined_until(head, attrs, CLOSE_PAREN)?;
    let part = parser.ended_by(part, SEMICOLON)?;
    let (((word, name), bracket), attrs) = part;
    Ok(Relation::new(word, name, bracket, attrs))
}

/// A func.
fn func(parser: &mut Parser<'_>, alloc: Global) -> Result<Func, Stop>
    ensures reads { IfOk result (λ tree. Gives (phrase phrases.func ∷ []) parser.old (func_outline tree) [] parser.new) }
    ensures sticks { IsErrOf result Stop.Syntax → Sticks (phrase phrases.func ∷ []) parser.old parser.new }
    ensures shorter { OnOk result (length parser.new < length parser.old) }
{
    let word = parser.keep(FUNC)?;
    let type_tree = type_tree(parser, alloc);
    let head = joined(word, type_tree)?;
    let head = parser.kept_behind(head, NAME)?;
    let head = parser.kept_behind(head, PAREN)?;
    let params = some_params(parser, alloc);
    let part = parser.joined_until(head, params, CLOSE_PAREN)?;
    let block = block(parser, alloc);
    let part = joined(part, block)?;
    let (((((word, type_tree), name), bracket), params), block) = part;
    Ok(Func::new(word, type_tree, name, bracket, params, block))
}

/// A proc.
fn procedure(parser: &mut Parser<'_>, alloc: Global) -> Result<Proc, Stop>
    ensures reads { IfOk result (λ tree. Gives (phrase phrases.proc ∷ []) parser.old (proc_outline tree) [] parser.new) }
    ensures sticks { IsErrOf result Stop.Syntax → Sticks (phrase phrases.proc ∷ []) parser.old parser.new }
    ensures shorter { OnOk result (length parser.new < length parser.old) }
{
    let word = parser.keep(PROC)?;
    let head = parser.kept_behind(word, NAME)?;
    let head = parser.kept_behind(head, PAREN)?;
    let params = some_params(parser, alloc);
    let part = parser.joined_until(head, params, CLOSE_PAREN)?;
    let block = block(parser, alloc);
    let part = joined(part, block)?;
    let ((((word, name), bracket), params), block) = part;
    Ok(Proc::new(word, name, bracket, params, block))
}

/// The main block.
fn main_block(parser: &mut Parser<'_>, alloc: Global) -> Result<Main, Stop>
    ensures reads { IfOk result (λ tree. Gives (phrase phrases.main ∷ []) parser.old (main_outline tree) [] parser.new) }
    ensures sticks { IsErrOf result Stop.Syntax → Sticks (phrase phrases.main ∷ []) parser.old parser.new }
    ensures shorter { OnOk result (length parser.new < length parser.old) }
{
    let word = parser.keep(MAIN)?;
    let block = block(parser, alloc)?;
    Ok(Main::new(word, block))
}

/// `main?`
fn last_main(parser: &mut Parser<'_>, alloc: Global) -> Result<Option<Main>, Stop>
    ensures reads { IfOk result (λ tree. Gives (phrase phrases.last_main ∷ []) parser.old (last_main_outline tree) [] parser.new) }
    ensures sticks { IsErrOf result Stop.Syntax → Sticks (phrase phrases.last_main ∷ []) parser.old parser.new }
    ensures no_longer { OnOk result (length parser.new ≤ length parser.old) }
{
    if !parser.next_is(MAIN) {
        return Ok(None);
    }
    let inner = main_block(parser, alloc)?;
    Ok(Some(inner))
}

/// `relation*`
fn relations(parser: &mut Parser<'_>, alloc: Global) -> Result<Vec<Relation>, Stop>
    ensures reads { IfOk result (λ tree. Gives (phrase phrases.relations ∷ []) parser.old (flat_map relation_row tree.items ++ node phrases.relations 1) [] parser.new) }
    ensures sticks { IsErrOf result Stop.Syntax → Sticks (phrase phrases.relations ∷ []) parser.old parser.new }
    ensures no_longer { OnOk result (length parser.new ≤ length parser.old) }
{
    let mut all = Vec::new(alloc);
    'all: while parser.next_is(RELATION) {
        let item = relation(parser, alloc);
        all = pushed(all, item)?;
    }
    Ok(all)
}

/// `func*`
fn funcs(parser: &mut Parser<'_>, alloc: Global) -> Result<Vec<Func>, Stop>
    ensures reads { IfOk result (λ tree. Gives (phrase phrases.funcs ∷ []) parser.old (flat_map func_row tree.items ++ node phrases.funcs 1) [] parser.new) }
    ensures sticks { IsErrOf result Stop.Syntax → Sticks (phrase phrases.funcs ∷ []) parser.old parser.new }
    ensures no_longer { OnOk result (length parser.new ≤ length parser.old) }
{
    let mut all = Vec::new(alloc);
    'all: while parser.next_is(FUNC) {
        let item = func(parser, alloc);
        all = pushed(all, item)?;
    }
    Ok(all)
}

/// `proc*`
fn procs(parser: &mut Parser<'_>, alloc: Global) -> Result<Vec<Proc>, Stop>
    ensures reads { IfOk result (λ tree. Gives (phrase phrases.procs ∷ []) parser.old (flat_map proc_row tree.items ++ node phrases.procs 1) [] parser.new) }
    ensures sticks { IsErrOf result Stop.Syntax → Sticks (phrase phrases.procs ∷ []) parser.old parser.new }
    ensures no_longer { OnOk result (length parser.new ≤ length parser.old) }
{
    let mut all = Vec::new(alloc);
    'all: while parser.next_is(PROC) {
        let item = procedure(parser, alloc);
        all = pushed(all, item)?;
    }
    Ok(all)
}

/// `relation* func* proc* main?`
pub(crate) fn program(parser: &mut Parser<'_>, alloc: Global) -> Result<Tree, Stop>
    ensures reads { IfOk result (λ tree. Gives (phrase phrases.program ∷ []) parser.old (outline tree) [] parser.new) }
    ensures sticks { IsErrOf result Stop.Syntax → Sticks (phrase phrases.program ∷ []) parser.old parser.new }
    ensures no_longer { OnOk result (length parser.new ≤ length parser.old) }
{
    let relations = relations(parser, alloc)?;
    let funcs = funcs(parser, alloc);
    let parts = joined(relations, funcs)?;
    let procs = procs(parser, alloc);
    let parts = joined(parts, procs)?;
    let main = last_main(parser, alloc);
    let parts = joined(parts, main)?;
    let (((relations, funcs), procs), main) = parts;
    Ok(Tree::new(relations, funcs, procs, main))
}

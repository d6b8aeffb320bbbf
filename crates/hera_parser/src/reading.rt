ghost use Rattle.std.specs.Prelude.{ℕ, IfOk, IsErrOf};
ghost use Rattle.hera_syntax.specs.Trees.{IsTextOf, IsFaultAt};

use crate::program::program;
use hera_parser_exprs::{Parser, Stop};
use hera_syntax::{Tokens, Tree};
use std::alloc::Global;
use thiserror::Error;

/// Why there is no tree.
#[derive(Debug, Drop, Error)]
pub enum ParseFault {
    /// No tree has these tokens. `token` is the number of the first token such that the tokens up to
    /// and including it do not begin a program. It is the number of all tokens where they begin one.
    #[error("the tokens are no program")]
    Syntax { token: usize },
    /// No memory for the tree.
    #[error("out of memory")]
    Memory,
}

/// The tree whose text the tokens are.
///
/// The recursion goes deeper only inside brackets: chains of operators, of `when` and of `else if` are
/// flat.
pub fn parse(alloc: Global, tokens: &Tokens) -> Result<Tree, ParseFault>
    ensures tree { IfOk result (λ tree. IsTextOf tree tokens.now.0) }
    ensures syntax { (place : ℕ) → IsErrOf result (ParseFault.Syntax place) → IsFaultAt tokens.now.0 place }
{
    let items = tokens.items();
    let mut parser = Parser::new(items);
    match program(&mut parser, alloc) {
        Ok(tree) => {
            let left = parser.left();
            if left == 0 {
                return Ok(tree);
            }
            Err(ParseFault::Syntax {
                token: items.len() - left,
            })
        }
        Err(Stop::Syntax) => {
            let left = parser.left();
            Err(ParseFault::Syntax {
                token: items.len() - left,
            })
        }
        Err(Stop::Memory) => Err(ParseFault::Memory),
    }
}

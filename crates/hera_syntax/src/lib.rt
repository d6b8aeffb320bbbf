//! Tokens and syntax trees.
//!
//! The definitions in `specs/` say what the tokens of a script are and what text a tree has. The
//! lexer and the parser are proved against them.
#![tactic(auto)]

mod expr;
mod token;
mod tokens;
mod tree;
mod words;

pub use expr::{
    AggTree, ArgTrees, Atom, Atoms, Binding, Bindings, Expr, Level, LineTree, LineTrees, NamedAgg,
    NamedAggs, Names, OperandTree, Post, Prefix, Prime, Renaming, Renamings, Tail,
};
pub use token::{PieceShape, Terminal, Token, TokenKind};
pub use tokens::{DEPTH_LIMIT, SCRIPT_LIMIT, Tokens};
pub use tree::{
    AttrTree, Attrs, Block, ElseIf, Func, KindTree, Main, Param, Params, Proc, Relation,
    SchemaTree, StmtTree, Tree, TypeTree,
};
pub use words::{Keyword, Mark};

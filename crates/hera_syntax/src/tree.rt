//! The trees of statements, declarations and the whole program.

use crate::Token;
use crate::expr::{ArgTrees, Expr};

mod build;

/// `'int' | 'bool' | 'text'`
#[derive(Drop)]
pub struct KindTree {
    pub word: Token,
}

/// `name kind`
#[derive(Drop)]
pub struct AttrTree {
    pub name: Token,
    pub kind: KindTree,
}

/// `name kind (',' name kind)*`
#[derive(Drop)]
pub struct Attrs {
    pub first: AttrTree,
    pub rest: Vec<AttrTree>,
}

/// The schema of a type.
#[derive(Drop)]
pub enum SchemaTree {
    /// The name of a relation.
    Name(Token),
    /// `'(' attrs ')'`
    Written { bracket: Token, attrs: Attrs },
}

/// `kind | 'delta' | 'rel' schema | 'tuple' schema`
#[derive(Drop)]
pub enum TypeTree {
    /// `int`, `bool` or `text`.
    Kind(KindTree),
    /// `delta`.
    Delta(Token),
    /// `rel` and its schema.
    Rel { word: Token, schema: SchemaTree },
    /// `tuple` and its schema.
    Tuple { word: Token, schema: SchemaTree },
}

/// `type name`
#[derive(Drop)]
pub struct Param {
    pub type_tree: TypeTree,
    pub name: Token,
}

/// `type name (',' type name)*`
#[derive(Drop)]
pub struct Params {
    pub first: Param,
    pub rest: Vec<Param>,
}

/// `'{' stmt* '}'`
#[derive(Drop)]
#[cycle(stmt)]
pub struct Block {
    pub bracket: Token,
    pub stmts: Vec<StmtTree>,
}

/// `'else' 'if' '(' expr ')' block`
#[derive(Drop)]
#[cycle(stmt)]
pub struct ElseIf {
    pub word: Token,
    pub bracket: Token,
    pub condition: Expr,
    pub block: Block,
}

/// A statement.
#[derive(Drop)]
#[cycle(stmt)]
pub enum StmtTree {
    /// `type name '=' expr ';'`
    Declare {
        type_tree: TypeTree,
        name: Token,
        value: Expr,
    },
    /// `name '=' expr ';'`
    Assign {
        name: Token,
        value: Expr,
    },
    /// `name '(' args? ')' ';'`
    Call {
        name: Token,
        bracket: Token,
        args: Option<ArgTrees>,
    },
    /// `'if' '(' expr ')' block ('else' 'if' '(' expr ')' block)* ('else' block)?`
    If {
        word: Token,
        bracket: Token,
        condition: Expr,
        block: Block,
        else_ifs: Vec<ElseIf>,
        last: Option<Block>,
    },
    /// `'while' '(' expr ')' block`
    While {
        word: Token,
        bracket: Token,
        condition: Expr,
        block: Block,
    },
    /// `'foreach' '(' name 'in' expr ')' block`
    Foreach {
        word: Token,
        bracket: Token,
        name: Token,
        over: Expr,
        block: Block,
    },
    /// `'print' expr ';'`
    Print {
        word: Token,
        value: Expr,
    },
    /// `'apply' expr ';'`
    Apply {
        word: Token,
        value: Expr,
    },
    /// `'assert' expr ';'`
    Assert {
        word: Token,
        value: Expr,
    },
    /// `'commit' text? ';'`
    Commit {
        word: Token,
        label: Option<Token>,
    },
    /// `'rollback' ';'`
    Rollback(Token),
    /// `'return' expr? ';'`
    Return {
        word: Token,
        value: Option<Expr>,
    },
}

/// `'relation' name '(' attrs ')' ';'`
#[derive(Drop)]
pub struct Relation {
    pub word: Token,
    pub name: Token,
    pub bracket: Token,
    pub attrs: Attrs,
}

/// `'func' type name '(' params? ')' block`
#[derive(Drop)]
pub struct Func {
    pub word: Token,
    pub type_tree: TypeTree,
    pub name: Token,
    pub bracket: Token,
    pub params: Option<Params>,
    pub block: Block,
}

/// `'proc' name '(' params? ')' block`
#[derive(Drop)]
pub struct Proc {
    pub word: Token,
    pub name: Token,
    pub bracket: Token,
    pub params: Option<Params>,
    pub block: Block,
}

/// `'main' block`
#[derive(Drop)]
pub struct Main {
    pub word: Token,
    pub block: Block,
}

/// A whole program: `relation* func* proc* main?`
#[derive(Drop)]
pub struct Tree {
    pub relations: Vec<Relation>,
    pub funcs: Vec<Func>,
    pub procs: Vec<Proc>,
    pub main: Option<Main>,
}

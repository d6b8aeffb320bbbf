//! The trees of expressions: one type for each production, but for the levels of operators, which are one
//! type with its level.
//!
//! A chain of one level is flat: its first operand, and then each operator with its operand. A tree
//! keeps the whole token of each name, literal, operator, heading keyword and opening bracket.

use crate::{Keyword, Mark, Terminal, Token};

mod build;

/// The levels of operators, from the loosest. The operand of a level is an expression of the next one, and
/// that of the last level a prefix.
#[derive(Clone, Copy, Debug, PartialEq, Eq)]
pub enum Level {
    /// `or ('when' or)*`
    Whens,
    /// `and ('||' and)*`
    Ors,
    /// `cmp ('&&' cmp)*`
    Ands,
    /// `sum (('==' | '!=' | '<' | '<=' | '>' | '>=' | 'in') sum)?`
    Comparisons,
    /// `term (('+' | '-') term)*`
    Sums,
    /// `smash (('*' | '/' | '%') smash)*`
    Terms,
    /// `merge ('!' merge)*`
    Smashes,
    /// `prefix ('&' prefix)*`
    Merges,
}

impl Level {
    ghost use Rattle.std.specs.Prelude.{◌≡◌};
    ghost use Rattle.hera_syntax.specs.Operators.{below, operators_of};

    /// The level of its operands, or `None` where they are prefixes.
    pub fn below(self) -> Option<Level>
        ensures { result ≡ below self }
    {
        match self {
            Level::Whens => Some(Level::Ors),
            Level::Ors => Some(Level::Ands),
            Level::Ands => Some(Level::Comparisons),
            Level::Comparisons => Some(Level::Sums),
            Level::Sums => Some(Level::Terms),
            Level::Terms => Some(Level::Smashes),
            Level::Smashes => Some(Level::Merges),
            Level::Merges => None,
        }
    }

    /// The terminals of its operators.
    pub fn operators(self) -> &'static [Terminal]
        ensures { result.now ≡ operators_of self }
    {
        match self {
            Level::Whens => &[Terminal::Key(Keyword::When)],
            Level::Ors => &[Terminal::Punct(Mark::OrOr)],
            Level::Ands => &[Terminal::Punct(Mark::AndAnd)],
            Level::Comparisons => &[
                Terminal::Punct(Mark::EqualEqual),
                Terminal::Punct(Mark::NotEqual),
                Terminal::Punct(Mark::Less),
                Terminal::Punct(Mark::LessEqual),
                Terminal::Punct(Mark::Greater),
                Terminal::Punct(Mark::GreaterEqual),
                Terminal::Key(Keyword::In),
            ],
            Level::Sums => &[Terminal::Punct(Mark::Plus), Terminal::Punct(Mark::Minus)],
            Level::Terms => &[
                Terminal::Punct(Mark::Star),
                Terminal::Punct(Mark::Slash),
                Terminal::Punct(Mark::Percent),
            ],
            Level::Smashes => &[Terminal::Punct(Mark::Bang)],
            Level::Merges => &[Terminal::Punct(Mark::And)],
        }
    }
}

/// An expression of one level: its first operand, and then each operator with its operand.
#[derive(Drop)]
#[cycle(expr)]
pub struct Expr {
    pub level: Level,
    pub first: OperandTree,
    pub rest: Vec<Tail>,
}

/// An operator and its right operand.
#[derive(Drop)]
#[cycle(expr)]
pub struct Tail {
    pub op: Token,
    pub operand: OperandTree,
}

/// An operand of a level.
#[derive(Drop)]
#[cycle(expr)]
pub enum OperandTree {
    /// An expression of the next level.
    Inner(Box<Expr>),
    /// The operand of the last level.
    Prefix(Prefix),
}

/// `('-' | '!')? post`
#[derive(Drop)]
#[cycle(expr)]
pub struct Prefix {
    pub op: Option<Token>,
    pub operand: Post,
}

/// `prime ('.' name)?`
#[derive(Drop)]
#[cycle(expr)]
pub struct Post {
    pub operand: Box<Prime>,
    pub field: Option<Token>,
}

/// An expression that no operator splits.
#[derive(Drop)]
#[cycle(expr)]
pub enum Prime {
    /// An int literal.
    Int(Token),
    /// A text literal.
    Text(Token),
    /// `true`
    True(Token),
    /// `false`
    False(Token),
    /// `fail`
    Fail(Token),
    /// A name that no bracket follows.
    Name(Token),
    /// `name '(' args? ')'`
    Call {
        name: Token,
        bracket: Token,
        args: Option<Box<ArgTrees>>,
    },
    /// `'(' expr ')'`
    Paren {
        bracket: Token,
        inner: Box<Expr>,
    },
    /// `'[' name '=' expr (',' name '=' expr)* ']'`
    Row {
        bracket: Token,
        bindings: Box<Bindings>,
    },
    /// `'{' (atom (',' atom)*)? '}'`
    Delta {
        bracket: Token,
        atoms: Option<Box<Atoms>>,
    },
    /// `'rows' '(' name ')' '{' (line (',' line)*)? '}'`
    Rows {
        word: Token,
        bracket: Token,
        name: Token,
        brace: Token,
        lines: Option<Box<LineTrees>>,
    },
    /// `('select' | 'map') '(' name 'in' expr ':' expr ')'`
    Walk {
        word: Token,
        bracket: Token,
        name: Token,
        over: Box<Expr>,
        body: Box<Expr>,
    },
    /// `'project' '(' expr ';' name (',' name)* ')'`
    Project {
        word: Token,
        bracket: Token,
        over: Box<Expr>,
        names: Names,
    },
    /// `'rename' '(' expr ';' name '=' name (',' name '=' name)* ')'`
    Rename {
        word: Token,
        bracket: Token,
        over: Box<Expr>,
        renamings: Renamings,
    },
    /// `('union' | 'minus' | 'inter' | 'join') '(' expr ',' expr ')'`
    Pair {
        word: Token,
        bracket: Token,
        left: Box<Expr>,
        right: Box<Expr>,
    },
    /// `'group' '(' expr ';' 'by' name (',' name)* ';' name '=' agg (',' name '=' agg)* ')'`
    Group {
        word: Token,
        bracket: Token,
        over: Box<Expr>,
        names: Names,
        aggs: NamedAggs,
    },
    /// `('count' | 'empty' | 'isfail') '(' expr ')'`
    Measure {
        word: Token,
        bracket: Token,
        over: Box<Expr>,
    },
    /// `('sum' | 'min' | 'max') '(' expr ',' name ')'`
    Fold {
        word: Token,
        bracket: Token,
        over: Box<Expr>,
        name: Token,
    },
    /// `'bulk' '(' ('+' | '-') name ',' expr ')'`
    Bulk {
        word: Token,
        bracket: Token,
        sign: Token,
        name: Token,
        over: Box<Expr>,
    },
    /// `('ins' | 'del') '(' name ',' expr ')'`
    Part {
        word: Token,
        bracket: Token,
        name: Token,
        over: Box<Expr>,
    },
}

/// `expr (',' expr)*`
#[derive(Drop)]
#[cycle(expr)]
pub struct ArgTrees {
    pub first: Expr,
    pub rest: Vec<Expr>,
}

/// `name '=' expr`
#[derive(Drop)]
#[cycle(expr)]
pub struct Binding {
    pub name: Token,
    pub value: Expr,
}

/// `name '=' expr (',' name '=' expr)*`
#[derive(Drop)]
#[cycle(expr)]
pub struct Bindings {
    pub first: Binding,
    pub rest: Vec<Binding>,
}

/// `('+' | '-') name '(' args ')'`
#[derive(Drop)]
#[cycle(expr)]
pub struct Atom {
    pub sign: Token,
    pub name: Token,
    pub bracket: Token,
    pub args: ArgTrees,
}

/// `atom (',' atom)*`
#[derive(Drop)]
#[cycle(expr)]
pub struct Atoms {
    pub first: Atom,
    pub rest: Vec<Atom>,
}

/// `'(' args ')'`
#[derive(Drop)]
#[cycle(expr)]
pub struct LineTree {
    pub bracket: Token,
    pub args: ArgTrees,
}

/// `line (',' line)*`
#[derive(Drop)]
#[cycle(expr)]
pub struct LineTrees {
    pub first: LineTree,
    pub rest: Vec<LineTree>,
}

/// `name (',' name)*`
#[derive(Drop)]
pub struct Names {
    pub first: Token,
    pub rest: Vec<Token>,
}

/// `name '=' name`, the new name and the old one
#[derive(Drop)]
pub struct Renaming {
    pub new: Token,
    pub old: Token,
}

/// `name '=' name (',' name '=' name)*`
#[derive(Drop)]
pub struct Renamings {
    pub first: Renaming,
    pub rest: Vec<Renaming>,
}

/// An aggregate of a group.
#[derive(Drop)]
pub enum AggTree {
    /// `'count'`
    Count(Token),
    /// `('sum' | 'min' | 'max') '(' name ')'`
    Of {
        word: Token,
        bracket: Token,
        name: Token,
    },
}

/// `name '=' agg`
#[derive(Drop)]
pub struct NamedAgg {
    pub name: Token,
    pub agg: AggTree,
}

/// `name '=' agg (',' name '=' agg)*`
#[derive(Drop)]
pub struct NamedAggs {
    pub first: NamedAgg,
    pub rest: Vec<NamedAgg>,
}

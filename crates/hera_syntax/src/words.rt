//! The keywords and the punctuation.

ghost use Rattle.std.specs.Prelude.{◌≡◌, nat_eq};
ghost use Rattle.hera_syntax.specs.Words.{keyword_number, keyword_text, mark_number};

/// A keyword: a word that is no identifier.
#[derive(Clone, Copy, Debug, PartialEq, Eq)]
pub enum Keyword {
    /// `relation`
    Relation,
    /// `func`
    Func,
    /// `proc`
    Proc,
    /// `main`
    Main,
    /// `int`
    Int,
    /// `bool`
    Bool,
    /// `text`
    Text,
    /// `delta`
    Delta,
    /// `rel`
    Rel,
    /// `tuple`
    Tuple,
    /// `if`
    If,
    /// `else`
    Else,
    /// `while`
    While,
    /// `foreach`
    Foreach,
    /// `in`
    In,
    /// `print`
    Print,
    /// `apply`
    Apply,
    /// `commit`
    Commit,
    /// `rollback`
    Rollback,
    /// `assert`
    Assert,
    /// `return`
    Return,
    /// `true`
    True,
    /// `false`
    False,
    /// `fail`
    Fail,
    /// `when`
    When,
    /// `rows`
    Rows,
    /// `select`
    Select,
    /// `map`
    Map,
    /// `project`
    Project,
    /// `rename`
    Rename,
    /// `union`
    Union,
    /// `minus`
    Minus,
    /// `inter`
    Inter,
    /// `join`
    Join,
    /// `group`
    Group,
    /// `by`
    By,
    /// `count`
    Count,
    /// `empty`
    Empty,
    /// `sum`
    Sum,
    /// `min`
    Min,
    /// `max`
    Max,
    /// `isfail`
    IsFail,
    /// `bulk`
    Bulk,
    /// `ins`
    Ins,
    /// `del`
    Del,
}

impl Keyword {
    /// Every keyword, in the order of their numbers.
    pub const ALL: [Keyword; 45] = [
        Keyword::Relation,
        Keyword::Func,
        Keyword::Proc,
        Keyword::Main,
        Keyword::Int,
        Keyword::Bool,
        Keyword::Text,
        Keyword::Delta,
        Keyword::Rel,
        Keyword::Tuple,
        Keyword::If,
        Keyword::Else,
        Keyword::While,
        Keyword::Foreach,
        Keyword::In,
        Keyword::Print,
        Keyword::Apply,
        Keyword::Commit,
        Keyword::Rollback,
        Keyword::Assert,
        Keyword::Return,
        Keyword::True,
        Keyword::False,
        Keyword::Fail,
        Keyword::When,
        Keyword::Rows,
        Keyword::Select,
        Keyword::Map,
        Keyword::Project,
        Keyword::Rename,
        Keyword::Union,
        Keyword::Minus,
        Keyword::Inter,
        Keyword::Join,
        Keyword::Group,
        Keyword::By,
        Keyword::Count,
        Keyword::Empty,
        Keyword::Sum,
        Keyword::Min,
        Keyword::Max,
        Keyword::IsFail,
        Keyword::Bulk,
        Keyword::Ins,
        Keyword::Del,
    ];

    /// How it is written.
    pub fn text(self) -> &'static str
        ensures { result.now ≡ keyword_text self }
    {
        match self {
            Keyword::Relation => "relation",
            Keyword::Func => "func",
            Keyword::Proc => "proc",
            Keyword::Main => "main",
            Keyword::Int => "int",
            Keyword::Bool => "bool",
            Keyword::Text => "text",
            Keyword::Delta => "delta",
            Keyword::Rel => "rel",
            Keyword::Tuple => "tuple",
            Keyword::If => "if",
            Keyword::Else => "else",
            Keyword::While => "while",
            Keyword::Foreach => "foreach",
            Keyword::In => "in",
            Keyword::Print => "print",
            Keyword::Apply => "apply",
            Keyword::Commit => "commit",
            Keyword::Rollback => "rollback",
            Keyword::Assert => "assert",
            Keyword::Return => "return",
            Keyword::True => "true",
            Keyword::False => "false",
            Keyword::Fail => "fail",
            Keyword::When => "when",
            Keyword::Rows => "rows",
            Keyword::Select => "select",
            Keyword::Map => "map",
            Keyword::Project => "project",
            Keyword::Rename => "rename",
            Keyword::Union => "union",
            Keyword::Minus => "minus",
            Keyword::Inter => "inter",
            Keyword::Join => "join",
            Keyword::Group => "group",
            Keyword::By => "by",
            Keyword::Count => "count",
            Keyword::Empty => "empty",
            Keyword::Sum => "sum",
            Keyword::Min => "min",
            Keyword::Max => "max",
            Keyword::IsFail => "isfail",
            Keyword::Bulk => "bulk",
            Keyword::Ins => "ins",
            Keyword::Del => "del",
        }
    }

    /// Whether both are one.
    pub fn is(self, other: Keyword) -> bool
        ensures { result ≡ nat_eq (keyword_number self) (keyword_number other) }
    {
        self as u8 == other as u8
    }
}

/// A punctuation.
#[derive(Clone, Copy, Debug, PartialEq, Eq)]
pub enum Mark {
    /// `(`
    OpenParen,
    /// `)`
    CloseParen,
    /// `[`
    OpenSquare,
    /// `]`
    CloseSquare,
    /// `{`
    OpenBrace,
    /// `}`
    CloseBrace,
    /// `,`
    Comma,
    /// `;`
    Semicolon,
    /// `:`
    Colon,
    /// `.`
    Dot,
    /// `=`
    Equals,
    /// `==`
    EqualEqual,
    /// `!=`
    NotEqual,
    /// `<`
    Less,
    /// `<=`
    LessEqual,
    /// `>`
    Greater,
    /// `>=`
    GreaterEqual,
    /// `+`
    Plus,
    /// `-`
    Minus,
    /// `*`
    Star,
    /// `/`
    Slash,
    /// `%`
    Percent,
    /// `!`
    Bang,
    /// `&`
    And,
    /// `&&`
    AndAnd,
    /// `||`
    OrOr,
}

impl Mark {
    /// Whether both are one.
    pub fn is(self, other: Mark) -> bool
        ensures { result ≡ nat_eq (mark_number self) (mark_number other) }
    {
        self as u8 == other as u8
    }
}

//! The terminals that the reader of expressions looks for. Those of declarations and statements too are public.

use hera_syntax::{Keyword, Mark, Terminal};

/// A name.
pub const NAME: &[Terminal] = &[Terminal::Name];

/// `(`
pub const PAREN: &[Terminal] = &[Terminal::Punct(Mark::OpenParen)];

pub(crate) const SQUARE: &[Terminal] = &[Terminal::Punct(Mark::OpenSquare)];

/// `{`
pub const BRACE: &[Terminal] = &[Terminal::Punct(Mark::OpenBrace)];

pub(crate) const INT: &[Terminal] = &[Terminal::Int];

/// A text literal.
pub const TEXT: &[Terminal] = &[Terminal::Text];

pub(crate) const CMP_OPS: &[Terminal] = &[
    Terminal::Punct(Mark::EqualEqual),
    Terminal::Punct(Mark::NotEqual),
    Terminal::Punct(Mark::Less),
    Terminal::Punct(Mark::LessEqual),
    Terminal::Punct(Mark::Greater),
    Terminal::Punct(Mark::GreaterEqual),
    Terminal::Key(Keyword::In),
];

pub(crate) const PREFIX_OPS: &[Terminal] = &[
    Terminal::Punct(Mark::Minus),
    Terminal::Punct(Mark::Bang),
];

pub(crate) const SIGNS: &[Terminal] = &[Terminal::Punct(Mark::Plus), Terminal::Punct(Mark::Minus)];

pub(crate) const WALK_WORDS: &[Terminal] = &[
    Terminal::Key(Keyword::Select),
    Terminal::Key(Keyword::Map),
];

pub(crate) const PAIR_WORDS: &[Terminal] = &[
    Terminal::Key(Keyword::Union),
    Terminal::Key(Keyword::Minus),
    Terminal::Key(Keyword::Inter),
    Terminal::Key(Keyword::Join),
];

pub(crate) const MEASURE_WORDS: &[Terminal] = &[
    Terminal::Key(Keyword::Count),
    Terminal::Key(Keyword::Empty),
    Terminal::Key(Keyword::IsFail),
];

pub(crate) const FOLD_WORDS: &[Terminal] = &[
    Terminal::Key(Keyword::Sum),
    Terminal::Key(Keyword::Min),
    Terminal::Key(Keyword::Max),
];

pub(crate) const PART_WORDS: &[Terminal] = &[
    Terminal::Key(Keyword::Ins),
    Terminal::Key(Keyword::Del),
];

pub(crate) const TRUE: &[Terminal] = &[Terminal::Key(Keyword::True)];

pub(crate) const FALSE: &[Terminal] = &[Terminal::Key(Keyword::False)];

pub(crate) const FAIL: &[Terminal] = &[Terminal::Key(Keyword::Fail)];

pub(crate) const ROWS: &[Terminal] = &[Terminal::Key(Keyword::Rows)];

pub(crate) const PROJECT: &[Terminal] = &[Terminal::Key(Keyword::Project)];

pub(crate) const RENAME: &[Terminal] = &[Terminal::Key(Keyword::Rename)];

pub(crate) const GROUP: &[Terminal] = &[Terminal::Key(Keyword::Group)];

pub(crate) const COUNT: &[Terminal] = &[Terminal::Key(Keyword::Count)];

pub(crate) const BULK: &[Terminal] = &[Terminal::Key(Keyword::Bulk)];

/// What an expression begins with.
pub const EXPR_STARTS: &[Terminal] = &[
    Terminal::Punct(Mark::Minus),
    Terminal::Punct(Mark::Bang),
    Terminal::Int,
    Terminal::Text,
    Terminal::Key(Keyword::True),
    Terminal::Key(Keyword::False),
    Terminal::Key(Keyword::Fail),
    Terminal::Name,
    Terminal::Punct(Mark::OpenParen),
    Terminal::Punct(Mark::OpenSquare),
    Terminal::Punct(Mark::OpenBrace),
    Terminal::Key(Keyword::Rows),
    Terminal::Key(Keyword::Select),
    Terminal::Key(Keyword::Map),
    Terminal::Key(Keyword::Project),
    Terminal::Key(Keyword::Rename),
    Terminal::Key(Keyword::Union),
    Terminal::Key(Keyword::Minus),
    Terminal::Key(Keyword::Inter),
    Terminal::Key(Keyword::Join),
    Terminal::Key(Keyword::Group),
    Terminal::Key(Keyword::Count),
    Terminal::Key(Keyword::Empty),
    Terminal::Key(Keyword::IsFail),
    Terminal::Key(Keyword::Sum),
    Terminal::Key(Keyword::Min),
    Terminal::Key(Keyword::Max),
    Terminal::Key(Keyword::Bulk),
    Terminal::Key(Keyword::Ins),
    Terminal::Key(Keyword::Del),
];

/// `)`
pub const CLOSE_PAREN: Terminal = Terminal::Punct(Mark::CloseParen);

pub(crate) const CLOSE_SQUARE: Terminal = Terminal::Punct(Mark::CloseSquare);

/// `}`
pub const CLOSE_BRACE: Terminal = Terminal::Punct(Mark::CloseBrace);

/// `,`
pub const COMMA: Terminal = Terminal::Punct(Mark::Comma);

/// `;`
pub const SEMICOLON: Terminal = Terminal::Punct(Mark::Semicolon);

pub(crate) const COLON: Terminal = Terminal::Punct(Mark::Colon);

pub(crate) const DOT: Terminal = Terminal::Punct(Mark::Dot);

/// `=`
pub const EQUALS: Terminal = Terminal::Punct(Mark::Equals);

/// `in`
pub const IN: Terminal = Terminal::Key(Keyword::In);

pub(crate) const BY: Terminal = Terminal::Key(Keyword::By);

//! The terminals of declarations, types and statements that the parser looks for.

use hera_syntax::{Keyword, Terminal};

pub(crate) const KIND_WORDS: &[Terminal] = &[
    Terminal::Key(Keyword::Int),
    Terminal::Key(Keyword::Bool),
    Terminal::Key(Keyword::Text),
];

pub(crate) const RELATION: &[Terminal] = &[Terminal::Key(Keyword::Relation)];

pub(crate) const FUNC: &[Terminal] = &[Terminal::Key(Keyword::Func)];

pub(crate) const PROC: &[Terminal] = &[Terminal::Key(Keyword::Proc)];

pub(crate) const MAIN: &[Terminal] = &[Terminal::Key(Keyword::Main)];

pub(crate) const DELTA: &[Terminal] = &[Terminal::Key(Keyword::Delta)];

pub(crate) const REL: &[Terminal] = &[Terminal::Key(Keyword::Rel)];

pub(crate) const TUPLE: &[Terminal] = &[Terminal::Key(Keyword::Tuple)];

pub(crate) const IF: &[Terminal] = &[Terminal::Key(Keyword::If)];

pub(crate) const WHILE: &[Terminal] = &[Terminal::Key(Keyword::While)];

pub(crate) const FOREACH: &[Terminal] = &[Terminal::Key(Keyword::Foreach)];

pub(crate) const PRINT: &[Terminal] = &[Terminal::Key(Keyword::Print)];

pub(crate) const APPLY: &[Terminal] = &[Terminal::Key(Keyword::Apply)];

pub(crate) const COMMIT: &[Terminal] = &[Terminal::Key(Keyword::Commit)];

pub(crate) const ROLLBACK: &[Terminal] = &[Terminal::Key(Keyword::Rollback)];

pub(crate) const ASSERT: &[Terminal] = &[Terminal::Key(Keyword::Assert)];

pub(crate) const RETURN: &[Terminal] = &[Terminal::Key(Keyword::Return)];

pub(crate) const TYPE_STARTS: &[Terminal] = &[
    Terminal::Key(Keyword::Int),
    Terminal::Key(Keyword::Bool),
    Terminal::Key(Keyword::Text),
    Terminal::Key(Keyword::Delta),
    Terminal::Key(Keyword::Rel),
    Terminal::Key(Keyword::Tuple),
];

pub(crate) const STMT_STARTS: &[Terminal] = &[
    Terminal::Key(Keyword::Int),
    Terminal::Key(Keyword::Bool),
    Terminal::Key(Keyword::Text),
    Terminal::Key(Keyword::Delta),
    Terminal::Key(Keyword::Rel),
    Terminal::Key(Keyword::Tuple),
    Terminal::Name,
    Terminal::Key(Keyword::If),
    Terminal::Key(Keyword::While),
    Terminal::Key(Keyword::Foreach),
    Terminal::Key(Keyword::Print),
    Terminal::Key(Keyword::Apply),
    Terminal::Key(Keyword::Assert),
    Terminal::Key(Keyword::Commit),
    Terminal::Key(Keyword::Rollback),
    Terminal::Key(Keyword::Return),
];

pub(crate) const ELSE: Terminal = Terminal::Key(Keyword::Else);

ghost use Rattle.std.specs.Prelude.{◌≡◌, IfOk};

use crate::words::{Keyword, Mark};
use hera_meaning::{Name, Text};
use std::alloc::AllocError;

/// What a piece of a script looks like. A script is cut into such pieces.
#[derive(Clone, Copy, Debug, PartialEq, Eq)]
pub enum PieceShape {
    /// A space, a tab, a line feed or a carriage return.
    Blank,
    /// `//` and what stands before the next line feed or the end.
    LineComment,
    /// `/*` up to the next `*/`.
    Comment,
    /// `/*` with no `*/` behind it: it is no token and nothing that stands between tokens.
    OpenComment,
    /// A letter or `_`, then letters, digits and the like: an identifier or a keyword.
    Word,
    /// ASCII digits.
    Digits,
    /// A text between quotes.
    Quoted,
    /// A punctuation.
    Punct(Mark),
}

/// What a token is.
#[derive(Drop)]
pub enum TokenKind {
    /// An identifier that is no keyword.
    Ident(Name),
    /// An int literal, from 0 to 2^63 - 1.
    Int(i64),
    /// A text literal: its value, without quotes and with its escapes undone.
    Text(Text),
    /// A keyword.
    Key(Keyword),
    /// A punctuation.
    Punct(Mark),
}

/// What a token is, without its value: what the grammar sees of it.
#[derive(Clone, Copy, Debug)]
pub enum Terminal {
    /// An identifier.
    Name,
    /// An int literal.
    Int,
    /// A text literal.
    Text,
    /// A keyword.
    Key(Keyword),
    /// A punctuation.
    Punct(Mark),
}

impl Terminal {
    ghost use Rattle.hera_syntax.specs.Grammar.{is_one_of, same_terminal};

    /// Whether both are one.
    pub fn is(self, other: Terminal) -> bool
        ensures { result ≡ same_terminal self other }
    {
        match (self, other) {
            (Terminal::Name, Terminal::Name) => true,
            (Terminal::Int, Terminal::Int) => true,
            (Terminal::Text, Terminal::Text) => true,
            (Terminal::Key(one), Terminal::Key(two)) => one.is(two),
            (Terminal::Punct(one), Terminal::Punct(two)) => one.is(two),
            _ => false,
        }
    }

    /// Whether it is one of these.
    pub fn is_one_of(self, terminals: &[Terminal]) -> bool
        ensures { result ≡ is_one_of terminals.now self }
    {
        terminals.iter().any(|terminal| terminal.is(self))
    }
}

impl TokenKind {
    ghost use Rattle.hera_syntax.specs.Grammar.{terminal_of};

    /// The terminal of the grammar.
    pub fn terminal(&self) -> Terminal
        ensures { result ≡ terminal_of self.now }
    {
        match self {
            TokenKind::Ident(_) => Terminal::Name,
            TokenKind::Int(_) => Terminal::Int,
            TokenKind::Text(_) => Terminal::Text,
            TokenKind::Key(keyword) => Terminal::Key(*keyword),
            TokenKind::Punct(mark) => Terminal::Punct(*mark),
        }
    }

    /// A copy.
    pub fn copy(&self) -> Result<TokenKind, AllocError>
        ensures { IfOk result (λ kind. kind ≡ self.now) }
    {
        match self {
            TokenKind::Ident(name) => Ok(TokenKind::Ident(name.copy()?)),
            TokenKind::Int(value) => Ok(TokenKind::Int(*value)),
            TokenKind::Text(text) => Ok(TokenKind::Text(text.copy()?)),
            TokenKind::Key(keyword) => Ok(TokenKind::Key(*keyword)),
            TokenKind::Punct(mark) => Ok(TokenKind::Punct(*mark)),
        }
    }
}

/// A token, and the offset in bytes at which it begins.
#[derive(Drop)]
pub struct Token {
    pub kind: TokenKind,
    pub at: u32,
}

impl Token {
    /// A copy.
    pub fn copy(&self) -> Result<Token, AllocError>
        ensures { IfOk result (λ token. token ≡ self.now) }
    {
        let kind = self.kind.copy()?;
        Ok(Token { kind, at: self.at })
    }
}

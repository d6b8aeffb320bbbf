ghost use Rattle.std.specs.Prelude.{◌≡◌, ◌≤◌, ◌<◌, ◌^◌, length, pos, false, IfOk, IsTrue, MatchOption};
ghost use Rattle.std.specs.Str.{all_ascii_digits, chars};
ghost use Rattle.hera_syntax.specs.Lexemes.{IsPiece, number_of};
ghost use Rattle.hera_meaning.specs.Texts.{IsText};
ghost use Rattle.hera_lexer.specs.Read.{value_of};
ghost use Rattle.hera_lexer.specs.Reads.{Reads};

use crate::keyword::keyword;
use hera_meaning::{NAME_LIMIT, TEXT_LIMIT, Text};
use hera_syntax::{PieceShape, TokenKind};
use std::alloc::{AllocError, Global};

/// What a piece is read as.
#[derive(Drop)]
pub enum Reading {
    Between,
    Kept(TokenKind),
    Refused,
}

/// The number that digits spell, where it is an int.
fn number(digits: &str) -> Option<i64>
    requires digits { IsTrue (all_ascii_digits digits.now) }
    requires some { 0 < length digits.now }
    ensures { MatchOption result (2 ^ 63 ≤ number_of digits.now) (λ n. (n ≡ pos (number_of digits.now)) × (number_of digits.now < 2 ^ 63)) }
{
    digits.parse::<i64>().ok()
}

/// The text of bytes that are one. So memory alone can be wanting.
fn text_of(alloc: Global, bytes: &[u8]) -> Result<Text, AllocError>
    requires { IsText bytes.now }
    ensures { IfOk result (λ text. text ≡ bytes.now) }
{
    match Text::new(alloc, bytes) {
        Ok(text) => Ok(text),
        Err(_) => Err(AllocError),
    }
}

/// The value of the bytes between two quotes, where it is short enough.
fn value(alloc: Global, body: &[u8]) -> Result<Option<Vec<u8>>, AllocError>
    ensures { IfOk result (λ o. MatchOption o (TEXT_LIMIT < length (value_of false body.now)) (λ v. (v.items ≡ value_of false body.now) × (length v.items ≤ TEXT_LIMIT))) }
{
    let mut value = Vec::new(alloc);
    let mut escaped = false;
    for b in body {
        let b = *b;
        if !escaped && b == b'\\' {
            escaped = true;
        } else {
            if value.len() == TEXT_LIMIT {
                return Ok(None);
            }
            let byte = match b {
                b'n' if escaped => b'\n',
                b't' if escaped => b'\t',
                _ => b,
            };
            value.push(byte)?;
            escaped = false;
        }
    }
    Ok(Some(value))
}

/// Reads a word.
fn read_word(alloc: Global, word: &str) -> Result<Reading, AllocError>
    requires { IsPiece PieceShape.Word (chars word.now) }
    ensures { IfOk result (λ r. Reads PieceShape.Word (chars word.now) r) }
{
    if let Some(keyword) = keyword(word) {
        return Ok(Reading::Kept(TokenKind::Key(keyword)));
    }
    if word.len() > NAME_LIMIT {
        return Ok(Reading::Refused);
    }
    let name = text_of(alloc, word.as_bytes())?;
    Ok(Reading::Kept(TokenKind::Ident(name)))
}

/// Reads digits.
fn read_digits(digits: &str) -> Reading
    requires { IsPiece PieceShape.Digits (chars digits.now) }
    ensures { Reads PieceShape.Digits (chars digits.now) result }
{
    match number(digits) {
        Some(n) => Reading::Kept(TokenKind::Int(n)),
        None => Reading::Refused,
    }
}

/// Reads a text between quotes.
fn read_quoted(alloc: Global, quoted: &str) -> Result<Reading, AllocError>
    requires { IsPiece PieceShape.Quoted (chars quoted.now) }
    ensures { IfOk result (λ r. Reads PieceShape.Quoted (chars quoted.now) r) }
{
    let bytes = quoted.as_bytes();
    let Some(value) = value(alloc, &bytes[1..bytes.len() - 1])? else {
        return Ok(Reading::Refused);
    };
    let text = text_of(alloc, value.as_slice())?;
    Ok(Reading::Kept(TokenKind::Text(text)))
}

/// Reads a piece.
pub fn read(alloc: Global, shape: PieceShape, piece: &str) -> Result<Reading, AllocError>
    requires { IsPiece shape (chars piece.now) }
    ensures { IfOk result (λ r. Reads shape (chars piece.now) r) }
{
    match shape {
        PieceShape::Blank | PieceShape::LineComment | PieceShape::Comment => Ok(Reading::Between),
        PieceShape::OpenComment => Ok(Reading::Refused),
        PieceShape::Word => read_word(alloc, piece),
        PieceShape::Digits => Ok(read_digits(piece)),
        PieceShape::Quoted => read_quoted(alloc, piece),
        PieceShape::Punct(mark) => Ok(Reading::Kept(TokenKind::Punct(mark))),
    }
}

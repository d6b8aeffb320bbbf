ghost use Rattle.std.specs.Prelude.{◌≡◌, ◌+◌, ◌≤◌, ◌<◌, ◌^◌, length, false, IfSome, slice_get};
ghost use Rattle.std.specs.Str.{chars};
ghost use Rattle.std.specs.List.{prefix_len};
ghost use Rattle.std.specs.Char.{is_ascii_digit};
ghost use Rattle.hera_lexer.specs.Scan.{line_len, comment_len, quoted_len, word_len, two_mark, one_mark, word_of, scan_of};

use hera_syntax::{Mark, PieceShape};

/// How many bytes stand before the line feed.
fn line_len(bytes: &[u8]) -> usize
    ensures value { result ≡ line_len bytes.now }
    ensures within { result ≤ length bytes.now }
{
    bytes.iter().take_while(|b| **b != b'\n').count()
}

/// How many digits are in front.
fn digits_len(bytes: &[u8]) -> usize
    ensures { result ≡ prefix_len is_ascii_digit bytes.now }
{
    bytes.iter().take_while(|b| b.is_ascii_digit()).count()
}

/// How many bytes stand before the `/` of the first `*/`.
fn comment_len(bytes: &[u8]) -> Option<usize>
    ensures value { result ≡ comment_len false bytes.now }
    ensures within { IfSome result (λ n. n < length bytes.now) }
{
    let mut star = false;
    for (i, b) in bytes.iter().enumerate() {
        if star && *b == b'/' {
            return Some(i);
        }
        star = *b == b'*';
    }
    None
}

/// How many bytes stand before the closing quote, where they are those of a text.
fn quoted_len(bytes: &[u8]) -> Option<usize>
    ensures value { result ≡ quoted_len false bytes.now }
    ensures within { IfSome result (λ n. n < length bytes.now) }
{
    let mut escaped = false;
    for (i, b) in bytes.iter().enumerate() {
        let b = *b;
        if escaped {
            if b != b'"' && b != b'\\' && b != b'n' && b != b't' {
                return None;
            }
            escaped = false;
        } else if b == b'"' {
            return Some(i);
        } else if b == b'\\' {
            escaped = true;
        } else if b == b'\n' || b == b'\r' || b == 0 {
            return None;
        }
    }
    None
}

/// How many bytes the characters in front take that may continue a word.
fn word_len(text: &str) -> usize
    ensures { result ≡ word_len text.now }
{
    let mut rest = text.chars();
    let mut len = 0;
    while let Some(c) = rest.next() {
        if !unicode_ident::is_xid_continue(c) {
            return len;
        }
        len += c.len_utf8();
    }
    len
}

/// The word in front.
fn word(text: &str) -> Option<(PieceShape, usize)>
    ensures { result ≡ word_of (slice_get (chars text.now) 0) text.now }
{
    match text.chars().next() {
        Some(c) if c == '_' || unicode_ident::is_xid_start(c) => {
            Some((PieceShape::Word, word_len(text)))
        }
        _ => None,
    }
}

/// The punctuation of two characters.
fn two_mark(a: u8, b: u8) -> Option<Mark>
    ensures { result ≡ two_mark a b }
{
    match (a, b) {
        (b'=', b'=') => Some(Mark::EqualEqual),
        (b'!', b'=') => Some(Mark::NotEqual),
        (b'<', b'=') => Some(Mark::LessEqual),
        (b'>', b'=') => Some(Mark::GreaterEqual),
        (b'&', b'&') => Some(Mark::AndAnd),
        (b'|', b'|') => Some(Mark::OrOr),
        _ => None,
    }
}

/// The punctuation of one character.
fn one_mark(a: u8) -> Option<Mark>
    ensures { result ≡ one_mark a }
{
    match a {
        b'(' => Some(Mark::OpenParen),
        b')' => Some(Mark::CloseParen),
        b'[' => Some(Mark::OpenSquare),
        b']' => Some(Mark::CloseSquare),
        b'{' => Some(Mark::OpenBrace),
        b'}' => Some(Mark::CloseBrace),
        b',' => Some(Mark::Comma),
        b';' => Some(Mark::Semicolon),
        b':' => Some(Mark::Colon),
        b'.' => Some(Mark::Dot),
        b'=' => Some(Mark::Equals),
        b'<' => Some(Mark::Less),
        b'>' => Some(Mark::Greater),
        b'+' => Some(Mark::Plus),
        b'-' => Some(Mark::Minus),
        b'*' => Some(Mark::Star),
        b'/' => Some(Mark::Slash),
        b'%' => Some(Mark::Percent),
        b'!' => Some(Mark::Bang),
        b'&' => Some(Mark::And),
        _ => None,
    }
}

/// The shape and the length of the longest piece in front.
pub fn scan(text: &str) -> Option<(PieceShape, usize)>
    requires { length text.now < 2 ^ 32 }
    ensures { result ≡ scan_of text.now }
{
    let bytes = text.as_bytes();
    match bytes {
        [] => None,
        [b' ' | b'\t' | b'\n' | b'\r', ..] => Some((PieceShape::Blank, 1)),
        [b'/', b'/', rest @ ..] => Some((PieceShape::LineComment, 2 + line_len(rest))),
        [b'/', b'*', rest @ ..] => match comment_len(rest) {
            Some(at) => Some((PieceShape::Comment, at + 3)),
            None => Some((PieceShape::OpenComment, bytes.len())),
        },
        [b'0'..=b'9', ..] => Some((PieceShape::Digits, digits_len(bytes))),
        [b'"', rest @ ..] => match quoted_len(rest) {
            Some(len) => Some((PieceShape::Quoted, len + 2)),
            None => None,
        },
        [a, b, ..] if let Some(mark) = two_mark(*a, *b) => { Some((PieceShape::Punct(mark), 2)) },
        [a, ..] if let Some(mark) = one_mark(*a) => Some((PieceShape::Punct(mark), 1)),
        _ => word(text),
    }
}

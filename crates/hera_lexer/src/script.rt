ghost use Rattle.std.specs.Prelude.{◌≡◌, ℕ, List, Result, ◌⊎◌, ◌≤◌, length, IsUtf8, IfOk, IfErr, Err};
ghost use Rattle.std.specs.Str.Lossy.{utf8_valid_len};
ghost use Rattle.hera_syntax.specs.Lex.{Lex, LexFails};
ghost use Rattle.hera_syntax.specs.Tokens.{deep_at, script_limit};
ghost use Rattle.hera_syntax.specs.declared.token.Token.{Token};
ghost use Rattle.hera_lexer.specs.Answers.{Answers, IsTokenFault};
ghost use Rattle.hera_lexer.specs.declared.script.LexFault.{LexFault};

use crate::read::{Reading, read};
use crate::scan::scan;
use hera_syntax::{DEPTH_LIMIT, Mark, Token, TokenKind, Tokens};
use std::alloc::{AllocError, AllocFailed, Global};
use thiserror::Error;

/// Why there are no tokens. The causes are tested in this order, each over the whole script.
#[derive(Debug, PartialEq, Eq, Drop, Error)]
pub enum LexFault {
    /// The bytes are not UTF-8. `at` is the length of their longest front that is.
    #[error("the script is not UTF-8")]
    BadUtf8 { at: u32 },
    /// At the offset `at` the longest match is no token and nothing that stands between tokens: no
    /// match at all, an open comment, or an identifier, int or text beyond its limit.
    #[error("there is no token here")]
    BadToken { at: u32 },
    /// The opening bracket at the offset `at` is the first that stands at depth 65.
    #[error("the brackets are nested too deep")]
    TooDeep { at: u32 },
    /// No memory for the tokens.
    #[error("out of memory")]
    Memory,
}

impl From<AllocError> for LexFault {
    ghost from_gives = { λ _ e. e ≡ Memory };

    ghost use Rattle.hera_lexer.specs.declared.script.LexFault.TheVariants.{Memory};

    fn from(_: AllocError) -> LexFault {
        LexFault::Memory
    }
}

impl<T: Drop> From<AllocFailed<T>> for LexFault {
    ghost from_gives = { λ _ e. e ≡ Memory };

    ghost use Rattle.hera_lexer.specs.declared.script.LexFault.TheVariants.{Memory};

    fn from(_: AllocFailed<T>) -> LexFault {
        LexFault::Memory
    }
}

/// The text, where the bytes are UTF-8.
fn text_of(bytes: &[u8]) -> Result<&str, LexFault>
    requires { length bytes.now ≤ script_limit }
    ensures ok { IfOk result (λ s. (s.now ≡ bytes.now) × IsUtf8 bytes.now) }
    ensures err { IfErr result (λ e. (e ≡ LexFault.BadUtf8 (utf8_valid_len bytes.now)) × ¬ (IsUtf8 bytes.now)) }
{
    match std::str::from_utf8(bytes) {
        Ok(text) => Ok(text),
        Err(error) => Err(LexFault::BadUtf8 {
            at: error.valid_up_to() as u32,
        }),
    }
}

/// The tokens of a text.
fn tokens_of(alloc: Global, text: &str) -> Result<Vec<Token>, LexFault>
    requires { length text.now ≤ script_limit }
    ensures ok { IfOk result (λ tokens. Lex text.now tokens.items) }
    ensures bad_token { (at : ℕ) → result ≡ Err (LexFault.BadToken at) → LexFails text.now at }
    ensures others { IfErr result (λ e. IsTokenFault e) }
{
    let mut tokens = Vec::new(alloc);
    let mut rest = text;
    while !rest.is_empty() {
        let at = (text.len() - rest.len()) as u32;
        let Some((shape, len)) = scan(rest) else {
            return Err(LexFault::BadToken { at });
        };
        let (piece, after) = rest.split_at(len);
        match read(alloc, shape, piece)? {
            Reading::Between => {}
            Reading::Kept(kind) => tokens.push(Token { kind, at })?,
            Reading::Refused => return Err(LexFault::BadToken { at }),
        }
        rest = after;
    }
    Ok(tokens)
}

/// Where the depth first passes its limit.
fn too_deep(tokens: &[Token]) -> Option<u32>
    ensures { result ≡ deep_at 0 tokens.now }
{
    let mut depth = 0u32;
    for token in tokens {
        match token.kind {
            TokenKind::Punct(Mark::OpenParen | Mark::OpenSquare | Mark::OpenBrace) => {
                if depth == DEPTH_LIMIT {
                    return Some(token.at);
                }
                depth += 1;
            }
            TokenKind::Punct(Mark::CloseParen | Mark::CloseSquare | Mark::CloseBrace) => {
                depth = depth.saturating_sub(1);
            }
            _ => {}
        }
    }
    None
}

/// The tokens of a script of at most `SCRIPT_LIMIT` bytes, or why there are none.
///
/// A script is UTF-8. At each place the longest piece that matches is taken. Blanks and comments stand
/// between tokens. `Ok` has exactly the tokens that the script is cut into, and its length.
pub fn lex(alloc: Global, bytes: &[u8]) -> Result<Tokens, LexFault>
    requires { length bytes.now ≤ script_limit }
    ensures { Answers bytes.now result }
{
    let text = text_of(bytes)?;
    let tokens = tokens_of(alloc, text)?;
    if let Some(at) = too_deep(tokens.as_slice()) {
        return Err(LexFault::TooDeep { at });
    }
    Ok(Tokens::new(tokens, bytes.len()))
}

/// A script has one answer, beside want of memory: so what holds of the bytes is what `lex` says.
pub fn one_answer()
    ensures { (bytes : List ℕ) (r s : Result (List Token × ℕ) LexFault) → Answers bytes r → Answers bytes s → (r ≡ s) ⊎ (r ≡ Err LexFault.Memory) ⊎ (s ≡ Err LexFault.Memory) }
{}

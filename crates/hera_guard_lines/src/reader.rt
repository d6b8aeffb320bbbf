//! Lines read from the left, token by token.
ghost use Rattle.std.specs.Prelude.{◌≡◌, ◌∷◌, [], ℕ, List, IfOk, IfErr};
ghost use Rattle.hera_syntax.specs.declared.token.Terminal.{Terminal as PlainTerminal};
ghost use Rattle.hera_syntax.specs.declared.token.Terminal.TheVariants.{Name as name_terminal, Punct as mark_terminal};
ghost use Rattle.hera_guard_lines.specs.Lines.{AreLines, line_form, mark_token, name_token};
ghost use Rattle.hera_guard_lines.specs.Reading.{ident_of, IsLine, StopsAt};
ghost use Rattle.std.specs.Option.{option_copied};

use crate::lines::{GuardLine, Mention};
use hera_meaning::Name;
use hera_syntax::{Mark, Terminal, Token, TokenKind};
use std::alloc::{AllocError, AllocFailed, Global};

/// Why the reading stops.
#[derive(Debug, Drop)]
pub(crate) enum Stop {
    /// Lines do not go on with the next token, or there is none. So many tokens are left.
    Syntax { left: usize },
    /// No memory for a line.
    Memory,
}

impl From<AllocError> for Stop {
    ghost from_gives = { λ _ e. e ≡ Memory };

    ghost use Rattle.hera_guard_lines.specs.declared.reader.Stop.TheVariants.{Memory};

    fn from(_: AllocError) -> Stop {
        Stop::Memory
    }
}

impl<T: Drop> From<AllocFailed<T>> for Stop {
    ghost from_gives = { λ _ e. e ≡ Memory };

    ghost use Rattle.hera_guard_lines.specs.declared.reader.Stop.TheVariants.{Memory};

    fn from(_: AllocFailed<T>) -> Stop {
        Stop::Memory
    }
}

/// The name that a token is.
fn ident(kind: &TokenKind) -> Option<&Name>
    ensures { option_copied result ≡ ident_of kind.now }
{
    match kind {
        TokenKind::Ident(name) => Some(name),
        TokenKind::Int(_) | TokenKind::Text(_) | TokenKind::Key(_) | TokenKind::Punct(_) => None,
    }
}

/// The name with which the tokens begin, and those behind it.
fn name<'a>(tokens: &'a [Token]) -> Result<(Mention, &'a [Token]), Stop>
    ensures reads { IfOk result (λ read. tokens.entry.now ≡ name_token read.0 ∷ read.1.now) }
    ensures stops { (wanted : List PlainTerminal) → IfErr result (StopsAt (name_terminal ∷ wanted) tokens.entry.now) }
{
    let Some(cut) = tokens.split_first() else {
        return Err(Stop::Syntax { left: 0 });
    };
    let Some(found) = ident(&cut.0.kind) else {
        return Err(Stop::Syntax { left: tokens.len() });
    };
    let name = found.copy()?;
    Ok((Mention { name, at: cut.0.at }, cut.1))
}

/// The tokens behind this punctuation, with which they begin.
fn behind<'a>(mark: Mark, tokens: &'a [Token]) -> Result<&'a [Token], Stop>
    ensures reads { IfOk result (λ rest. (at : ℕ) × (tokens.entry.now ≡ mark_token mark at ∷ rest.now)) }
    ensures stops { (wanted : List PlainTerminal) → IfErr result (StopsAt (mark_terminal mark ∷ wanted) tokens.entry.now) }
{
    let Some(cut) = tokens.split_first() else {
        return Err(Stop::Syntax { left: 0 });
    };
    let stands = Terminal::Punct(mark).is(cut.0.kind.terminal());
    if stands {
        return Ok(cut.1);
    }
    Err(Stop::Syntax { left: tokens.len() })
}

/// The line with which the tokens begin, and those behind it.
fn line<'a>(tokens: &'a [Token]) -> Result<(GuardLine, &'a [Token]), Stop>
    ensures reads { IfOk result (λ read. IsLine tokens.entry.now read.0 read.1.now) }
    ensures stops { IfErr result (StopsAt line_form tokens.entry.now) }
{
    let (relation, rest) = name(tokens)?;
    let behind_dot = behind(Mark::Dot, rest)?;
    let (attribute, rest) = name(behind_dot)?;
    let behind_colon = behind(Mark::Colon, rest)?;
    let (host, rest) = name(behind_colon)?;
    let behind_line = behind(Mark::Semicolon, rest)?;
    let line = GuardLine {
        relation,
        attribute,
        host,
    };
    Ok((line, behind_line))
}

/// The lines that the tokens write.
pub(crate) fn lines(alloc: Global, tokens: &[Token]) -> Result<Vec<GuardLine>, Stop>
    ensures lines { IfOk result (λ lines. AreLines tokens.now lines.items) }
    ensures stops { IfErr result (StopsAt [] tokens.now) }
{
    let mut lines = Vec::new(alloc);
    let mut rest = tokens;
    while !rest.is_empty() {
        let (read, behind) = line(rest)?;
        lines.push(read)?;
        rest = behind;
    }
    Ok(lines)
}

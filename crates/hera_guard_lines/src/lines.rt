//! Lines, as they are read.
ghost use Rattle.std.specs.Prelude.{◌≡◌, ◌≤◌, ◌-◌, [], ℕ, IfOk, IsErrOf, length, slice_get};
ghost use Rattle.hera_syntax.specs.Tokens.{script_limit};
ghost use Rattle.hera_guard_lines.specs.Lines.{AreLines, IsSyntaxAt, offset_or};

use crate::reader::{Stop, lines};
use hera_meaning::Name;
use hera_syntax::Tokens;
use std::alloc::Global;
use std::marker::Model;
use thiserror::Error;

/// A name, and the offset in bytes at which it begins.
#[derive(Drop)]
pub struct Mention {
    pub name: Name,
    pub at: u32,
}

/// A line `R.a: f;`.
#[derive(Drop)]
pub struct GuardLine {
    pub relation: Mention,
    pub attribute: Mention,
    pub host: Mention,
}

/// Lines in their order.
#[derive(Drop)]
pub struct GuardLines {
    items: Vec<GuardLine>,
}

impl Model for GuardLines {
    ghost use Rattle.std.specs.Prelude.{List};
    ghost use Rattle.hera_guard_lines.specs.declared.lines.GuardLine.{GuardLine};

    ghost Value = { List GuardLine };

    ghost view = { λ l. l.items.items };
}

impl GuardLines {
    /// No lines. It takes no memory.
    pub fn new(alloc: Global) -> GuardLines
        ensures { result ≡ [] }
    {
        GuardLines {
            items: Vec::new(alloc),
        }
    }

    /// The lines.
    pub fn items(&self) -> &[GuardLine]
        ensures { result.now ≡ self.now }
    {
        &self.items
    }
}

/// Why tokens were not read as lines.
#[derive(Debug, Drop, Error)]
pub enum LineFault {
    /// They are no lines. `at` is the offset of the first token with which lines do not go on, or the length of the text.
    #[error("the tokens are no lines of guards")]
    Syntax { at: u32 },
    /// No memory for the lines.
    #[error("out of memory")]
    Memory,
}

/// The lines that the tokens write.
pub fn read_lines(alloc: Global, tokens: &Tokens) -> Result<GuardLines, LineFault>
    requires { tokens.now.1 ≤ script_limit }
    ensures lines { IfOk result (λ lines. AreLines tokens.now.0 lines) }
    ensures syntax { (at : ℕ) → IsErrOf result (LineFault.Syntax at) → IsSyntaxAt tokens.now at }
{
    match lines(alloc, tokens.items()) {
        Ok(items) => Ok(GuardLines { items }),
        Err(Stop::Syntax { left }) => {
            let at = offset_of(tokens, left);
            Err(LineFault::Syntax { at })
        }
        Err(Stop::Memory) => Err(LineFault::Memory),
    }
}

/// The offset of the token behind which so many are left with it, and of none the length of the text.
fn offset_of(tokens: &Tokens, left: usize) -> u32
    requires text { tokens.now.1 ≤ script_limit }
    requires there { left ≤ length tokens.now.0 }
    ensures { result ≡ offset_or (slice_get tokens.now.0 (length tokens.now.0 - left)) tokens.now.1 }
{
    let items = tokens.items();
    match items.get(items.len() - left) {
        Some(token) => token.at,
        None => tokens.script_len() as u32,
    }
}

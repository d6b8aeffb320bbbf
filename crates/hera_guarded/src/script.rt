//! Scripts of guard lines.
ghost use Rattle.std.specs.Prelude.{◌≤◌, IfOk, IfErr, length};
ghost use Rattle.hera_syntax.specs.Tokens.{script_limit};
ghost use Rattle.hera_guarded.specs.Reading.{IsWritten, IsRulesFault};

use hera_guard_lines::{GuardLines, LineFault, read_lines};
use hera_lexer::lex;
use hera_script::{Cause, ScriptFault};
use std::alloc::Global;

/// The lines that a script writes. It is refused as a script of a program is up to its tokens, and then with `Syntax` at the
/// first token with which lines do not go on, or at its length.
pub fn read_rules(alloc: Global, script: &[u8]) -> Result<GuardLines, ScriptFault>
    requires { length script.now ≤ script_limit }
    ensures lines { IfOk result (λ lines. IsWritten script.now lines) }
    ensures refused { IfErr result (IsRulesFault script.now) }
{
    let tokens = lex(alloc, script)?;
    match read_lines(alloc, &tokens) {
        Ok(lines) => Ok(lines),
        Err(LineFault::Syntax { at }) => Err(ScriptFault::Refused {
            cause: Cause::Syntax,
            at,
        }),
        Err(LineFault::Memory) => Err(ScriptFault::Memory),
    }
}

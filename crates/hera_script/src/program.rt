ghost use Rattle.std.specs.Prelude.{◌≡◌, ◌≤◌, ℕ, List, length, Err, Some, None, IfOk, slice_get};
ghost use Rattle.hera_meaning.specs.Plain.{program_of};
ghost use Rattle.hera_meaning.specs.Sound.{Sound};
ghost use Rattle.hera_host.specs.Tables.{specs_of};
ghost use Rattle.hera_syntax.specs.Trees.{IsTextOf};
ghost use Rattle.hera_script.specs.Faults.{IsUnreadable};
ghost use Rattle.hera_script.specs.declared.cause.Cause.{Cause};
ghost use Rattle.hera_rules.specs.Accepted.{Accepted};
ghost use Rattle.hera_rules.specs.Programs.{ElabScript};
ghost use Rattle.hera_rules.specs.ReadActs.{script_of};
ghost use Rattle.hera_script.specs.Refusing.{IsRefused, offset_or};
ghost use Rattle.hera_syntax.specs.declared.token.Token.{Token};
ghost use Rattle.hera_syntax.specs.Tokens.{HaveValues, script_limit};

use crate::cause::Cause;
use hera_host::HostTable;
use hera_lexer::{LexFault, lex};
use hera_meaning::Program;
use hera_parser::{ParseFault, parse};
use hera_rules::TypeFault;
use hera_syntax::{Tokens, Tree};
use hera_types::elaborate;
use std::alloc::Global;
use thiserror::Error;

/// Why there is no program of a script.
#[derive(Debug, Drop, Error)]
pub enum ScriptFault {
    /// The script is refused, at this offset.
    #[error("the script is refused")]
    Refused { cause: Cause, at: u32 },
    /// No memory for the program.
    #[error("out of memory")]
    Memory,
}

impl ScriptFault {
    /// The script is refused for this cause, at this offset.
    fn refused(cause: Cause, at: u32) -> ScriptFault
        ensures { result ≡ ScriptFault.Refused cause at }
    {
        ScriptFault::Refused { cause, at }
    }
}

impl From<LexFault> for ScriptFault {
    ghost use Rattle.hera_script.specs.Faults.{of_lexing};

    ghost from_gives = { λ fault e. e ≡ of_lexing fault };

    fn from(fault: LexFault) -> Self {
        match fault {
            LexFault::BadUtf8 { at } => ScriptFault::refused(Cause::BadUtf8, at),
            LexFault::BadToken { at } => ScriptFault::refused(Cause::BadToken, at),
            LexFault::TooDeep { at } => ScriptFault::refused(Cause::TooDeep, at),
            LexFault::Memory => ScriptFault::Memory,
        }
    }
}

impl From<TypeFault> for ScriptFault {
    ghost use Rattle.hera_script.specs.Faults.{of_typing};

    ghost from_gives = { λ fault e. e ≡ of_typing fault };

    fn from(fault: TypeFault) -> Self {
        match fault {
            TypeFault::Unknown { at } => ScriptFault::refused(Cause::Unknown, at),
            TypeFault::Repeated { at } => ScriptFault::refused(Cause::Repeated, at),
            TypeFault::Mismatch { at } => ScriptFault::refused(Cause::Mismatch, at),
            TypeFault::Impure { at } => ScriptFault::refused(Cause::Impure, at),
            TypeFault::NoReturn { at } => ScriptFault::refused(Cause::NoReturn, at),
            TypeFault::TooMany { at } => ScriptFault::refused(Cause::TooMany, at),
            TypeFault::Memory => ScriptFault::Memory,
        }
    }
}

/// The offset of the token at this place, the script's length where there is none.
fn offset_of(tokens: &Tokens, place: usize) -> u32
    requires { tokens.now.1 ≤ script_limit }
    ensures { result ≡ offset_or (slice_get tokens.now.0 place) tokens.now.1 }
{
    match tokens.items().get(place) {
        Some(token) => token.at,
        None => tokens.script_len() as u32,
    }
}

/// The tree of the tokens.
fn tree_of(alloc: Global, tokens: &Tokens) -> Result<Tree, ScriptFault>
    requires { tokens.now.1 ≤ script_limit }
    ensures tree { IfOk result (λ tree. IsTextOf tree tokens.now.0) }
    ensures fault { (cause : Cause) (at : ℕ) → result ≡ Err (ScriptFault.Refused cause at) → IsUnreadable tokens.now cause at }
{
    match parse(alloc, tokens) {
        Ok(tree) => Ok(tree),
        Err(ParseFault::Syntax { token }) => Err(ScriptFault::refused(
            Cause::Syntax,
            offset_of(tokens, token),
        )),
        Err(ParseFault::Memory) => Err(ScriptFault::Memory),
    }
}

/// The tree of a script that may call these hosts, and its program, which is sound, or why it is refused: BadUtf8,
/// BadToken, TooDeep and Syntax are looked for in this order, and then the first fault of types in the order of checking.
pub fn read_script(
    alloc: Global,
    script: &[u8],
    hosts: &HostTable,
) -> Result<(Tree, Program), ScriptFault>
    requires { length script.now ≤ script_limit }
    ensures accepted { IfOk result (λ read. Accepted script.now hosts.now.names (program_of read.1)) }
    ensures sound { IfOk result (λ read. Sound (program_of read.1) (specs_of hosts.now.names)) }
    ensures text { IfOk result (λ read. (tokens : List Token) × IsTextOf read.0 tokens × (length tokens ≤ script_limit) × HaveValues tokens) }
    ensures typed { IfOk result (λ read. ElabScript hosts.now.names (script_of read.0) (program_of read.1)) }
    ensures refused { (cause : Cause) (at : ℕ) → result ≡ Err (ScriptFault.Refused cause at) → IsRefused hosts.now.names script.now cause at }
{
    let tokens = lex(alloc, script)?;
    let tree = tree_of(alloc, &tokens)?;
    let program = elaborate(alloc, &tree, hosts)?;
    Ok((tree, program))
}

/// The program of a script that may call these hosts, which is sound, or why it is refused, as `read_script` says.
pub fn read_program(alloc: Global, script: &[u8], hosts: &HostTable) -> Result<Program, ScriptFault>
    requires { length script.now ≤ script_limit }
    ensures accepted { IfOk result (λ program. Accepted script.now hosts.now.names (program_of program)) }
    ensures sound { IfOk result (λ program. Sound (program_of program) (specs_of hosts.now.names)) }
    ensures refused { (cause : Cause) (at : ℕ) → result ≡ Err (ScriptFault.Refused cause at) → IsRefused hosts.now.names script.now cause at }
{
    let (_tree, program) = read_script(alloc, script, hosts)?;
    Ok(program)
}

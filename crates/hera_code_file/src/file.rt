//! Whole code files, read.
ghost use Rattle.std.specs.Prelude.{◌≡◌, ◌-◌, ℕ, List, length, IfOk, IsErrOf, Ok};
ghost use Rattle.hera_code_file.specs.Printing.{File as PlainFile, file_bytes};
ghost use Rattle.hera_code_file.specs.Fitting.{FileFits};
ghost use Rattle.hera_code_file.specs.Reading.{Gives, ends, magic_at, parts_at, file_at};
ghost use Rattle.hera_code_file.specs.Files.{AreNoted, file_of, IsBadAt, Reads};

use crate::bodies::bodies;
use crate::fields::bad;
use crate::instrs::instrs;
use crate::schemas::relations;
use crate::stop::Stop;
use hera_code::Code;
use hera_meaning::RelDecl;
use hera_typed::Notes;
use rel_format::fields::magic_at;
use std::alloc::Global;
use thiserror::Error;

/// What a code file tells: relations, code over them, and what the code notes of its slots and results.
#[derive(Drop)]
pub struct CodeFile {
    pub relations: Vec<RelDecl>,
    pub code: Code,
    pub notes: Notes,
}

/// Why bytes were not read as a code file.
#[derive(Debug, Drop, Error)]
pub enum CodeFault {
    /// They are no code file. At `at` begins the first field that breaks its rule or does not lie wholly in the
    /// bytes, or stands the first byte behind the last instruction.
    #[error("the bytes are no code file")]
    BadCode { at: u64 },
    /// No memory for what they tell.
    #[error("out of memory")]
    Memory,
}

/// The first eight bytes, and those behind them.
#[tactic(auto, unfolding(crate::specs::Reading::magic_at))]
fn magic(bytes: &[u8]) -> Result<(&[u8], &[u8]), Stop>
    ensures { Gives (λ x. (x.0.now, x.1.now)) result (magic_at bytes.now) }
{
    if magic_at(bytes, b"HERACODE") {
        Ok(bytes.split_at(8))
    } else {
        Err(bad(bytes))
    }
}

/// The parts of a file, and the bytes behind them.
#[tactic(auto, unfolding(crate::specs::Reading::parts_at))]
fn parts(alloc: Global, bytes: &[u8]) -> Result<(CodeFile, &[u8]), Stop>
    ensures reads { Gives (λ x. (file_of x.0.relations.items x.0.code x.0.notes, x.1.now)) result (parts_at bytes.now) }
    ensures noted { IfOk result (λ x. AreNoted x.0.code.bodies x.0.notes.bodies.items) }
{
    let (_, rest) = magic(bytes)?;
    let (relations, rest) = relations(alloc, rest)?;
    let ((bodies, notes), rest) = bodies(alloc, rest)?;
    let (instrs, rest) = instrs(alloc, rest)?;
    let code = Code { instrs, bodies };
    let file = CodeFile {
        relations,
        code,
        notes,
    };
    Ok((file, rest))
}

/// What was read, where nothing is left.
fn ended<T: Drop>(part: T, rest: &[u8]) -> Result<T, Stop>
    ensures { Gives (λ t. t) result (ends (part, rest.now)) }
{
    if rest.is_empty() {
        Ok(part)
    } else {
        Err(bad(rest))
    }
}

/// What a whole file tells.
#[tactic(auto, unfolding(crate::specs::Reading::file_at))]
fn whole(alloc: Global, bytes: &[u8]) -> Result<CodeFile, Stop>
    ensures reads { Gives (λ f. file_of f.relations.items f.code f.notes) result (file_at bytes.now) }
    ensures noted { IfOk result (λ f. AreNoted f.code.bodies f.notes.bodies.items) }
{
    let (file, rest) = parts(alloc, bytes)?;
    ended(file, rest)
}

/// The place from which on so many bytes are left.
fn place_of(bytes: &[u8], left: usize) -> u64
    ensures { result ≡ length bytes.now - left }
{
    bytes.len().saturating_sub(left) as u64
}

/// What a code file tells. Its memory grows with the bytes: no count that was read reserves any.
pub fn read_code(alloc: Global, bytes: &[u8]) -> Result<CodeFile, CodeFault>
    // The bytes are those that are written of what was read.
    ensures written { IfOk result (λ f. bytes.now ≡ file_bytes (file_of f.relations.items f.code f.notes)) }
    ensures fits { IfOk result (λ f. FileFits (file_of f.relations.items f.code f.notes)) }
    // There is a note for each body, with as many slots as the body has.
    ensures noted { IfOk result (λ f. AreNoted f.code.bodies f.notes.bodies.items) }
    // What was written of a file is read as that file, unless memory runs out.
    ensures back { (f : PlainFile) → FileFits f → bytes.now ≡ file_bytes f → Reads f result }
    ensures place { (at : ℕ) → IsErrOf result (CodeFault.BadCode at) → IsBadAt bytes.now at }
{
    match whole(alloc, bytes) {
        Ok(file) => Ok(file),
        Err(Stop::Bad { left }) => {
            let at = place_of(bytes, left);
            Err(CodeFault::BadCode { at })
        }
        Err(Stop::Memory) => Err(CodeFault::Memory),
    }
}

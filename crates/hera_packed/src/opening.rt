//! Code files, read and verified.
ghost use Rattle.std.specs.Prelude.{ℕ, IfOk, IsErrOf};
ghost use Rattle.hera_meaning.specs.Catalogues.{IsCatalogue};
ghost use Rattle.hera_meaning.specs.Deltas.{State, IsState};
ghost use Rattle.hera_host.specs.Tables.{specs_of};
ghost use Rattle.hera_code_file.specs.Files.{IsBadAt};
ghost use Rattle.hera_code_file.specs.Printing.{File};
ghost use Rattle.hera_typed.specs.Notes.{notes_of};
ghost use Rattle.hera_typed.specs.Safe.{IsSafe};
ghost use Rattle.hera_verify.specs.Rejected.{IsRejectedAt};
ghost use Rattle.hera_packed.specs.Packed.{IsFileOf, IsOpened, code_in, notes_in};

use hera_code_file::{CodeFault, CodeFile, read_code};
use hera_host::HostTable;
use hera_verify::{VerifyFault, verify};
use std::alloc::Global;
use thiserror::Error;

/// The most bytes of a code file that is run by a command.
pub const CODE_LIMIT: usize = 16_777_216;

/// Why a code file is not run.
#[derive(Debug, Drop, Error)]
pub enum OpenFault {
    /// The bytes are no code file. At `at` begins the first field that breaks its rule or does not lie wholly in them, or
    /// stands the first byte behind the last instruction.
    #[error("the bytes are no code file")]
    BadCode { at: u64 },
    /// The code is no typed code. `at` is the least address up to which nothing meets the rules that speak of addresses up
    /// to it.
    #[error("the code is rejected")]
    Rejected { at: u32 },
    /// No memory for what the bytes tell, or code that asks `verify` for more looks at operands than it grants.
    #[error("out of memory")]
    Memory,
}

/// What a code file tells, where its code is typed code over its relations and these hosts.
pub fn open_code(alloc: Global, bytes: &[u8], hosts: &HostTable) -> Result<CodeFile, OpenFault>
    // The bytes are those that are written of what was read, and the code is verified.
    ensures opened { IfOk result (λ f. IsOpened (specs_of hosts.now.names) bytes.now f.relations.items f.code (notes_of f.notes)) }
    ensures catalogue { IfOk result (λ f. IsCatalogue f.relations.items) }
    // It is never stuck, and is over in time.
    ensures safe { IfOk result (λ f. (s : State) → (n : ℕ) → IsState f.relations.items s → IsSafe f.code f.relations.items (specs_of hosts.now.names) s n) }
    // Where the first field that breaks its rule begins.
    ensures bad { (at : ℕ) → IsErrOf result (OpenFault.BadCode at) → IsBadAt bytes.now at }
    // The least address up to which nothing meets the rules.
    ensures rejected { (at : ℕ) → IsErrOf result (OpenFault.Rejected at)
        → (f : File) × IsFileOf bytes.now f × IsRejectedAt (code_in f) f.relations (specs_of hosts.now.names) (notes_in f) at }
{
    match read_code(alloc, bytes) {
        Ok(file) => match verify(alloc, &file, hosts) {
            Ok(()) => Ok(file),
            Err(VerifyFault::Rejected { at }) => Err(OpenFault::Rejected { at }),
            Err(VerifyFault::Memory) => Err(OpenFault::Memory),
        },
        Err(CodeFault::BadCode { at }) => Err(OpenFault::BadCode { at }),
        Err(CodeFault::Memory) => Err(OpenFault::Memory),
    }
}

//! The verifier.
ghost use Rattle.std.specs.Prelude.{◌≡◌, ◌≤◌, ◌<◌, ◌^◌, ℕ, IfOk, IsErrOf, length};
ghost use Rattle.hera_meaning.specs.Deltas.{State, IsState};
ghost use Rattle.hera_typed.specs.Notes.{notes_of};
ghost use Rattle.hera_typed.specs.Safe.{IsSafe};
ghost use Rattle.hera_host.specs.Tables.{specs_of};
ghost use Rattle.hera_code_file.specs.Files.{AreNoted};
ghost use Rattle.hera_verify.specs.Rejected.{IsVerified, IsRejectedAt, Answers};

use crate::bodies::{self, least};
use crate::laws::{the_least_look_is_the_answer, verified_code_is_safe};
use crate::{flow, slots};
use hera_code_file::CodeFile;
use hera_effects::Around;
use hera_host::HostTable;
use std::alloc::{AllocError, Global};
use thiserror::Error;

/// Why code was not verified.
#[derive(Debug, Drop, Error)]
pub enum VerifyFault {
    /// It is no typed code. `at` is the least address up to which nothing meets the rules that speak of addresses up to
    /// it.
    #[error("the code is rejected")]
    Rejected { at: u32 },
    /// No memory for what is known at its addresses, or calls and relations that take more looks at operands than `verify`
    /// grants the code.
    #[error("out of memory")]
    Memory,
}

/// The least address at which code that has instructions and bodies is rejected, if it is.
fn answer(alloc: Global, file: &CodeFile, hosts: &HostTable) -> Result<Option<u32>, AllocError>
    requires some_instr { 1 ≤ length file.now.code.instrs }
    requires some_body { 1 ≤ length file.now.code.bodies }
    requires short { length file.now.code.instrs < 2 ^ 32 }
    requires noted { AreNoted file.now.code.bodies file.now.notes.bodies.items }
    ensures { IfOk result (λ found. Answers file.now.code file.now.relations.items (specs_of hosts.now.names) (notes_of file.now.notes) found) }
{
    the_least_look_is_the_answer();
    let of_bodies = bodies::look(&file.code, &file.notes);
    let of_slots = slots::look(alloc, &file.code, &file.notes)?;
    let around = Around {
        code: &file.code,
        relations: &file.relations,
        hosts,
        notes: &file.notes,
    };
    let of_flow = flow::look(alloc, &around)?;
    let both = least(of_bodies, of_slots);
    Ok(least(both, of_flow))
}

/// Whether code with its notes is typed code over its relations and these hosts. It takes one pass over the
/// instructions, bodies and slots, and one for each doubling of a slot's range. A call takes a step for each parameter,
/// once for each body and list of operands, a relation made of tuples one for each tuple, once for each count and list
/// of operands, and another operation one for each operand. Lists of operands share their ends. Code whose calls and
/// relations would take more than 16 steps for each instruction, and 1,048,576 beside, is refused as if memory ran out;
/// code of a script takes one for each instruction at most.
pub fn verify(alloc: Global, file: &CodeFile, hosts: &HostTable) -> Result<(), VerifyFault>
    requires short { length file.now.code.instrs < 2 ^ 32 }
    requires noted { AreNoted file.now.code.bodies file.now.notes.bodies.items }
    // Ok says that there are points that meet all rules.
    ensures typed { IfOk result (λ done. IsVerified file.now.code file.now.relations.items (specs_of hosts.now.names) (notes_of file.now.notes)) }
    // It is rejected at the least address up to which nothing meets the rules.
    ensures rejected { (at : ℕ) → IsErrOf result (VerifyFault.Rejected at) → IsRejectedAt file.now.code file.now.relations.items (specs_of hosts.now.names) (notes_of file.now.notes) at }
    // Where it is Ok the code is never stuck, and is over in time.
    ensures safe { IfOk result (λ done. (s : State) → (n : ℕ) → IsState file.now.relations.items s → IsSafe file.now.code file.now.relations.items (specs_of hosts.now.names) s n) }
{
    if file.code.instrs.len() == 0 || file.code.bodies.len() == 0 {
        return Err(VerifyFault::Rejected { at: 0 });
    }
    match answer(alloc, file, hosts) {
        Ok(None) => {
            let _count = hosts.len();
            verified_code_is_safe();
            Ok(())
        }
        Ok(Some(at)) => Err(VerifyFault::Rejected { at }),
        Err(_) => Err(VerifyFault::Memory),
    }
}

//! Many quick instructions at once. Where the quick way of an instruction does not answer true, for want of memory too,
//! nothing has changed, and the instruction is done by a step.
ghost use Rattle.std.specs.Prelude.{◌≡◌, List, true, false};
ghost use Rattle.hera_meaning.specs.Hosts.{Hosts};
ghost use Rattle.hera_meaning.specs.declared.schemas.RelDecl.{RelDecl as PlainDecl};
ghost use Rattle.hera_machine.specs.Standing.{GoesOn};
ghost use Rattle.hera_steps.specs.Working.{machine_at};

use crate::pairs::try_fused;
use hera_code::Code;
use hera_steps::Running;
use when_overlay::Stored;

/// How often one instruction is executed, or some at once, before the machine makes a step of its own.
const AT_ONCE: usize = 4096;

/// Executes the instructions at hand, as long as they are common ones on ints, bools and tuples, and at
/// most 20,480 of them. It stops in front of one for which memory is refused.
#[inline(never)]
pub(crate) fn run_quick(work: &mut Running<'_>, code: &Code, stored: &Stored<'_>)
    ensures goes { (rels : List PlainDecl) → (hosts : Hosts) → let s = stored.now.state in GoesOn 0 code.now rels hosts s (machine_at s work.old) (machine_at s work.new) }
    ensures layers { work.new.layers ≡ work.old.layers }
    ensures relations { work.new.relations ≡ work.old.relations }
{
    for _ in 0..AT_ONCE {
        if !try_some(work, code, stored) {
            return;
        }
    }
}

/// Executes the instruction at hand, if that is a common one on ints, bools and tuples, and up to four behind it
/// where they are done at once. Where memory for it is refused nothing has changed.
#[inline]
fn try_some(work: &mut Running<'_>, code: &Code, stored: &Stored<'_>) -> bool
    ensures goes { (rels : List PlainDecl) → (hosts : Hosts) → let s = stored.now.state in result ≡ true → GoesOn 1 code.now rels hosts s (machine_at s work.old) (machine_at s work.new) }
    ensures kept { result ≡ false → work.new ≡ work.old }
    ensures layers { work.new.layers ≡ work.old.layers }
    ensures relations { work.new.relations ≡ work.old.relations }
{
    // for the proof alone: addresses of code are below 2^64 - 1
    let _len = code.instrs.len();
    match code.instrs.near(work.at) {
        None => try_far(work, code, stored),
        Some(instr) => { try_fused(work, instr, code) || work.try_one(instr, code, stored) }
    }
}

/// Executes the instruction at hand, wherever it stands, if that is a common one on ints, bools and tuples. Where memory for
/// it is refused nothing has changed.
#[inline(never)]
fn try_far(work: &mut Running<'_>, code: &Code, stored: &Stored<'_>) -> bool
    ensures goes { (rels : List PlainDecl) → (hosts : Hosts) → let s = stored.now.state in result ≡ true → GoesOn 1 code.now rels hosts s (machine_at s work.old) (machine_at s work.new) }
    ensures kept { result ≡ false → work.new ≡ work.old }
    ensures layers { work.new.layers ≡ work.old.layers }
    ensures relations { work.new.relations ≡ work.old.relations }
{
    // for the proof alone: addresses of code are below 2^64 - 1
    let _len = code.instrs.len();
    match code.instrs.get(work.at) {
        None => false,
        Some(instr) => work.try_one(instr, code, stored),
    }
}

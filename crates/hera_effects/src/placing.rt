//! What an instruction asks of the place where it stands, reached or not.
ghost use Rattle.std.specs.Prelude.{◌≡◌, ◌+◌, ◌<◌, ◌^◌, is_some, Some, ℕ, List};
ghost use Rattle.hera_meaning.specs.declared.schemas.RelDecl.{RelDecl};
ghost use Rattle.hera_meaning.specs.Hosts.{Hosts};
ghost use Rattle.hera_typed.specs.Notes.{notes_of};
ghost use Rattle.hera_typed.specs.Effects.{home, slot, is_in, is_placed};
ghost use Rattle.hera_typed.specs.Pass.{gathers_behind};

use crate::effects::gathered_at;
use crate::plain::{Around, is_set_at, result_of, slot_of};
use hera_code::Instr;

/// Whether an address lies in the range of a slot that is there.
fn is_in(around: &Around, k: usize, i: u32, a: usize) -> bool
    ensures { result ≡ is_in around.now.code.now k i a (slot (notes_of around.now.notes.now) k i) }
{
    match slot_of(around.notes, k, i) {
        Some(note) => is_set_at(around.code, k, i, a, note),
        None => false,
    }
}

/// Whether the instruction may stand at an address of body k.
pub fn is_placed(around: &Around, k: usize, a: usize, instr: &Instr) -> bool
    ensures { result ≡ is_placed around.now.code.now (notes_of around.now.notes.now) k a instr.now }
{
    match instr {
        Instr::Load(i) => is_in(around, k, *i, a),
        Instr::Jump(to) => a < *to as usize,
        Instr::Unless(to) => a < *to as usize,
        Instr::Next(_, to) => a < *to as usize,
        Instr::Call(j) => *j > 0,
        Instr::Ret => k > 0 && result_of(around.notes, k).is_none(),
        Instr::RetVal => result_of(around.notes, k).is_some(),
        Instr::Halt => k == 0,
        _ => true,
    }
}

/// Whether the instruction at an address of body k is no walk, or what stands behind it says what the walk gathers.
pub fn gathers_behind(around: &Around, k: usize, a: usize, instr: &Instr) -> bool
    requires { a + 1 < 2 ^ 32 }
    ensures { (rels : List RelDecl) → (hosts : Hosts) → home around.now.code.now a ≡ k → result ≡ gathers_behind around.now.code.now rels hosts (notes_of around.now.notes.now) a (Some instr.now) }
{
    match instr {
        Instr::Walk => gathered_at(around, k, a + 1).is_some(),
        _ => true,
    }
}

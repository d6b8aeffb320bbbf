//! The laws of the answer.

ghost use Rattle.std.specs.Prelude.{◌≡◌, ◌≤◌, ℕ, List, All, Option, None, true, length};
ghost use Rattle.hera_meaning.specs.declared.schemas.RelDecl.{RelDecl};
ghost use Rattle.hera_meaning.specs.Deltas.{State, IsState};
ghost use Rattle.hera_meaning.specs.Hosts.{Hosts};
ghost use Rattle.hera_meaning.specs.Sound.{is_spec};
ghost use Rattle.hera_code.specs.declared.instrs.Code.{Code};
ghost use Rattle.hera_typed.specs.Effects.{Body_note};
ghost use Rattle.hera_typed.specs.Safe.{IsSafe};
ghost use Rattle.hera_typed.specs.Typed.{Points, IsTyped, NotesFit};
ghost use Rattle.hera_verify.specs.Rejected.{IsRejectedAt, Answers};
ghost use Rattle.hera_verify.specs.Looks.{Finds, least, BodiesFineTo, SlotsFineTo, FindsFlow};

use hera_typed::typed_code_is_safe;

/// Code is looked at three times: at the rules on its bodies, at those on its slots, and at what is known at each
/// address. The least of what these find is the answer.
pub fn the_least_look_is_the_answer()
    ensures { (code : Code) → (rels : List RelDecl) → (hosts : Hosts) → (notes : List Body_note) → 1 ≤ length code.instrs → 1 ≤ length code.bodies → (b s f : Option ℕ) → Finds (BodiesFineTo code rels hosts notes) b → Finds (SlotsFineTo code rels hosts notes) s → FindsFlow code rels hosts notes f → Answers code rels hosts notes (least (least b s) f) }
{}

/// Typed code is rejected at no address.
pub fn typed_code_is_never_rejected()
    ensures { (code : Code) → (rels : List RelDecl) → (hosts : Hosts) → (notes : List Body_note) → (points : Points) → IsTyped code rels hosts notes points → (at : ℕ) → IsRejectedAt code rels hosts notes at → ⊥ }
{}

/// Code that is answered to be typed code is never stuck, from every state of its relations and with every number of
/// turns; it is over in time, and spends no more turns than there are.
pub fn verified_code_is_safe()
    ensures { (code : Code) → (rels : List RelDecl) → (hosts : Hosts) → (notes : List Body_note) → Answers code rels hosts notes None → NotesFit code notes → All (λ spec. is_spec spec ≡ true) hosts → (s : State) → (n : ℕ) → IsState rels s → IsSafe code rels hosts s n }
{
    typed_code_is_safe();
}

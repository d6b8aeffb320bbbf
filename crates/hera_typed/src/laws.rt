//! The laws of typed code.

ghost use Rattle.std.specs.Prelude.{◌≡◌, ℕ, List, All, true};
ghost use Rattle.hera_meaning.specs.declared.schemas.RelDecl.{RelDecl};
ghost use Rattle.hera_meaning.specs.Deltas.{State, IsState};
ghost use Rattle.hera_meaning.specs.Hosts.{Hosts};
ghost use Rattle.hera_meaning.specs.Sound.{is_spec};
ghost use Rattle.hera_code.specs.declared.instrs.Code.{Code};
ghost use Rattle.hera_typed.specs.Effects.{Body_note};
ghost use Rattle.hera_typed.specs.Typed.{Points, IsTyped, NotesFit};
ghost use Rattle.hera_typed.specs.Safe.{IsSafe};
ghost use Rattle.hera_typed.specs.Pass.{PassIsExact};

/// Typed code is never stuck, from every state of the relations and with every number of turns; it is over in
/// time, and spends no more turns than there are.
pub fn typed_code_is_safe()
    ensures { (code : Code) → (rels : List RelDecl) → (hosts : Hosts) → (notes : List Body_note) → (points : Points) → IsTyped code rels hosts notes points → NotesFit code notes → All (λ spec. is_spec spec ≡ true) hosts → (s : State) → (n : ℕ) → IsState rels s → IsSafe code rels hosts s n }
{}

/// One pass over the code finds points that meet the rules on instructions, where there are any, else the least
/// address up to which there are none.
pub fn pass_is_exact()
    ensures { (code : Code) → (rels : List RelDecl) → (hosts : Hosts) → (notes : List Body_note) → PassIsExact code rels hosts notes }
{}

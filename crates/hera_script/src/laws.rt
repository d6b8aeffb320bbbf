//! The law of refusals.

ghost use Rattle.std.specs.Prelude.{◌≡◌, ◌≤◌, ℕ, List, length};
ghost use Rattle.hera_meaning.specs.Trees.{Program_tree};
ghost use Rattle.hera_host.specs.Tables.{Host};
ghost use Rattle.hera_rules.specs.Accepted.{Accepted};
ghost use Rattle.hera_script.specs.Refusing.{IsRefused};
ghost use Rattle.hera_syntax.specs.Tokens.{script_limit};
ghost use Rattle.hera_script.specs.declared.cause.Cause.{Cause};

use crate::accepted::a_script_has_one_program;
use hera_lexer::one_answer;
use hera_parser::laws::one_fault;
use hera_rules::typing_is_exact;

/// A script is refused for one cause, at one offset, or it is accepted with one program, and never both.
pub fn a_script_has_one_answer()
    ensures refusal { (hosts : List Host) (script : List ℕ) (c d : Cause) (a b : ℕ) → IsRefused hosts script c a → IsRefused hosts script d b → (c ≡ d) × (a ≡ b) }
    ensures never_both { (hosts : List Host) (script : List ℕ) (p : Program_tree) (c : Cause) (a : ℕ) → length script ≤ script_limit → Accepted script hosts p → IsRefused hosts script c a → ⊥ }
    ensures program { (hosts : List Host) (script : List ℕ) (p q : Program_tree) → Accepted script hosts p → Accepted script hosts q → p ≡ q }
{
    one_answer();
    one_fault();
    a_script_has_one_program();
    typing_is_exact();
}

//! The laws of code files that are run.

ghost use Rattle.std.specs.Prelude.{◌≡◌, ℕ, List};
ghost use Rattle.hera_meaning.specs.Hosts.{Hosts};
ghost use Rattle.hera_meaning.specs.Run.{run_of};
ghost use Rattle.hera_meaning.specs.Sound.{Sound};
ghost use Rattle.hera_meaning.specs.Trees.{Program_tree};
ghost use Rattle.rel_pages.specs.Stored.{empty_state};
ghost use Rattle.hera_outcome.specs.Outcomes.{Outcome, ran};
ghost use Rattle.hera_packed.specs.Packed.{IsPackOf};
ghost use Rattle.hera_packed.specs.Executed.{ExecutesTo};

use hera_codegen::code_does_what_the_program_means;
use hera_verify::typed_code_is_never_rejected;

/// The bytes of a code file come to one outcome with these hosts and so many turns.
pub fn a_file_comes_to_one_outcome()
    ensures { (hosts : Hosts) (turns : ℕ) (bytes : List ℕ) (a b : Outcome) → ExecutesTo hosts turns bytes a → ExecutesTo hosts turns bytes b → a ≡ b }
{
    typed_code_is_never_rejected();
}

/// A code file of a program is never refused, and what comes of it is what the program means on its relations without rows.
pub fn a_packed_program_does_what_it_means()
    ensures only { (p : Program_tree) (hosts : Hosts) (turns : ℕ) (bytes : List ℕ) (outcome : Outcome) → Sound p hosts → IsPackOf hosts p bytes
        → ExecutesTo hosts turns bytes outcome → outcome ≡ ran (run_of p (empty_state p.relations) hosts turns) }
    ensures comes { (p : Program_tree) (hosts : Hosts) (turns : ℕ) (bytes : List ℕ) → Sound p hosts → IsPackOf hosts p bytes
        → ExecutesTo hosts turns bytes (ran (run_of p (empty_state p.relations) hosts turns)) }
{
    a_file_comes_to_one_outcome();
    code_does_what_the_program_means();
}

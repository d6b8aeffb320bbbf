//! Laws of guarded runs and of their lines.
ghost use Rattle.std.specs.Prelude.{◌≡◌, ℕ, List, []};
ghost use Rattle.hera_meaning.specs.Trees.{Program_tree};
ghost use Rattle.hera_host.specs.Tables.{Host};
ghost use Rattle.hera_script.specs.declared.cause.Cause.{Cause};
ghost use Rattle.hera_guard_lines.specs.declared.lines.GuardLine.{GuardLine};
ghost use Rattle.hera_outcome.specs.Outcomes.{Outcome};
ghost use Rattle.hera_outcome.specs.Passages.{start};
ghost use Rattle.hera_run.specs.Folder.{RunsTo};
ghost use Rattle.hera_guarded.specs.Guarding.{GuardsTo};
ghost use Rattle.hera_guarded.specs.Reading.{IsWritten, IsRulesRefused};

use hera_guard::no_guards_refuse_nothing;
use hera_lexer::one_answer;
use hera_volume::Outside;

/// Without lines a guarded run comes to what the run comes to, and the run to what it does.
pub fn without_lines_it_is_the_run<W: Outside>()
    ensures run { (hosts : List Host) (turns : ℕ) (p : Program_tree) (first : W) (outcome : Outcome) → GuardsTo hosts [] turns p (start W.Outside.own first) outcome → RunsTo hosts turns p (start W.Outside.own first) outcome }
    ensures guarded { (hosts : List Host) (turns : ℕ) (p : Program_tree) (first : W) (outcome : Outcome) → RunsTo hosts turns p (start W.Outside.own first) outcome → GuardsTo hosts [] turns p (start W.Outside.own first) outcome }
{
    no_guards_refuse_nothing();
}

/// A script of guard lines is refused for one cause, at one offset, or it writes one list of lines, and never both.
pub fn rules_have_one_answer()
    ensures refusal { (script : List ℕ) (c d : Cause) (a b : ℕ) → IsRulesRefused script c a → IsRulesRefused script d b → (c ≡ d) × (a ≡ b) }
    ensures lines { (script : List ℕ) (x y : List GuardLine) → IsWritten script x → IsWritten script y → x ≡ y }
    ensures never_both { (script : List ℕ) (lines : List GuardLine) (c : Cause) (a : ℕ) → IsWritten script lines → IsRulesRefused script c a → ⊥ }
{
    one_answer();
}

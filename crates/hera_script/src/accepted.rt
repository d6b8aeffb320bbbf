//! The laws of accepted scripts.

ghost use Rattle.std.specs.Prelude.{◌≡◌, ◌≤◌, ℕ, List, length};
ghost use Rattle.hera_meaning.specs.Trees.{Program_tree};
ghost use Rattle.hera_meaning.specs.Sound.{Sound};
ghost use Rattle.hera_host.specs.Tables.{Host, AreHosts, specs_of};
ghost use Rattle.hera_syntax.specs.declared.token.Token.{Token};
ghost use Rattle.hera_syntax.specs.declared.tree.Tree.{Tree};
ghost use Rattle.hera_syntax.specs.Trees.{IsTextOf};
ghost use Rattle.hera_rules.specs.ReadActs.{script_of};
ghost use Rattle.hera_rules.specs.Accepted.{Accepted};
ghost use Rattle.hera_syntax.specs.Tokens.{script_limit};

use hera_lexer::one_answer;
use hera_parser::laws::one_tree;
use hera_rules::typing_is_exact;
use hera_sound::{outlines_tell_scripts, typed_programs_are_sound};

/// Two trees of one text have one script, and bytes that are accepted have one program.
pub fn a_script_has_one_program()
    ensures script { (tree other : Tree) → (tokens : List Token) → IsTextOf tree tokens → IsTextOf other tokens → script_of tree ≡ script_of other }
    ensures program { (bytes : List ℕ) → (hosts : List Host) → (p q : Program_tree) → Accepted bytes hosts p → Accepted bytes hosts q → p ≡ q }
{
    one_answer();
    one_tree();
    outlines_tell_scripts();
    typing_is_exact();
}

/// The program of an accepted script of at most 1,048,576 bytes is sound.
pub fn accepted_programs_are_sound()
    ensures { (bytes : List ℕ) → (hosts : List Host) → (p : Program_tree) → length bytes ≤ script_limit → AreHosts hosts → Accepted bytes hosts p → Sound p (specs_of hosts) }
{
    typed_programs_are_sound();
}

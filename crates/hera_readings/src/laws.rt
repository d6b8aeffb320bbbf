//! The laws of what is read.

ghost use Rattle.std.specs.Prelude.{◌≤◌, ◌⊎◌, ℕ, List, length, IsUtf8};
ghost use Rattle.hera_syntax.specs.Lex.{Lex, LexFails};
ghost use Rattle.hera_syntax.specs.Tokens.{script_limit};
ghost use Rattle.hera_syntax.specs.Trees.{IsFaultAt, IsTextOf};
ghost use Rattle.hera_syntax.specs.declared.token.Token.{Token};
ghost use Rattle.hera_syntax.specs.declared.tree.Tree.{Tree};
ghost use Rattle.hera_host.specs.Tables.{Host};
ghost use Rattle.hera_rules.specs.declared.fault.TypeFault.{TypeFault};
ghost use Rattle.hera_rules.specs.Phrases.{Script};
ghost use Rattle.hera_rules.specs.Programs.{FirstFault};

use hera_parser::laws::{reads_a_text, stops_at_the_fault};

/// A text is cut into tokens, no more than it has bytes, or it has a first place without one.
pub fn some_tokens()
    ensures some { (bytes : List ℕ) → IsUtf8 bytes → ((tokens : List Token) × Lex bytes tokens) ⊎ ((place : ℕ) × LexFails bytes place) }
    ensures few { (bytes : List ℕ) (tokens : List Token) → Lex bytes tokens → length tokens ≤ length bytes }
{}

/// Tokens, as many as a script may have, are the text of a tree, or they have a place of a fault.
pub fn some_tree()
    ensures { (tokens : List Token) → length tokens ≤ script_limit → ((tree : Tree) × IsTextOf tree tokens) ⊎ ((place : ℕ) × IsFaultAt tokens place) }
{
    reads_a_text();
    stops_at_the_fault();
}

/// The first fault of a script's types is never want of memory: so it has a place.
pub fn faults_have_places()
    ensures { (hosts : List Host) (script : Script) → ¬ FirstFault hosts script TypeFault.Memory }
{}

//! What holds of the texts of trees. Each law is the clause of a function that does nothing.

ghost use Rattle.std.specs.Prelude.{◌≡◌, ◌↔◌, ℕ, List, [], ◌∷◌};
ghost use Rattle.hera_syntax.specs.Grammar.{Production, phrase};
ghost use Rattle.hera_syntax.specs.Outline.{Entry};
ghost use Rattle.hera_syntax.specs.Programs.{outline};
ghost use Rattle.hera_syntax.specs.Trees.{Begins, IsFaultAt, IsTextOf};
ghost use Rattle.hera_syntax.specs.declared.token.Token.{Token};
ghost use Rattle.hera_syntax.specs.declared.tree.Tree.{Tree};
ghost use Rattle.hera_parser.specs.Beginnings.{BeginsByCases};
ghost use Rattle.hera_parser.specs.Reading.{ReadsProgram, StopsBefore};

/// A list of tokens is the text of at most one tree: two trees of one text have one outline.
pub fn one_tree()
    ensures { (tree other : Tree) (tokens : List Token) → IsTextOf tree tokens → IsTextOf other tokens → outline tree ≡ outline other }
{}

/// Tokens begin a production where they are empty, or a whole phrase, or, with an alternative chosen,
/// whole phrases of its first parts and then a list that begins the next part.
pub fn beginnings_by_cases()
    ensures { (production : Production) (tokens : List Token) → Begins (phrase production ∷ []) tokens ↔ BeginsByCases production tokens }
{}

/// A reading of a program from the left, in which the next token tells each alternative, stops at the
/// first token such that the tokens up to and including it do not begin a program.
pub fn stops_at_the_fault()
    ensures { (tokens : List Token) (place : ℕ) → StopsBefore tokens place → IsFaultAt tokens place }
{}

/// A reading that takes all tokens gives an outline of which they are the text.
pub fn reads_a_text()
    ensures { (tree : Tree) (tokens : List Token) → ReadsProgram tokens (outline tree) → IsTextOf tree tokens }
{}

/// A list of tokens has at most one place of a fault.
pub fn one_fault()
    ensures { (tokens : List Token) (place other : ℕ) → IsFaultAt tokens place → IsFaultAt tokens other → place ≡ other }
{}

//! The laws of typed programs.

ghost use Rattle.std.specs.Prelude.{◌≡◌, ◌≤◌, List, length, map};
ghost use Rattle.hera_meaning.specs.Trees.{Program_tree};
ghost use Rattle.hera_meaning.specs.Sound.{Sound};
ghost use Rattle.hera_meaning.specs.Shapes.{IsShaped, without_names};
ghost use Rattle.hera_host.specs.Tables.{Host, specs_of, AreHosts};
ghost use Rattle.hera_syntax.specs.declared.token.Token.{Token};
ghost use Rattle.hera_syntax.specs.declared.tree.Tree.{Tree};
ghost use Rattle.hera_syntax.specs.Programs.{outline};
ghost use Rattle.hera_syntax.specs.Tokens.{HaveValues, script_limit};
ghost use Rattle.hera_syntax.specs.Trees.{IsTextOf};
ghost use Rattle.hera_rules.specs.ReadActs.{script_of};
ghost use Rattle.hera_rules.specs.Programs.{ElabScript};
ghost use Rattle.hera_sound.specs.Types_found.{types_found};

/// The program of a text that is typed, of at most 1,048,576 tokens, is sound: every operand has the form
/// that its operation takes, every slot that is read is readable there, all numbers are in range, and there
/// are fewer than 2^32 instructions.
pub fn typed_programs_are_sound()
    ensures { (tree : Tree) → (tokens : List Token) → (hosts : List Host) → (p : Program_tree) → IsTextOf tree tokens → length tokens ≤ script_limit → HaveValues tokens → AreHosts hosts → ElabScript hosts (script_of tree) p → Sound p (specs_of hosts) }
{}

/// That program is sound with the types that typing finds, attribute names left out: with these types of slots
/// and of results each body is sound, and each walk gathers the tuples that its slot's entry says.
pub fn typed_programs_are_shaped()
    ensures { (tree : Tree) → (tokens : List Token) → (hosts : List Host) → (p : Program_tree) → IsTextOf tree tokens → length tokens ≤ script_limit → HaveValues tokens → AreHosts hosts → (typed : ElabScript hosts (script_of tree) p) → IsShaped p (specs_of hosts) (map without_names (types_found typed)) }
{}

/// Two trees of one outline have one script, so typing sees nothing of a tree but its outline.
pub fn outlines_tell_scripts()
    ensures { (tree other : Tree) → outline tree ≡ outline other → script_of tree ≡ script_of other }
{}

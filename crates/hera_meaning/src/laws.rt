//! The laws of rows, deltas and runs, each the clause of a function without effect.
ghost use Rattle.std.specs.Prelude.{◌≡◌, ◌≤◌, ◌↔◌, ◌++◌, [], Bool, true, false, List, ℕ, None, map, All};
ghost use Rattle.hera_sets.specs.Rows.{is_below, IsAscending};
ghost use Rattle.hera_meaning.specs.declared.scalars.Scalar.{Scalar};
ghost use Rattle.hera_meaning.specs.declared.schemas.Attr.{Attr};
ghost use Rattle.hera_meaning.specs.Scalars.{is_tuple, tuple_less};
ghost use Rattle.hera_meaning.specs.Rows.{row_of, fields_of, IsRow, is_row};
ghost use Rattle.hera_meaning.specs.declared.schemas.RelDecl.{RelDecl};
ghost use Rattle.hera_meaning.specs.Catalogues.{IsCatalogue};
ghost use Rattle.hera_meaning.specs.Deltas.{State, IsState, Delta, IsDelta, is_fail, apply_of, smash_of, merge_of};
ghost use Rattle.hera_meaning.specs.Commits.{after_all, smash_all, IsCommitOf, IsSmashOf};
ghost use Rattle.hera_meaning.specs.Wider.{is_prefix, added, widened_row, Wider, first_narrowed, widen_of};
ghost use Rattle.hera_meaning.specs.Hosts.{Hosts};
ghost use Rattle.hera_meaning.specs.Trees.{Program_tree};
ghost use Rattle.hera_meaning.specs.Run.{run_to, run_of, report_of};

/// Within a schema two tuples with one row are equal.
pub fn a_row_has_one_tuple()
    ensures { (schema : List Attr) (a b : List Scalar) → is_tuple schema a ≡ true → is_tuple schema b ≡ true → row_of a ≡ row_of b → a ≡ b }
{}

/// Within a schema no row is a prefix of another.
pub fn no_row_begins_another()
    ensures { (schema : List Attr) (row more : List ℕ) → IsRow schema row → IsRow schema (row ++ more) → more ≡ [] }
{}

/// Within a schema the byte order of rows is the order of tuples.
pub fn rows_are_in_order_of_tuples()
    ensures { (schema : List Attr) (a b : List Scalar) → is_tuple schema a ≡ true → is_tuple schema b ≡ true → is_below (row_of a) (row_of b) ≡ tuple_less schema a b }
{}

/// A row reads as its tuple.
pub fn a_row_reads_as_its_tuple()
    ensures { (schema : List Attr) (tuple : List Scalar) → is_tuple schema tuple ≡ true → fields_of schema (row_of tuple) ≡ tuple }
{}

/// The test of rows passes exactly the rows of tuples.
pub fn the_test_of_rows_is_exact()
    ensures { (schema : List Attr) (bytes : List ℕ) → (is_row schema bytes ≡ true) ↔ IsRow schema bytes }
{}

/// To apply a smash is to apply the first delta and then the second.
pub fn a_smash_is_one_after_another()
    ensures { (s : State) (a b : Delta) → is_fail a ≡ false → is_fail b ≡ false → apply_of s (smash_of a b) ≡ apply_of (apply_of s a) b }
{}

/// The smash of deltas is a delta, and so is their merge.
pub fn deltas_stay_deltas()
    ensures smash { (a b : Delta) → IsDelta a → IsDelta b → IsDelta (smash_of a b) }
    ensures merge { (a b : Delta) → IsDelta a → IsDelta b → IsDelta (merge_of a b) }
{}

/// Smash is associative.
pub fn smash_is_associative()
    ensures { (a b c : Delta) → IsDelta a → IsDelta b → IsDelta c → smash_of (smash_of a b) c ≡ smash_of a (smash_of b c) }
{}

/// Merge is commutative.
pub fn merge_is_commutative()
    ensures { (a b : Delta) → IsDelta a → IsDelta b → merge_of a b ≡ merge_of b a }
{}

/// Merge is associative.
pub fn merge_is_associative()
    ensures { (a b c : Delta) → IsDelta a → IsDelta b → IsDelta c → merge_of (merge_of a b) c ≡ merge_of a (merge_of b c) }
{}

/// Where a merge is not fail, both smashes are that merge.
pub fn a_merge_is_either_smash()
    ensures first { (a b : Delta) → IsDelta a → IsDelta b → is_fail (merge_of a b) ≡ false → smash_of a b ≡ merge_of a b }
    ensures second { (a b : Delta) → IsDelta a → IsDelta b → is_fail (merge_of a b) ≡ false → smash_of b a ≡ merge_of a b }
{}

/// A state after commits is one of the catalogue.
pub fn a_state_after_commits_is_one()
    ensures { (rels : List RelDecl) (s : State) (ds : List Delta) → IsState rels s → All (IsCommitOf rels) ds → IsState rels (after_all s ds) }
{}

/// The smash of commits is a commit, and does to a state what they do one after another.
pub fn the_smash_of_commits_does_what_they_do()
    ensures { (rels : List RelDecl) (ds : List Delta) → All (IsCommitOf rels) ds → IsSmashOf rels ds (smash_all ds) }
{}

/// A schema is a prefix of another exactly where that one has its attributes and then others.
pub fn a_prefix_is_followed_by_more()
    ensures { (old new : List Attr) → (is_prefix old new ≡ true) ↔ ((rest : List Attr) × (new ≡ old ++ rest)) }
{}

/// A row of a schema, widened, is a row of the wider schema, of the tuple with the added values behind it.
pub fn a_widened_row_is_a_row()
    ensures row { (old new : List Attr) (row : List ℕ) → is_prefix old new ≡ true → IsRow old row → IsRow new (widened_row old new row) }
    ensures tuple { (old new : List Attr) (tuple : List Scalar) → widened_row old new (row_of tuple) ≡ row_of (tuple ++ added old new) }
{}

/// Widening keeps the order of rows.
pub fn widening_keeps_the_order_of_rows()
    ensures two { (old new : List Attr) (a b : List ℕ) → is_prefix old new ≡ true → IsRow old a → IsRow old b → is_below (widened_row old new a) (widened_row old new b) ≡ is_below a b }
    ensures all { (old new : List Attr) (rows : List (List ℕ)) → is_prefix old new ≡ true → All (IsRow old) rows → IsAscending rows → IsAscending (map (widened_row old new) rows) }
{}

/// A state widened to a wider catalogue is one of it.
pub fn a_widened_state_is_a_state()
    ensures { (old new : List RelDecl) (s : State) → IsCatalogue new → Wider old new → IsState old s → IsState new (widen_of old s new) }
{}

/// A catalogue is wider than another exactly where it narrows no relation of it.
pub fn a_wider_catalogue_narrows_no_relation()
    ensures { (old new : List RelDecl) → Wider old new ↔ (first_narrowed old new ≡ None) }
{}

/// How deep calls may nest changes no run, once it is at least the number of turns.
pub fn depth_beyond_the_turns_changes_nothing()
    ensures { (p : Program_tree) (s : State) (hosts : Hosts) (n depth : ℕ) → n ≤ depth → report_of (run_to depth p s hosts n) ≡ run_of p s hosts n }
{}

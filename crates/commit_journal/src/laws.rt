//! Laws of the definitions.
ghost use Rattle.std.specs.Prelude.{◌≡◌, ◌≢◌, ◌≤◌, ◌⊎◌, ◌+◌, ◌++◌, ◌∷◌, ℕ, List, length, take, drop, map, All};
ghost use Rattle.std.specs.List.{flat_map};
ghost use Rattle.hera_meaning.specs.Commits.{after_all};
ghost use Rattle.hera_meaning.specs.declared.schemas.RelDecl.{RelDecl};
ghost use Rattle.hera_meaning.specs.Deltas.{Atom, Delta, State, atoms, apply_of};
ghost use Rattle.rel_format.specs.Pages.{Format, pages_of};
ghost use Rattle.rel_format.specs.Journal.{record_of, sealed, half_limit, IsRecordOf, IsHalf};
ghost use Rattle.rel_format.specs.Places.{Stops as StopsInPages};
ghost use Rattle.commit_journal.specs.Gate.{IsEither};
ghost use Rattle.commit_journal.specs.Prepare.{need_of};
ghost use Rattle.commit_journal.specs.Places.{IsJournal, Stops};
ghost use Rattle.commit_journal.specs.Halves.{HasPages, IsHalfTo, IsDamageOfHalf};

/// The first field of a half that breaks its rule, before its first gate or in its journal, begins
/// where the longest good prefix ends.
pub fn damage_ends_the_longest_good_prefix()
    ensures pages { (f : Format) (bytes : List ℕ) (at : ℕ) → StopsInPages f bytes at → IsDamageOfHalf f bytes at }
    ensures journal { (f : Format) (bytes : List ℕ) (rels : List RelDecl) (state : State) (first : ℕ) (at : ℕ) →
        HasPages f bytes rels state first → Stops rels bytes first at → IsDamageOfHalf f bytes at }
{}

/// Pages and the journal that was scanned behind them are a half, whose state is that of the pages
/// after the journal's deltas.
pub fn pages_and_journal_are_a_half()
    ensures { (f : Format) (bytes : List ℕ) (rels : List RelDecl) (state : State) (first : ℕ) (deltas : List Delta) (end : ℕ) →
        HasPages f bytes rels state first → IsJournal rels bytes first deltas end → IsHalfTo f bytes rels (after_all state deltas) end }
{}

/// With a record or without, as sealing leaves it at each moment, a half has its state after the
/// record's delta or as before.
pub fn a_half_is_with_the_record_or_without()
    ensures { (f : Format) (old : List ℕ) (new : List ℕ) (rels : List RelDecl) (state : State) (end : ℕ) (xs : List Atom) →
        IsHalfTo f old rels state end → IsRecordOf rels xs → need_of xs end ≤ half_limit → IsEither (take end old) (record_of xs) old new →
        IsHalfTo f new rels state end ⊎ IsHalfTo f new rels (apply_of state (atoms xs)) (end + length (record_of xs) + 1) }
{}

/// A journal that is printed is not damaged, and what is read of it was printed.
pub fn a_printed_journal_is_read()
    ensures whole { (rels : List RelDecl) (bytes : List ℕ) (first : ℕ) (records : List (List Atom)) (gate : ℕ) (rest : List ℕ) (at : ℕ) →
        length rels ≤ 65536 → All (IsRecordOf rels) records → gate ≢ 1 → drop first bytes ≡ flat_map sealed records ++ gate ∷ rest → ¬ Stops rels bytes first at }
    ensures once { (rels : List RelDecl) (bytes : List ℕ) (first : ℕ) (records : List (List Atom)) (gate : ℕ) (rest : List ℕ) (deltas : List Delta) (end : ℕ) →
        length rels ≤ 65536 → All (IsRecordOf rels) records → gate ≢ 1 → drop first bytes ≡ flat_map sealed records ++ gate ∷ rest → IsJournal rels bytes first deltas end →
        (deltas ≡ map atoms records) × (end ≡ first + length (flat_map sealed records)) }
{}

/// A journal that is read is not damaged, and nothing else is read of it.
pub fn a_journal_is_read_in_one_way()
    ensures whole { (rels : List RelDecl) (bytes : List ℕ) (first : ℕ) (deltas : List Delta) (end : ℕ) (at : ℕ) →
        IsJournal rels bytes first deltas end → ¬ Stops rels bytes first at }
    ensures once { (rels : List RelDecl) (bytes : List ℕ) (first : ℕ) (deltas : List Delta) (end : ℕ) (others : List Delta) (place : ℕ) →
        IsJournal rels bytes first deltas end → IsJournal rels bytes first others place → (deltas ≡ others) × (end ≡ place) }
{}

/// Where a journal is damaged, the bytes are no half whose pages end before that journal.
pub fn a_damaged_journal_is_no_half()
    ensures { (f : Format) (bytes : List ℕ) (rels : List RelDecl) (state : State) (first : ℕ) (at : ℕ) →
        Stops rels bytes first at → (half : IsHalf f bytes rels state) → length (pages_of f rels half.paged) ≢ first }
{}

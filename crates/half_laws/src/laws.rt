//! Laws of the definitions.
ghost use Rattle.std.specs.Prelude.{◌≡◌, ◌≤◌, ◌++◌, ℕ, List, length};
ghost use Rattle.hera_meaning.specs.declared.schemas.RelDecl.{RelDecl};
ghost use Rattle.hera_meaning.specs.Catalogues.{IsCatalogue};
ghost use Rattle.hera_meaning.specs.Deltas.{State, IsState};
ghost use Rattle.rel_format.specs.declared.version.Version.{Version};
ghost use Rattle.rel_format.specs.Pages.{Fit, format_two, header_of, pages_of, half_of};
ghost use Rattle.rel_format.specs.Journal.{IsHalf, half_limit};
ghost use Rattle.rel_format.specs.Versions.{format_of, version_in, IsHalfOf};
ghost use Rattle.rel_pages.specs.Halves.{IsDamagedAt};
ghost use Rattle.commit_journal.specs.Halves.{IsHalfTo, IsDamageOfHalf};
ghost use Rattle.commit_journal.specs.Places.{Stops};
ghost use Rattle.half_laws.specs.Formats.{IsFormat};
ghost use Rattle.half_laws.specs.Behind.{StopsBehindHeader};

/// Each of the two formats is one whose halves are read again.
pub fn each_version_is_a_format()
    ensures { (version : Version) → IsFormat (format_of version) }
{}

/// A half has one format, and its first bytes tell which.
pub fn a_half_has_one_version()
    ensures { (version : Version) (bytes : List ℕ) (rels : List RelDecl) (state : State) → IsHalf (format_of version) bytes rels state → version_in bytes ≡ version }
{}

/// A list of bytes is a half with at most one catalogue and state, and with one last gate.
pub fn a_half_has_one_catalogue_and_state()
    ensures content { (bytes : List ℕ) (rels : List RelDecl) (rels2 : List RelDecl) (state : State) (state2 : State) →
        IsHalfOf bytes rels state → IsHalfOf bytes rels2 state2 → (rels ≡ rels2) × (state ≡ state2) }
    ensures end { (version : Version) (version2 : Version) (bytes : List ℕ) (rels : List RelDecl) (rels2 : List RelDecl) (state : State) (state2 : State) (end : ℕ) (end2 : ℕ) →
        IsHalfTo (format_of version) bytes rels state end → IsHalfTo (format_of version2) bytes rels2 state2 end2 → end ≡ end2 }
{}

/// The half of a catalogue and a state, which is written in format 2, is a half with just these, and
/// its last gate stands behind the pages.
pub fn the_half_of_a_state_is_a_half_with_it()
    ensures { (rels : List RelDecl) (state : State) → IsCatalogue rels → IsState rels state → length (half_of format_two rels state) ≤ half_limit →
        IsHalfTo format_two (half_of format_two rels state) rels state (length (pages_of format_two rels state)) }
{}

/// Bytes that are damaged, before the first gate or in the journal, are no half of either format.
pub fn what_is_damaged_is_no_half()
    ensures pages { (bytes : List ℕ) (rels : List RelDecl) (state : State) (at : ℕ) → IsDamagedAt bytes at → ¬ IsHalfOf bytes rels state }
    ensures whole { (bytes : List ℕ) (rels : List RelDecl) (state : State) (at : ℕ) → IsDamageOfHalf (format_of (version_in bytes)) bytes at → ¬ IsHalfOf bytes rels state }
{}

/// Bytes that begin with a printed header, or with printed pages, and break a rule behind them are no half of either
/// format, whatever else they might hold.
pub fn what_breaks_behind_a_printed_front_is_no_half()
    ensures header { (version : Version) (bytes : List ℕ) (front : List RelDecl) (rest : List ℕ) (at : ℕ) (rels : List RelDecl) (state : State) →
        IsCatalogue front → bytes ≡ header_of (format_of version) front ++ rest → StopsBehindHeader (format_of version) bytes front at → ¬ IsHalfOf bytes rels state }
    ensures pages { (version : Version) (bytes : List ℕ) (front : List RelDecl) (paged : State) (rest : List ℕ) (at : ℕ) (rels : List RelDecl) (state : State) →
        IsCatalogue front → IsState front paged → Fit (format_of version).page paged → bytes ≡ pages_of (format_of version) front paged ++ rest →
        Stops front bytes (length (pages_of (format_of version) front paged)) at → ¬ IsHalfOf bytes rels state }
{}

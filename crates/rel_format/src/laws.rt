//! Laws of the definitions.
ghost use Rattle.std.specs.Prelude.{◌≡◌, ℕ, List};
ghost use Rattle.hera_sets.specs.Rows.{Row};
ghost use Rattle.rel_format.specs.Pages.{Format, paged};
ghost use Rattle.rel_format.specs.Places.{IsDamage, Stops};
ghost use Rattle.rel_format.specs.Greedy.{ArePages, all_rows};

/// Pages each of which is full before the next are the pages of their rows.
pub fn pages_are_greedy()
    ensures { (page : ℕ) (pages : List (List Row)) → ArePages page pages → paged page (all_rows pages) ≡ pages }
{}

/// The place of the first field that breaks its rule ends the longest good prefix.
pub fn damage_ends_the_longest_good_prefix()
    ensures { (f : Format) (bytes : List ℕ) (at : ℕ) → Stops f bytes at → IsDamage f bytes at }
{}

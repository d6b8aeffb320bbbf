//! Laws of the definitions.
ghost use Rattle.std.specs.Prelude.{◌≡◌, ◌++◌, ◌∷◌, [], ℕ, List};
ghost use Rattle.hera_sets.specs.Rows.{Row};
ghost use Rattle.hera_meaning.specs.declared.schemas.RelDecl.{RelDecl};
ghost use Rattle.hera_meaning.specs.Deltas.{State};
ghost use Rattle.rel_format.specs.Pages.{Format, half_of};
ghost use Rattle.half_writer.specs.Written.{written_of, with_rel, finished};

/// A writer to which the relations of a state were added, and then one more, is a writer to which
/// the relations of the longer state were added.
pub fn a_relation_more_is_added()
    ensures { (f : Format) (rels : List RelDecl) (limit : ℕ) (state : State) (rows : List Row) →
        with_rel f.page (written_of f rels limit state) rows ≡ written_of f rels limit (state ++ rows ∷ []) }
{}

/// What is finished once the relations of a state were added is the half of the catalogue and the
/// state.
pub fn what_is_finished_is_the_half()
    ensures { (f : Format) (rels : List RelDecl) (limit : ℕ) (state : State) → finished (written_of f rels limit state) ≡ half_of f rels state }
{}

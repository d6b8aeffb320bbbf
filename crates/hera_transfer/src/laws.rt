//! Laws of the definitions that the contracts of `import` and `export` cite. The functions do nothing: their clauses are the
//! laws.
ghost use Rattle.std.specs.Prelude.{◌≡◌, ◌≢◌, ◌<◌, ℕ, List, [], Some, length};
ghost use Rattle.hera_sets.specs.Rows.{Row};
ghost use Rattle.hera_sets.specs.Sets.{union_of};
ghost use Rattle.hera_meaning.specs.declared.schemas.RelDecl.{RelDecl};
ghost use Rattle.hera_meaning.specs.Catalogues.{IsCatalogue};
ghost use Rattle.hera_meaning.specs.Deltas.{State, IsState, schema_of, rows_at, apply_of};
ghost use Rattle.hera_row.specs.Numbers.{number_named};
ghost use Rattle.hera_csv.specs.Writers.{csv_of};
ghost use Rattle.hera_store.specs.Databases.{Database};
ghost use Rattle.hera_transfer.specs.Transfers.{addition, IsGood, rows_in};

use hera_csv::what_is_written_is_read_back;

/// The state that an import stores has the relation united with the rows of the file, and all others as they were.
pub fn an_import_unites()
    ensures united { (s : State) (rel : ℕ) (rows : List Row) → rel < length s → rows_at (apply_of s (addition rel rows)) rel ≡ union_of (rows_at s rel) rows }
    ensures others { (rels : List RelDecl) (s : State) (rel other : ℕ) (rows : List Row) → IsState rels s → other ≢ rel → rows_at (apply_of s (addition rel rows)) other ≡ rows_at s other }
{}

/// Each record of an exported relation is good for a relation of its name and schema, in the same database or another, and
/// an import of it has the exported rows; into an empty relation it gives these rows alone.
pub fn what_is_exported_is_imported()
    ensures good { (from into : Database) (name : List ℕ) (rel number : ℕ) → IsCatalogue from.catalogue → IsState from.catalogue from.state
        → number_named name from.catalogue ≡ Some rel → number_named name into.catalogue ≡ Some number → schema_of into.catalogue number ≡ schema_of from.catalogue rel
        → IsGood into name (csv_of (schema_of from.catalogue rel) (rows_at from.state rel)) number }
    ensures rows { (from into : Database) (name : List ℕ) (rel number : ℕ) → IsCatalogue from.catalogue → IsState from.catalogue from.state
        → number_named name from.catalogue ≡ Some rel → number_named name into.catalogue ≡ Some number → schema_of into.catalogue number ≡ schema_of from.catalogue rel
        → rows_in into number (csv_of (schema_of from.catalogue rel) (rows_at from.state rel)) ≡ rows_at from.state rel }
    ensures alone { (from into : Database) (name : List ℕ) (rel number : ℕ) → IsCatalogue from.catalogue → IsState from.catalogue from.state
        → number_named name from.catalogue ≡ Some rel → number_named name into.catalogue ≡ Some number → schema_of into.catalogue number ≡ schema_of from.catalogue rel
        → rows_at into.state number ≡ [] → number < length into.state
        → rows_at (apply_of into.state (addition number (rows_in into number (csv_of (schema_of from.catalogue rel) (rows_at from.state rel))))) number ≡ rows_at from.state rel }
{
    what_is_written_is_read_back();
}

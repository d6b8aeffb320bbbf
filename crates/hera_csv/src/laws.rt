//! What is written is read back.
ghost use Rattle.std.specs.Prelude.{◌≡◌, List, [], None, All};
ghost use Rattle.hera_sets.specs.Rows.{Row, IsAscending};
ghost use Rattle.hera_sets.specs.Sets.{union_of};
ghost use Rattle.hera_meaning.specs.declared.schemas.Attr.{Attr};
ghost use Rattle.hera_meaning.specs.Identifiers.{IsIdentifier};
ghost use Rattle.hera_meaning.specs.Rows.{IsRow};
ghost use Rattle.hera_meaning.specs.Schemas.{IsSchema, names_of};
ghost use Rattle.hera_csv.specs.Records.{records_of, bad_in, rows_of};
ghost use Rattle.hera_csv.specs.Writers.{csv_of};

/// For every relation and set of its rows, the text of its rows has no record that is not good, and what is read of it
/// into the empty relation is that set.
pub fn what_is_written_is_read_back()
    ensures good { (schema : List Attr) → (rows : List Row) → IsSchema schema → All IsIdentifier (names_of schema) → All (IsRow schema) rows → bad_in schema (records_of (csv_of schema rows)) ≡ None }
    ensures rows { (schema : List Attr) → (rows : List Row) → IsSchema schema → All IsIdentifier (names_of schema) → All (IsRow schema) rows → IsAscending rows → rows_of schema (records_of (csv_of schema rows)) ≡ rows }
    ensures into_empty { (schema : List Attr) → (rows : List Row) → IsSchema schema → All IsIdentifier (names_of schema) → All (IsRow schema) rows → IsAscending rows → union_of [] (rows_of schema (records_of (csv_of schema rows))) ≡ rows }
{}

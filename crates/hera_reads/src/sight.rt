//! Relations that are named, with what is known of their rows.
ghost use Rattle.std.specs.Prelude.{◌≡◌, ◌≤◌, ◌<◌, ◌^◌, true, length, IsTrue, IfSome, MatchOption};
ghost use Rattle.std.specs.List.{list_all};
ghost use Rattle.hera_meaning.specs.Rows.{is_row};

use crate::kinds::have_same_kinds;
use hera_meaning::Schema;
use hera_rows::{RowMark, Sorted};
use std::marker::Model;
use when_overlay::IndexedHyp;

/// The rows of a relation that is named, as it is under a layer, and a schema of which all of them are known to
/// be, where one is known.
#[derive(Drop)]
pub struct Sight<'a> {
    rows: IndexedHyp<'a>,
    schema: Option<&'a Schema>,
}

impl<'a> Model for Sight<'a> {
    ghost use Rattle.std.specs.Prelude.{List, ℕ, ◌≡◌, true, IfSome};
    ghost use Rattle.std.specs.List.{list_all};
    ghost use Rattle.hera_meaning.specs.Rows.{is_row};

    ghost Value = { List (List ℕ) };

    ghost view = { λ s. s.rows };

    ghost invariant = { λ s. IfSome s.schema (λ schema. list_all (is_row schema.now) s.rows ≡ true) };
}

impl<'a> Sight<'a> {
    /// These rows, which are all of the schema, where one is given.
    pub(crate) fn new(rows: IndexedHyp<'a>, schema: Option<&'a Schema>) -> Sight<'a>
        requires { IfSome schema (λ schema. list_all (is_row schema.now) rows ≡ true) }
        ensures { result ≡ rows.entry }
    {
        Sight { rows, schema }
    }

    /// Whether the rows are known to be of a schema with the kinds of this one, and so of this one too. No row
    /// is looked at, and it takes no memory.
    pub fn is_of(&self, schema: &Schema) -> bool
        ensures { IsTrue result → list_all (is_row schema.now) self.now ≡ true }
    {
        match self.schema {
            None => false,
            Some(own) => have_same_kinds(schema, own),
        }
    }

    /// The same rows.
    pub fn again(&self) -> Sight<'a>
        ensures { result ≡ self.now }
    {
        Sight {
            rows: self.rows.again(),
            schema: self.schema,
        }
    }

    /// How many rows there are; none for more than 2^63 - 1. It takes no memory, and looks at no row that no
    /// delta names.
    pub fn count(&self) -> Option<u64>
        ensures { MatchOption result (2 ^ 63 ≤ length self.now) (λ n. (n ≡ length self.now) × (n < 2 ^ 63)) }
    {
        self.rows.count()
    }
}

impl<'a> Sorted for Sight<'a> {
    ghost rows = { λ s. s };

    fn above<'s>(&'s self, bound: Option<&[u8]>) -> Option<&'s [u8]> {
        self.rows.above(bound)
    }

    fn above_from<'s>(&'s self, bound: Option<&[u8]>, mark: &mut RowMark) -> Option<&'s [u8]> {
        self.rows.above_from(bound, mark)
    }

    fn not_below<'s>(&'s self, bound: &'s [u8], mark: &mut RowMark) -> Option<&'s [u8]> {
        self.rows.not_below(bound, mark)
    }

    fn has(&self, row: &[u8]) -> bool {
        self.rows.has(row)
    }
}

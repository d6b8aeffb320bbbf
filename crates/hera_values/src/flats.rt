//! Ints, bools and tuples among values and slots, without memory.
ghost use Rattle.std.specs.Prelude.{◌≡◌, ◌∷◌, [], Some, IfSome, slice_get};
ghost use Rattle.std.specs.Option.{is_some};
ghost use Rattle.hera_meaning.specs.Values.{scalar, tuple, table};
ghost use Rattle.hera_meaning.specs.Worlds.{set_local};
ghost use Rattle.hera_row.specs.Fields.{told};
ghost use Rattle.hera_flat.specs.Flats.{flat_value, IsGiven};
ghost use Rattle.hera_values.specs.Little.{plain_of, slot_in, flat_of, int_of, flat_at, int_at};

use crate::Locals;
use crate::values::{Datum, let_go};
use hera_flat::Flat;
use hera_meaning::{Op, ScalarRef, Schema};
use hera_row::field_of_row;
use hera_rows::RowSet;
use std::mem::replace;

/// The int or bool, where the scalar is one.
#[inline]
fn flat_scalar(s: ScalarRef<'_>) -> Option<Flat>
    ensures { IfSome result (λ f. scalar (told s.entry) ≡ flat_value f) }
{
    match s {
        ScalarRef::Int(n) => Some(Flat::Int(n)),
        ScalarRef::Bool(b) => Some(Flat::Bool(b)),
        ScalarRef::Text(_) => None,
    }
}

/// The int or bool at a place of a row, where there is one and the row is of the schema.
#[inline]
fn row_field(schema: &Schema, i: usize, row: &[u8]) -> Option<Flat>
    ensures { IfSome result (IsGiven (Op.Field schema.now i) (tuple row.now ∷ [])) }
{
    match field_of_row(schema, row, i) {
        Some(field) => flat_scalar(field),
        None => None,
    }
}

impl Datum {
    /// The int or bool at a place of a tuple, where there is one and the tuple is of the schema.
    #[inline]
    pub fn flat_field(&self, schema: &Schema, i: usize) -> Option<Flat>
        ensures { IfSome result (IsGiven (Op.Field schema.now i) (plain_of self.now ∷ [])) }
    {
        match self {
            Datum::Int(_) => None,
            Datum::Bool(_) => None,
            Datum::Tuple(row) => row_field(schema, i, row),
            Datum::Large(_) => None,
        }
    }

    /// The int or bool, where it is one.
    #[inline]
    #[tactic(auto, using(crate::proofs::Larges::larges))]
    pub fn flat(&self) -> Option<Flat>
        ensures exact { result ≡ flat_of (plain_of self.now) }
        ensures flat { IfSome result (λ f. plain_of self.now ≡ flat_value f) }
    {
        match self {
            Datum::Int(n) => Some(Flat::Int(*n)),
            Datum::Bool(b) => Some(Flat::Bool(*b)),
            Datum::Tuple(_) => None,
            Datum::Large(_) => None,
        }
    }

    /// The int, where it is one.
    #[inline]
    #[tactic(auto, using(crate::proofs::Larges::larges))]
    pub fn int(&self) -> Option<i64>
        ensures exact { result ≡ int_of (plain_of self.now) }
        ensures int { IfSome result (λ n. plain_of self.now ≡ flat_value (Flat.Int n)) }
    {
        match self {
            Datum::Int(n) => Some(*n),
            Datum::Bool(_) => None,
            Datum::Tuple(_) => None,
            Datum::Large(_) => None,
        }
    }

    /// The value of an int or a bool.
    #[inline]
    pub fn of_flat(v: Flat) -> Datum
        ensures { plain_of result ≡ flat_value v }
    {
        match v {
            Flat::Int(n) => Datum::Int(n),
            Flat::Bool(b) => Datum::Bool(b),
        }
    }

    /// Puts an int or a bool in the place of a value that may be another one.
    #[inline(never)]
    fn renew(&mut self, v: Flat)
        ensures { plain_of self.new ≡ flat_value v }
    {
        let_go(replace(self, Datum::of_flat(v)));
    }

    /// Puts an int in the value's place.
    #[inline(always)]
    fn put_int(&mut self, n: i64)
        ensures { plain_of self.new ≡ flat_value (Flat.Int n) }
    {
        match self {
            Datum::Int(place) => *place = n,
            Datum::Bool(_) => *self = Datum::Int(n),
            _ => self.renew(Flat::Int(n)),
        }
    }

    /// Puts a bool in the value's place.
    #[inline(always)]
    fn put_bool(&mut self, b: bool)
        ensures { plain_of self.new ≡ flat_value (Flat.Bool b) }
    {
        match self {
            Datum::Bool(place) => *place = b,
            Datum::Int(_) => *self = Datum::Bool(b),
            _ => self.renew(Flat::Bool(b)),
        }
    }

    /// Puts an int or a bool in the value's place.
    #[inline(always)]
    pub fn put_flat(&mut self, v: Flat)
        ensures { plain_of self.new ≡ flat_value v }
    {
        match v {
            Flat::Int(n) => self.put_int(n),
            Flat::Bool(b) => self.put_bool(b),
        }
    }
}

impl Locals {
    /// The int or bool in a slot, where there is one.
    #[inline]
    #[tactic(auto, using(crate::proofs::Slots::copies))]
    pub fn flat_at(&self, i: usize) -> Option<Flat>
        ensures exact { result ≡ flat_at self.now i }
        ensures flat { IfSome result (λ f. slice_get self.now i ≡ Some (flat_value f)) }
    {
        match self.items.get(i) {
            None => None,
            Some(v) => v.flat(),
        }
    }

    /// The int in a slot, where there is one.
    #[inline]
    #[tactic(auto, using(crate::proofs::Slots::copies))]
    pub fn int_at(&self, i: usize) -> Option<i64>
        ensures exact { result ≡ int_at self.now i }
        ensures int { IfSome result (λ n. slice_get self.now i ≡ Some (flat_value (Flat.Int n))) }
    {
        match self.items.get(i) {
            None => None,
            Some(v) => v.int(),
        }
    }

    /// The int or bool at a place of the tuple in a slot, where there is one and the tuple is of the schema.
    #[inline]
    #[tactic(auto, using(crate::proofs::Slots::copies))]
    pub fn field_at(&self, i: usize, schema: &Schema, place: usize) -> Option<Flat>
        ensures there { IfSome result (λ f. slice_get self.now i ≡ Some (slot_in (slice_get self.now i))) }
        ensures given { IfSome result (IsGiven (Op.Field schema.now place) (slot_in (slice_get self.now i) ∷ [])) }
    {
        match self.items.get(i) {
            None => None,
            Some(v) => v.flat_field(schema, place),
        }
    }

    /// The rows of the relation in a slot, where there is one. None is copied.
    #[inline]
    #[tactic(auto, using(crate::proofs::Slots::copies))]
    pub fn rows_at(&self, i: usize) -> Option<&RowSet>
        ensures { IfSome result (λ rows. slice_get self.now i ≡ Some (table rows.now)) }
    {
        match self.items.get(i) {
            None => None,
            Some(v) => v.rows(),
        }
    }

    /// Puts an int or a bool into a slot, if the slot is there.
    #[inline]
    #[tactic(auto, using(crate::proofs::Slots::slots))]
    pub fn put_flat(&mut self, i: usize, v: Flat) -> bool
        ensures there { result ≡ is_some (slice_get self.old i) }
        ensures put { self.new ≡ set_local self.old i (flat_value v) }
    {
        if i < self.items.len() {
            self.items[i].put_flat(v);
            true
        } else {
            false
        }
    }
}

//! Ints, bools and tuples among operands, without memory but where a tuple has no buffer that it can go into.
ghost use Rattle.std.specs.Prelude.{◌≡◌, ◌≤◌, ◌<◌, [], ◌∷◌, true, false, Some, IfOk, IfSome, drop, length};
ghost use Rattle.hera_meaning.specs.Values.{bool_value, tuple, table};
ghost use Rattle.hera_flat.specs.Flats.{flat_value, IsGiven};
ghost use Rattle.hera_values.specs.Little.{flat_of, int_of};
ghost use Rattle.hera_code.specs.Machine.{as_bool};
ghost use Rattle.hera_frames.specs.Items.{item_of, held, held_in, newest_in, held_of, newest_of, reach};

use crate::{Operand, Operands};
use hera_flat::Flat;
use hera_meaning::{Op, Schema};
use hera_rows::{RowSet, Sorted};
use hera_values::{Datum, let_go, refill};
use std::alloc::{AllocError, Global};
use std::mem::replace;

impl Operand {
    /// The int or bool, where it is one.
    #[inline]
    fn flat(&self) -> Option<Flat>
        ensures exact { result ≡ held_of flat_of (item_of self.now) }
        ensures flat { IfSome result (λ f. item_of self.now ≡ held (flat_value f)) }
    {
        match self {
            Operand::Held(v) => v.flat(),
            Operand::Named { .. } => None,
        }
    }

    /// The int, where it is one.
    #[inline]
    fn int(&self) -> Option<i64>
        ensures exact { result ≡ held_of int_of (item_of self.now) }
        ensures int { IfSome result (λ n. item_of self.now ≡ held (flat_value (Flat.Int n))) }
    {
        match self {
            Operand::Held(v) => v.int(),
            Operand::Named { .. } => None,
        }
    }

    /// Puts an int or a bool in the operand's place.
    #[inline(always)]
    fn put_flat(&mut self, v: Flat)
        ensures { item_of self.new ≡ held (flat_value v) }
    {
        match self {
            Operand::Held(place) => place.put_flat(v),
            Operand::Named { .. } => let_go(replace(self, Operand::Held(Datum::of_flat(v)))),
        }
    }
}

impl Operand {
    /// The int or bool at a place of a tuple, where there is one and the tuple is of the schema.
    #[inline]
    fn flat_field(&self, schema: &Schema, i: usize) -> Option<Flat>
        ensures held { IfSome result (λ f. item_of self.now ≡ held (held_in (item_of self.now))) }
        ensures given { IfSome result (IsGiven (Op.Field schema.now i) (held_in (item_of self.now) ∷ [])) }
    {
        match self {
            Operand::Held(v) => v.flat_field(schema, i),
            Operand::Named { .. } => None,
        }
    }
}

impl Operands {
    /// The newest operand, where it is an int.
    #[inline]
    #[tactic(auto, using(crate::proofs::Truths::newest_ones))]
    pub fn newest_int(&self) -> Option<i64>
        ensures exact { result ≡ newest_of int_of self.now.items }
        ensures int { IfSome result (λ n. self.now.items ≡ held (flat_value (Flat.Int n)) ∷ drop 1 self.now.items) }
    {
        match self.newest(0) {
            None => None,
            Some(operand) => operand.int(),
        }
    }

    /// The two newest operands, the newest one last, where both are ints.
    #[inline]
    pub fn newest_ints(&self) -> Option<(i64, i64)>
        ensures items { IfSome result (λ p. self.now.items ≡ held (flat_value (Flat.Int p.1)) ∷ held (flat_value (Flat.Int p.0)) ∷ drop 2 self.now.items) }
        ensures count { IfSome result (λ p. 2 ≤ length self.now.items) }
    {
        match (self.newest(1), self.newest(0)) {
            (Some(Operand::Held(Datum::Int(first))), Some(Operand::Held(Datum::Int(second)))) => {
                Some((*first, *second))
            }
            _ => None,
        }
    }

    /// The newest operand, where it is an int or a bool.
    #[inline]
    #[tactic(auto, using(crate::proofs::Truths::newest_ones))]
    pub fn newest_flat(&self) -> Option<Flat>
        ensures exact { result ≡ newest_of flat_of self.now.items }
        ensures flat { IfSome result (λ f. self.now.items ≡ held (flat_value f) ∷ drop 1 self.now.items) }
    {
        match self.newest(0) {
            None => None,
            Some(operand) => operand.flat(),
        }
    }

    /// The newest operand, where it is a bool.
    #[inline]
    #[tactic(auto, using(crate::proofs::Truths::truths))]
    pub fn newest_bool(&self) -> Option<bool>
        ensures exact { result ≡ newest_of as_bool self.now.items }
        ensures items { IfSome result (λ b. self.now.items ≡ held (bool_value b) ∷ drop 1 self.now.items) }
    {
        match self.newest(0) {
            None => None,
            Some(operand) => operand.bool_of(),
        }
    }

    /// The int or bool at a place of the newest operand, where there is one and that is a tuple of the
    /// schema.
    #[inline]
    pub fn newest_field(&self, schema: &Schema, i: usize) -> Option<Flat>
        ensures items { IfSome result (λ f. self.now.items ≡ held (newest_in self.now.items) ∷ drop 1 self.now.items) }
        ensures given { IfSome result (IsGiven (Op.Field schema.now i) (newest_in self.now.items ∷ [])) }
    {
        match self.newest(0) {
            None => None,
            Some(operand) => operand.flat_field(schema, i),
        }
    }

    /// Whether the newest operand is one of these rows, where it is a tuple.
    #[inline]
    pub fn newest_is_in(&self, rows: &RowSet) -> Option<bool>
        ensures items { IfSome result (λ b. self.now.items ≡ held (newest_in self.now.items) ∷ drop 1 self.now.items) }
        ensures given { IfSome result (λ b. IsGiven Op.In (newest_in self.now.items ∷ table rows.now ∷ []) (Flat.Bool b)) }
    {
        match self.newest(0) {
            Some(Operand::Held(Datum::Tuple(row))) => Some(rows.has(row)),
            _ => None,
        }
    }

    /// The two newest operands, the newest one last, where both are ints or bools.
    #[inline]
    pub fn newest_two(&self) -> Option<(Flat, Flat)>
        ensures items { IfSome result (λ p. self.now.items ≡ held (flat_value p.1) ∷ held (flat_value p.0) ∷ drop 2 self.now.items) }
        ensures count { IfSome result (λ p. 2 ≤ length self.now.items) }
    {
        match (self.newest(1), self.newest(0)) {
            (Some(first), Some(second)) => both(first.flat(), second.flat()),
            _ => None,
        }
    }

    /// Puts an int or a bool upon the others, if its place is there.
    #[inline]
    #[tactic(auto, using(hera_fits::proofs::Stacks::newest_push))]
    pub fn push_flat(&mut self, v: Flat) -> bool
        ensures pushed { result ≡ true → self.new.items ≡ held (flat_value v) ∷ self.old.items }
        ensures full { result ≡ false → self.new ≡ self.old }
        ensures spared { 0 < self.old.spare → result ≡ true }
    {
        if self.items.len() < self.items.capacity() {
            self.items.push_reserved(Operand::Held(Datum::of_flat(v)));
            true
        } else {
            false
        }
    }

    /// Puts a tuple upon the others, if its place is there. Its row goes into the idle buffer, or into a new
    /// one. Where memory for it is refused all is as before.
    #[inline]
    #[tactic(auto, using(hera_fits::proofs::Stacks::newest_push))]
    pub fn push_tuple(&mut self, row: &[u8]) -> bool
        ensures pushed { result ≡ true → self.new.items ≡ held (tuple row.now) ∷ self.old.items }
        ensures full { result ≡ false → self.new ≡ self.old }
    {
        if self.items.len() >= self.items.capacity() {
            return false;
        }
        let alloc = *self.items.allocator();
        match filled(alloc, self.idle.take(), row) {
            Err(_) => false,
            Ok(buffer) => {
                self.items
                    .push_reserved(Operand::Held(Datum::Tuple(buffer)));
                true
            }
        }
    }

    /// Takes the newest operand off and drops it, if there is one. Its place stays.
    #[inline(always)]
    pub fn drop_newest(&mut self)
        ensures items { self.new.items ≡ drop 1 self.old.items }
        ensures within { reach self.new.items ≤ reach self.old.items }
        ensures spare { 1 ≤ length self.old.items → 1 ≤ self.new.spare }
    {
        if let Some(operand) = self.pop() {
            let_go(operand);
        }
    }

    /// Puts an int or a bool in the place of the newest operand. Where that was a tuple its buffer is idle.
    #[inline]
    #[tactic(auto, using(hera_fits::proofs::Stacks::newest_push))]
    pub fn replace_tuple(&mut self, v: Flat)
        requires { 1 ≤ length self.old.items }
        ensures items { self.new.items ≡ held (flat_value v) ∷ drop 1 self.old.items }
        ensures within { reach self.new.items ≤ reach self.old.items }
    {
        if let Some(operand) = self.items.pop() {
            self.items.push_reserved(Operand::Held(Datum::of_flat(v)));
            let_go(replace(&mut self.idle, into_buffer(operand)));
        }
    }

    /// Puts an int or a bool in the place of the newest operand.
    #[inline(always)]
    #[tactic(auto, using(hera_reads::proofs::Tops::lasts))]
    pub fn replace_newest(&mut self, v: Flat)
        requires { 1 ≤ length self.old.items }
        ensures items { self.new.items ≡ held (flat_value v) ∷ drop 1 self.old.items }
        ensures within { reach self.new.items ≤ reach self.old.items }
    {
        let last = self.items.len() - 1;
        self.items[last].put_flat(v);
    }

    /// Puts an int or a bool in the place of the two newest operands.
    #[inline(always)]
    pub fn replace_two(&mut self, v: Flat)
        requires { 2 ≤ length self.old.items }
        ensures items { self.new.items ≡ held (flat_value v) ∷ drop 2 self.old.items }
        ensures within { reach self.new.items ≤ reach self.old.items }
    {
        self.drop_newest();
        self.replace_newest(v);
    }
}

/// The row in the buffer, or in a new one where there is none.
fn filled(alloc: Global, idle: Option<Box<Vec<u8>>>, row: &[u8]) -> Result<Box<Vec<u8>>, AllocError>
    ensures { IfOk result (λ buffer. buffer.value.items ≡ row.now) }
{
    match idle {
        Some(mut buffer) => {
            refill(&mut buffer, row)?;
            Ok(buffer)
        }
        None => new_buffer(alloc, row),
    }
}

/// A new buffer with the row.
#[inline(never)]
fn new_buffer(alloc: Global, row: &[u8]) -> Result<Box<Vec<u8>>, AllocError>
    ensures { IfOk result (λ buffer. buffer.value.items ≡ row.now) }
{
    Ok(Box::new(alloc, Vec::from_slice(alloc, row)?)?)
}

/// The buffer of a tuple that is dropped.
fn into_buffer(operand: Operand) -> Option<Box<Vec<u8>>> {
    match operand {
        Operand::Held(Datum::Tuple(buffer)) => Some(buffer),
        other => {
            let_go(other);
            None
        }
    }
}

/// Both, where both are there.
#[inline]
fn both(first: Option<Flat>, second: Option<Flat>) -> Option<(Flat, Flat)>
    ensures { IfSome result (λ p. (first ≡ Some p.0) × (second ≡ Some p.1)) }
{
    match (first, second) {
        (Some(first), Some(second)) => Some((first, second)),
        _ => None,
    }
}

//! Values in little place.
ghost use Rattle.std.specs.Prelude.{◌≡◌, ◌≤◌, true, false, length, IfOk, IfSome, IsOk, OnOk};
ghost use Rattle.std.specs.Option.{is_some, option_copied};
ghost use Rattle.std.specs.Vec.{vec_capacity};
ghost use Rattle.hera_meaning.specs.Expressions.{const_value};
ghost use Rattle.hera_meaning.specs.Values.{tuple, table};
ghost use Rattle.hera_code.specs.Machine.{as_bool, as_tuple, as_table, as_delta};
ghost use Rattle.delta_atoms.specs.Plain.{value_of};
ghost use Rattle.hera_values.specs.Little.{plain_of, shared_value, is_small};

use delta_atoms::{Delta, Value};
use hera_meaning::{Const, Scalar, Text};
use hera_rows::{RowBuf, RowSet};
use std::alloc::{AllocError, Global};
use std::mem::replace;
use std::rc::Rc;

/// A value. What is larger than an int stands on the heap.
#[derive(Drop)]
pub enum Datum {
    /// An int.
    Int(i64),
    /// A bool.
    Bool(bool),
    /// A tuple's row, in a buffer that another row can be put into.
    Tuple(Box<Vec<u8>>),
    /// A text, a relation or a delta. Other places may have the very same one: none of them changes it.
    Large(Rc<Shared>),
}

/// What stands on the heap, and several places may have.
#[derive(Drop)]
pub enum Shared {
    /// A text.
    Text(Text),
    /// The rows of a relation.
    Rel(RowSet),
    /// A delta.
    Delta(Delta),
}

impl Datum {
    /// A value in little place. An int or a bool takes no memory.
    pub fn new(alloc: Global, v: Value) -> Result<Datum, AllocError>
        ensures plain { IfOk result (λ d. plain_of d ≡ value_of v) }
        ensures small { is_small (value_of v) ≡ true → IsOk result }
    {
        match v {
            Value::Scalar(Scalar::Int(n)) => Ok(Datum::Int(n)),
            Value::Scalar(Scalar::Bool(b)) => Ok(Datum::Bool(b)),
            Value::Scalar(Scalar::Text(text)) => large(alloc, Shared::Text(text)),
            Value::Row(row) => Ok(Datum::Tuple(Box::new(alloc, row.into_vec())?)),
            Value::Rel(rows) => large(alloc, Shared::Rel(rows)),
            Value::Delta(delta) => large(alloc, Shared::Delta(delta)),
        }
    }

    /// The value. It takes no memory, unless it is on the heap and another place has it too: then it is copied.
    pub fn into_value(self) -> Result<Value, AllocError>
        ensures { IfOk result (λ v. value_of v ≡ plain_of self) }
    {
        match self {
            Datum::Int(n) => Ok(Value::Scalar(Scalar::Int(n))),
            Datum::Bool(b) => Ok(Value::Scalar(Scalar::Bool(b))),
            Datum::Tuple(row) => Ok(Value::Row(RowBuf::from_vec(Box::into_inner(row)))),
            Datum::Large(v) => own(v),
        }
    }

    /// The same value once more. Of what is on the heap, a tuple apart, nothing is copied.
    pub fn again(&self, alloc: Global) -> Result<Datum, AllocError>
        ensures { IfOk result (λ d. plain_of d ≡ plain_of self.now) }
    {
        match self {
            Datum::Int(n) => Ok(Datum::Int(*n)),
            Datum::Bool(b) => Ok(Datum::Bool(*b)),
            Datum::Tuple(row) => Datum::of_row(alloc, row),
            Datum::Large(v) => Ok(Datum::Large(v.clone()?)),
        }
    }

    /// The bool, where the value is one.
    #[inline]
    #[tactic(auto, using(crate::proofs::Larges::larges))]
    pub fn bool_of(&self) -> Option<bool>
        ensures { result ≡ as_bool (plain_of self.now) }
    {
        match self {
            Datum::Int(_) => None,
            Datum::Bool(b) => Some(*b),
            Datum::Tuple(_) => None,
            Datum::Large(_) => None,
        }
    }

    /// The rows, where the value is a relation.
    pub fn rows(&self) -> Option<&RowSet>
        ensures exact { option_copied result ≡ as_table (plain_of self.now) }
        ensures rows { IfSome result (λ rows. plain_of self.now ≡ table rows.now) }
    {
        match self {
            Datum::Int(_) => None,
            Datum::Bool(_) => None,
            Datum::Tuple(_) => None,
            Datum::Large(v) => rows_of(v),
        }
    }

    /// Whether the value is a delta.
    pub fn is_delta(&self) -> bool
        ensures { result ≡ is_some (as_delta (plain_of self.now)) }
    {
        match self {
            Datum::Int(_) => false,
            Datum::Bool(_) => false,
            Datum::Tuple(_) => false,
            Datum::Large(v) => is_delta(v),
        }
    }

    /// The delta, where the value is one.
    pub fn delta(&self) -> Option<&Delta>
        ensures { option_copied result ≡ as_delta (plain_of self.now) }
    {
        match self {
            Datum::Int(_) => None,
            Datum::Bool(_) => None,
            Datum::Tuple(_) => None,
            Datum::Large(v) => delta_of(v),
        }
    }

    /// A tuple, with a copy of its row.
    fn of_row(alloc: Global, row: &[u8]) -> Result<Datum, AllocError>
        ensures { IfOk result (λ d. plain_of d ≡ tuple row.now) }
    {
        Ok(Datum::Tuple(Box::new(alloc, Vec::from_slice(alloc, row)?)?))
    }

    /// Puts a tuple in the value's place. Where that is one too, its buffer takes the row.
    pub(crate) fn put_tuple(&mut self, alloc: Global, row: &[u8]) -> Result<(), AllocError>
        ensures { OnOk result (plain_of self.new ≡ tuple row.now) }
    {
        match self {
            Datum::Tuple(buffer) => refill(buffer, row),
            _ => {
                let_go(replace(self, Datum::of_row(alloc, row)?));
                Ok(())
            }
        }
    }

    /// Puts a tuple in the place of another one whose buffer has the room. It takes no memory.
    pub fn fit_tuple(&mut self, row: &[u8]) -> bool
        ensures done { result ≡ true → plain_of self.new ≡ tuple row.now }
        ensures kept { result ≡ false → plain_of self.new ≡ plain_of self.old }
    {
        match self {
            Datum::Tuple(buffer) => fit(buffer, row),
            _ => false,
        }
    }

    /// The row, where the value is a tuple.
    #[inline]
    #[tactic(auto, using(crate::proofs::Larges::larges))]
    pub fn tuple(&self) -> Option<&[u8]>
        ensures exact { option_copied result ≡ as_tuple (plain_of self.now) }
        ensures row { IfSome result (λ row. plain_of self.now ≡ tuple row.now) }
    {
        match self {
            Datum::Int(_) => None,
            Datum::Bool(_) => None,
            Datum::Tuple(row) => Some(row),
            Datum::Large(_) => None,
        }
    }
}

/// The delta, where what is shared is one.
fn delta_of(v: &Shared) -> Option<&Delta>
    ensures { option_copied result ≡ as_delta (shared_value v.now) }
{
    match v {
        Shared::Delta(delta) => Some(delta),
        Shared::Text(_) => None,
        Shared::Rel(_) => None,
    }
}

/// Whether what is shared is a delta.
fn is_delta(v: &Shared) -> bool
    ensures { result ≡ is_some (as_delta (shared_value v.now)) }
{
    match v {
        Shared::Delta(_) => true,
        Shared::Text(_) => false,
        Shared::Rel(_) => false,
    }
}

/// The value: the very one where no other place has it, and else a copy.
fn own(shared: Rc<Shared>) -> Result<Value, AllocError>
    ensures { IfOk result (λ v. value_of v ≡ shared_value shared.value) }
{
    match Rc::try_unwrap(shared) {
        Ok(v) => Ok(unshared(v)),
        Err(shared) => copied(&shared),
    }
}

/// What was shared, as a value.
fn unshared(v: Shared) -> Value
    ensures { value_of result ≡ shared_value v }
{
    match v {
        Shared::Text(text) => Value::Scalar(Scalar::Text(text)),
        Shared::Rel(rows) => Value::Rel(rows),
        Shared::Delta(delta) => Value::Delta(delta),
    }
}

/// A copy of what is shared, as a value.
fn copied(v: &Shared) -> Result<Value, AllocError>
    ensures { IfOk result (λ copy. value_of copy ≡ shared_value v.now) }
{
    match v {
        Shared::Text(text) => Ok(Value::Scalar(Scalar::Text(text.copy()?))),
        Shared::Rel(rows) => Ok(Value::Rel(rows.copy()?)),
        Shared::Delta(delta) => Ok(Value::Delta(delta.copy()?)),
    }
}

/// Puts other bytes in the place of those in the buffer.
pub fn refill(buffer: &mut Vec<u8>, bytes: &[u8]) -> Result<(), AllocError>
    ensures items { OnOk result (buffer.new.items ≡ bytes.now) }
    ensures fits { length bytes.now ≤ vec_capacity buffer.old → IsOk result }
{
    buffer.clear();
    buffer.extend_from_slice(bytes)
}

/// Puts other bytes in the place of those in the buffer, if that has the room. It takes no memory.
fn fit(buffer: &mut Vec<u8>, bytes: &[u8]) -> bool
    ensures done { result ≡ true → buffer.new.items ≡ bytes.now }
    ensures kept { result ≡ false → buffer.new.items ≡ buffer.old.items }
{
    if bytes.len() > buffer.capacity() {
        return false;
    }
    refill(buffer, bytes).is_ok()
}

/// A value that stands on the heap.
fn large(alloc: Global, v: Shared) -> Result<Datum, AllocError>
    ensures { IfOk result (λ d. plain_of d ≡ shared_value v) }
{
    Ok(Datum::Large(Rc::new(alloc, v)?))
}

/// The rows, where what is shared is a relation.
fn rows_of(v: &Shared) -> Option<&RowSet>
    ensures exact { option_copied result ≡ as_table (shared_value v.now) }
    ensures rows { IfSome result (λ rows. shared_value v.now ≡ table rows.now) }
{
    match v {
        Shared::Rel(rows) => Some(rows),
        Shared::Text(_) => None,
        Shared::Delta(_) => None,
    }
}

/// The row, where the value is a tuple.
pub fn into_row(v: Datum) -> Result<Option<RowBuf>, AllocError>
    ensures { IfOk result (λ r. r ≡ as_tuple (plain_of v)) }
{
    match v.into_value()? {
        Value::Row(row) => Ok(Some(row)),
        Value::Scalar(_) => Ok(None),
        Value::Rel(_) => Ok(None),
        Value::Delta(_) => Ok(None),
    }
}

/// The rows, where the value is a relation. They are copied where another place has them too.
pub fn into_rel(v: Datum) -> Result<Option<RowSet>, AllocError>
    ensures { IfOk result (λ r. r ≡ as_table (plain_of v)) }
{
    match v.into_value()? {
        Value::Rel(rows) => Ok(Some(rows)),
        Value::Scalar(_) => Ok(None),
        Value::Row(_) => Ok(None),
        Value::Delta(_) => Ok(None),
    }
}

/// The delta, where the value is one. It is copied where another place has it too.
pub fn into_delta(v: Datum) -> Result<Option<Delta>, AllocError>
    ensures { IfOk result (λ r. r ≡ as_delta (plain_of v)) }
{
    match v.into_value()? {
        Value::Delta(delta) => Ok(Some(delta)),
        Value::Scalar(_) => Ok(None),
        Value::Row(_) => Ok(None),
        Value::Rel(_) => Ok(None),
    }
}

/// The value of a constant.
pub fn const_of(alloc: Global, constant: &Const) -> Result<Datum, AllocError>
    ensures { IfOk result (λ d. plain_of d ≡ const_value constant.now) }
{
    match constant {
        Const::Scalar(Scalar::Int(n)) => Ok(Datum::Int(*n)),
        Const::Scalar(Scalar::Bool(b)) => Ok(Datum::Bool(*b)),
        Const::Scalar(Scalar::Text(text)) => large(alloc, Shared::Text(text.copy()?)),
        Const::EmptyDelta => large(alloc, Shared::Delta(Delta::empty(alloc))),
        Const::FailDelta => large(alloc, Shared::Delta(Delta::fail(alloc))),
    }
}

/// Lets an item go. It is a function so that the proofs of its callers do not go through the item's parts.
pub fn let_go<T: Drop>(_item: T) {}

//! Instructions, and the code of a program.

ghost use Rattle.std.specs.Prelude.{◌≡◌, ◌<◌, ◌++◌, ◌∷◌, [], Some, IfSome, IfOk, OnOk, OnErr, IsTrue, length, slice_get};
ghost use Rattle.std.specs.Option.{option_copied};
ghost use Rattle.hera_code.specs.Numbered.{numbered, AreKinds, HasMore};

use hera_meaning::{Const, Kind, Op, RelId, Scalar, Schema, Shape, Text};
use std::alloc::AllocError;
use std::marker::Model;

/// One instruction. An address is the place of an instruction, counted from 0; `at` is the byte offset
/// that a trap reports.
#[derive(Drop)]
pub enum Instr {
    /// Pushes a constant.
    Push(Const),
    /// Pushes a slot.
    Load(u32),
    /// Pops into a slot.
    Store(u32),
    /// Pushes the value of a relation.
    Rel(RelId),
    /// Pops the operands of an operation and pushes what it gives, or traps (`at`).
    Prim(Op, u32),
    /// Pops the argument of a host function and pushes its answer.
    Host(u32),
    /// Goes to an address.
    Jump(u32),
    /// Pops a bool, and goes to an address where it is false.
    Unless(u32),
    /// Spends a turn and goes to an address.
    Back(u32),
    /// Pops a delta and pushes it as a layer; traps on `fail` (`at`).
    Enter(u32),
    /// Drops the newest layer.
    Leave,
    /// Pops a relation and opens a walk over it.
    Walk,
    /// Stores the walk's next tuple in a slot, or goes to an address where none is left.
    Next(u32, u32),
    /// Pops a bool, and where it is true adds the walk's current tuple to the gathered ones.
    Keep,
    /// Pops a tuple and adds it to the gathered ones.
    Gather,
    /// Closes the walk and pushes the gathered tuples as a relation.
    Yield,
    /// Closes the walk.
    Drop,
    /// Spends a turn, pops the parameters of a body into a new frame, and goes to its start.
    Call(u32),
    /// Drops the frame and goes on behind the call.
    Ret,
    /// As `Ret`, and takes the newest operand along.
    RetVal,
    /// Pops a value and prints it.
    Print(Shape),
    /// Pops a delta, and the pending delta becomes its smash with it; traps on `fail` (`at`).
    Apply(u32),
    /// Stores the state with the pending delta, prints the commit's line, and empties the pending delta.
    Commit,
    /// Empties the pending delta.
    Rollback,
    /// Pops a bool, and traps where it is false (`at`).
    Assert(u32),
    /// Ends the run.
    Halt,
}

/// What a call needs to know of a body.
#[derive(Clone, Copy, PartialEq, Eq, Debug)]
pub struct BodyInfo {
    /// The address at which it begins.
    pub at: u32,
    /// How many parameters it has.
    pub params: u32,
    /// How many slots it has, the parameters' included.
    pub slots: u32,
    /// Whether it is a func.
    pub func: bool,
}

/// How many instructions stand in a row of their own, before those behind them are kept by number.
const ROW_LIMIT: usize = 131_072;

/// Instructions, by address. Those of the row come first. Of each one behind them the number of its kind is kept. Kinds
/// without an operand are kept once, and so are a text's push and a shape's print while none of the same beginning comes
/// between.
#[derive(Drop)]
pub struct Instrs {
    row: Vec<Instr>,
    kinds: Vec<Instr>,
    numbers: Vec<u32>,
    count: usize,
    known: Vec<Option<u32>>,
}

impl Model for Instrs {
    ghost use Rattle.std.specs.Prelude.{◌≡◌, List, ◌++◌, ◌+◌, length};
    ghost use Rattle.hera_code.specs.declared.instrs.Instr.{Instr};

    ghost Value = { List Instr };

    ghost use Rattle.hera_code.specs.Numbered.{numbered, AreKinds};

    ghost view = { λ s. s.row.items ++ numbered s.kinds.items s.numbers.items };

    ghost invariant = { λ s. AreKinds s.kinds.items s.numbers.items × (s.count ≡ length s.row.items + length s.numbers.items) };
}

impl Instrs {
    /// These instructions, all in the row. It takes no memory.
    pub fn new(items: Vec<Instr>) -> Instrs
        ensures { result ≡ items.items }
    {
        let alloc = *items.allocator();
        let count = items.len();
        Instrs {
            row: items,
            kinds: Vec::new(alloc),
            numbers: Vec::new(alloc),
            count,
            known: Vec::new(alloc),
        }
    }

    /// The number of instructions.
    pub fn len(&self) -> usize
        ensures { result ≡ length self.now }
    {
        self.count
    }

    /// The instruction at an address.
    #[inline(always)]
    pub fn get(&self, at: usize) -> Option<&Instr>
        ensures { option_copied result ≡ slice_get self.now at }
    {
        if at < self.row.len() {
            Some(&self.row[at])
        } else {
            behind(&self.kinds, &self.numbers, at - self.row.len())
        }
    }

    /// The instruction at an address, if it stands in the row. Those of code that was generated do, and so do the first
    /// 131,072 of any other. It is quicker than `get`.
    #[inline]
    #[tactic(auto, using(crate::proofs::Kept::near_row))]
    pub fn near(&self, at: usize) -> Option<&Instr>
        ensures { IfSome result (λ instr. slice_get self.now at ≡ Some instr.now) }
    {
        self.row.get(at)
    }

    /// The instruction at an address of the code.
    pub fn at(&self, at: usize) -> &Instr
        requires { at < length self.now }
        ensures { slice_get self.now at ≡ Some result.now }
    {
        match self.get(at) {
            Some(instr) => instr,
            None => unreachable!(),
        }
    }

    /// Puts an instruction behind the others. From the 131,073rd one on, an instruction whose kind is found among those
    /// kept takes four bytes.
    #[tactic(auto, using(crate::proofs::Kept::row_more, crate::proofs::Kept::view_more))]
    pub fn push(&mut self, instr: Instr) -> Result<(), AllocError>
        ensures { OnOk result (self.new ≡ self.old ++ instr ∷ []) }
    {
        if self.numbers.is_empty() && self.row.len() < ROW_LIMIT {
            put(&mut self.row, instr)?;
            self.count = self.row.len() + self.numbers.len();
            return Ok(());
        }
        let number = number_of(&mut self.kinds, &mut self.known, instr)?;
        put(&mut self.numbers, number)?;
        self.count = self.row.len() + self.numbers.len();
        Ok(())
    }
}

/// The instruction whose kind's number stands at a place.
#[inline(never)]
fn behind<'a>(kinds: &'a [Instr], numbers: &[u32], place: usize) -> Option<&'a Instr>
    requires { AreKinds kinds.now numbers.now }
    ensures { option_copied result ≡ slice_get (numbered kinds.now numbers.now) place }
{
    match numbers.get(place) {
        Some(number) => kinds.get(*number as usize),
        None => None,
    }
}

/// Puts an item behind the others.
fn put<T: Drop>(items: &mut Vec<T>, item: T) -> Result<(), AllocError>
    ensures put { OnOk result (items.new.items ≡ items.old.items ++ item ∷ []) }
    ensures same { OnErr result (items.new.items ≡ items.old.items) }
{
    items.push(item)?;
    Ok(())
}

/// How many places a byte takes.
const BYTE_PLACES: usize = 256;
/// How many places texts take, by their first two bytes.
const TEXT_PLACES: usize = BYTE_PLACES * BYTE_PLACES;
/// How many places the schemas of tuples take, and those of relations.
const SCHEMA_PLACES: usize = 3 * BYTE_PLACES;
/// The first of the places of texts.
const TEXT_PLACE: usize = 19;
/// The first of the places of the schemas of tuples.
const TUPLE_PLACE: usize = TEXT_PLACE + TEXT_PLACES;
/// The first of the places of the schemas of relations.
const ROWS_PLACE: usize = TUPLE_PLACE + SCHEMA_PLACES;
/// The first of the places of the instructions that push a relation's value.
const REL_PLACE: usize = ROWS_PLACE + SCHEMA_PLACES;

/// Where the number of an instruction's kind is looked for. At each place stands the number of the kind that was new
/// there last. Other instructions have operands that differ from one to the next.
fn place_of(instr: &Instr) -> Option<usize> {
    match instr {
        Instr::Leave => Some(0),
        Instr::Walk => Some(1),
        Instr::Keep => Some(2),
        Instr::Gather => Some(3),
        Instr::Yield => Some(4),
        Instr::Drop => Some(5),
        Instr::Ret => Some(6),
        Instr::RetVal => Some(7),
        Instr::Commit => Some(8),
        Instr::Rollback => Some(9),
        Instr::Halt => Some(10),
        Instr::Push(constant) => place_of_const(constant),
        Instr::Print(shape) => Some(place_of_shape(shape)),
        Instr::Rel(rel) => Some(REL_PLACE + usize::from(rel.0)),
        _ => None,
    }
}

fn place_of_const(constant: &Const) -> Option<usize> {
    match constant {
        Const::EmptyDelta => Some(11),
        Const::FailDelta => Some(12),
        Const::Scalar(Scalar::Bool(false)) => Some(13),
        Const::Scalar(Scalar::Bool(true)) => Some(14),
        Const::Scalar(Scalar::Text(text)) => Some(TEXT_PLACE + place_of_text(text.bytes())),
        Const::Scalar(Scalar::Int(_)) => None,
    }
}

fn place_of_shape(shape: &Shape) -> usize {
    match shape {
        Shape::Int => 15,
        Shape::Bool => 16,
        Shape::Text => 17,
        Shape::Delta => 18,
        Shape::Tuple(schema) => TUPLE_PLACE + place_of_schema(schema),
        Shape::Rel(schema) => ROWS_PLACE + place_of_schema(schema),
    }
}

/// By the first two bytes.
fn place_of_text(bytes: &[u8]) -> usize
    ensures { result < 65536 }
{
    byte_at(bytes, 0) * BYTE_PLACES + byte_at(bytes, 1)
}

/// By the last attribute's kind and the first byte of its name.
fn place_of_schema(schema: &Schema) -> usize
    ensures { result < 768 }
{
    let attr = schema.attr(schema.len() - 1);
    let byte = byte_at(attr.name.bytes(), 0);
    match attr.kind {
        Kind::Int => byte,
        Kind::Bool => BYTE_PLACES + byte,
        Kind::Text => 2 * BYTE_PLACES + byte,
    }
}

/// The byte at a place, or zero where there is none.
fn byte_at(bytes: &[u8], at: usize) -> usize
    ensures { result < 256 }
{
    bytes.get(at).map_or(0, |byte| usize::from(*byte))
}

/// Whether both are the same constant, where neither is an int.
fn same_const(a: &Const, b: &Const) -> bool
    ensures { IsTrue result → a.now ≡ b.now }
{
    match a {
        Const::EmptyDelta => matches!(b, Const::EmptyDelta),
        Const::FailDelta => matches!(b, Const::FailDelta),
        Const::Scalar(Scalar::Bool(false)) => matches!(b, Const::Scalar(Scalar::Bool(false))),
        Const::Scalar(Scalar::Bool(true)) => matches!(b, Const::Scalar(Scalar::Bool(true))),
        Const::Scalar(Scalar::Text(text)) => same_text(text, b),
        Const::Scalar(Scalar::Int(_)) => false,
    }
}

fn same_text(text: &Text, b: &Const) -> bool
    ensures { IsTrue result → Const.Scalar (Scalar.Text text.now) ≡ b.now }
{
    match b {
        Const::Scalar(Scalar::Text(other)) => text.bytes() == other.bytes(),
        _ => false,
    }
}

/// Whether both are the same shape.
fn same_shape(a: &Shape, b: &Shape) -> bool
    ensures { IsTrue result → a.now ≡ b.now }
{
    match a {
        Shape::Int => matches!(b, Shape::Int),
        Shape::Bool => matches!(b, Shape::Bool),
        Shape::Text => matches!(b, Shape::Text),
        Shape::Delta => matches!(b, Shape::Delta),
        Shape::Tuple(schema) => matches!(b, Shape::Tuple(other) if schema.same(other)),
        Shape::Rel(schema) => matches!(b, Shape::Rel(other) if schema.same(other)),
    }
}

fn same_push(constant: &Const, b: &Instr) -> bool
    ensures { IsTrue result → Instr.Push constant.now ≡ b.now }
{
    match b {
        Instr::Push(other) => same_const(constant, other),
        _ => false,
    }
}

fn same_print(shape: &Shape, b: &Instr) -> bool
    ensures { IsTrue result → Instr.Print shape.now ≡ b.now }
{
    match b {
        Instr::Print(other) => same_shape(shape, other),
        _ => false,
    }
}

fn same_rel(rel: RelId, b: &Instr) -> bool
    ensures { IsTrue result → Instr.Rel rel ≡ b.now }
{
    match b {
        Instr::Rel(other) => rel == *other,
        _ => false,
    }
}

/// Whether both are the same instruction, where their kinds may be kept once.
fn is_same(a: &Instr, b: &Instr) -> bool
    ensures { IsTrue result → a.now ≡ b.now }
{
    match a {
        Instr::Leave => matches!(b, Instr::Leave),
        Instr::Walk => matches!(b, Instr::Walk),
        Instr::Keep => matches!(b, Instr::Keep),
        Instr::Gather => matches!(b, Instr::Gather),
        Instr::Yield => matches!(b, Instr::Yield),
        Instr::Drop => matches!(b, Instr::Drop),
        Instr::Ret => matches!(b, Instr::Ret),
        Instr::RetVal => matches!(b, Instr::RetVal),
        Instr::Commit => matches!(b, Instr::Commit),
        Instr::Rollback => matches!(b, Instr::Rollback),
        Instr::Halt => matches!(b, Instr::Halt),
        Instr::Push(constant) => same_push(constant, b),
        Instr::Print(shape) => same_print(shape, b),
        Instr::Rel(rel) => same_rel(*rel, b),
        _ => false,
    }
}

/// The number of a kind that is this instruction, where it is known.
fn known_number(kinds: &[Instr], known: &[Option<u32>], instr: &Instr) -> Option<u32>
    ensures { IfSome result (λ number. slice_get kinds.now number ≡ Some instr.now) }
{
    let place = place_of(instr)?;
    let Some(Some(number)) = known.get(place) else {
        return None;
    };
    let kind = kinds.get(*number as usize)?;
    if is_same(kind, instr) {
        Some(*number)
    } else {
        None
    }
}

/// Takes down the number of a kind at its place.
fn note(known: &mut Vec<Option<u32>>, place: Option<usize>, number: u32) -> Result<(), AllocError> {
    let Some(place) = place else {
        return Ok(());
    };
    for _ in known.len()..=place {
        known.push(None)?;
    }
    if let Some(at) = known.get_mut(place) {
        *at = Some(number);
    }
    Ok(())
}

/// The number behind so many kinds.
fn next_number(count: usize) -> Result<u32, AllocError>
    ensures { IfOk result (λ number. number ≡ count) }
{
    u32::try_from(count).map_err(|_| AllocError)
}

/// The number of a kind that is this instruction. The other kinds keep their numbers.
fn number_of(
    kinds: &mut Vec<Instr>,
    known: &mut Vec<Option<u32>>,
    instr: Instr,
) -> Result<u32, AllocError>
    ensures grows { HasMore kinds.old.items kinds.new.items }
    ensures number { IfOk result (λ number. slice_get kinds.new.items number ≡ Some instr) }
{
    match known_number(kinds, known, &instr) {
        Some(number) => {
            drop(instr);
            Ok(number)
        }
        None => new_kind(kinds, known, instr),
    }
}

/// The number of a kind that is new.
fn new_kind(
    kinds: &mut Vec<Instr>,
    known: &mut Vec<Option<u32>>,
    instr: Instr,
) -> Result<u32, AllocError>
    ensures grows { HasMore kinds.old.items kinds.new.items }
    ensures number { IfOk result (λ number. slice_get kinds.new.items number ≡ Some instr) }
{
    let place = place_of(&instr);
    let count = kinds.len();
    put(kinds, instr)?;
    let number = next_number(count)?;
    note(known, place, number)?;
    Ok(number)
}

/// Bodies, by number: main, then the funcs and the procs.
#[derive(Drop)]
pub struct Bodies {
    items: Vec<BodyInfo>,
}

impl Model for Bodies {
    ghost use Rattle.std.specs.Prelude.{List};
    ghost use Rattle.hera_code.specs.declared.instrs.BodyInfo.{BodyInfo};

    ghost Value = { List BodyInfo };

    ghost view = { λ s. s.items.items };
}

impl Bodies {
    /// These bodies.
    pub fn new(items: Vec<BodyInfo>) -> Bodies
        ensures { result ≡ items.items }
    {
        Bodies { items }
    }

    /// The number of bodies.
    pub fn len(&self) -> usize
        ensures { result ≡ length self.now }
    {
        self.items.len()
    }

    /// The body of a number.
    pub fn get(&self, k: usize) -> Option<BodyInfo>
        ensures { result ≡ slice_get self.now k }
    {
        self.items.get(k).copied()
    }

    /// All bodies.
    pub fn as_slice(&self) -> &[BodyInfo]
        ensures { result.now ≡ self.now }
    {
        &self.items
    }

    /// The bodies themselves.
    pub fn into_vec(self) -> Vec<BodyInfo>
        ensures { result.items ≡ self }
    {
        self.items
    }
}

/// The code of a program.
#[derive(Drop)]
pub struct Code {
    pub instrs: Instrs,
    pub bodies: Bodies,
}

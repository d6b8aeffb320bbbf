//! Whether a code file can be written of some code and notes: each name has an identifier's shape, and each place and each
//! length has four bytes.
ghost use Rattle.std.specs.Prelude.{IsTrue, IfSome};
ghost use Rattle.hera_code_file.specs.Fitting.{IsWord, Each, AggFits};
ghost use Rattle.hera_code_writer.specs.Writable.{AreNames, ShapeStands, OpStands, InstrStands, SlotStands};
ghost use Rattle.hera_packed.specs.Writing.{NoteStands};

use hera_code::{Instr, Instrs};
use hera_meaning::{Agg, Op, Schema, Shape};
use hera_row::has_names;
use hera_typed::{BodyNote, SlotNote};

/// Whether a number has four bytes.
fn is_word(n: usize) -> bool
    ensures { IsTrue result → IsWord n }
{
    n < 1 << 32
}

/// Whether a shape can be written.
fn shape_stands(shape: &Shape) -> bool
    ensures { IsTrue result → ShapeStands shape.now }
{
    match shape {
        Shape::Tuple(schema) => has_names(schema),
        Shape::Rel(schema) => has_names(schema),
        Shape::Int | Shape::Bool | Shape::Text | Shape::Delta => true,
    }
}

/// Whether a shape can be written, where there is one.
fn result_stands(shape: &Option<Shape>) -> bool
    ensures { IsTrue result → IfSome shape.now ShapeStands }
{
    match shape {
        Some(shape) => shape_stands(shape),
        None => true,
    }
}

/// Whether a schema can be written, where there is one.
fn gathered_stands(schema: &Option<Schema>) -> bool
    ensures { IsTrue result → IfSome schema.now AreNames }
{
    match schema {
        Some(schema) => has_names(schema),
        None => true,
    }
}

/// Whether places can be written.
fn places_stand(places: &[usize]) -> bool
    ensures { IsTrue result → Each IsWord places.now }
{
    if !is_word(places.len()) {
        return false;
    }
    for place in places {
        if !is_word(*place) {
            return false;
        }
    }
    true
}

/// Whether an aggregate can be written.
fn agg_stands(agg: Agg) -> bool
    ensures { IsTrue result → AggFits agg }
{
    match agg {
        Agg::Count => true,
        Agg::Sum(place) => is_word(place),
        Agg::Min(place) => is_word(place),
        Agg::Max(place) => is_word(place),
    }
}

/// Whether aggregates can be written.
fn aggs_stand(aggs: &[Agg]) -> bool
    ensures { IsTrue result → Each AggFits aggs.now }
{
    if !is_word(aggs.len()) {
        return false;
    }
    for agg in aggs {
        if !agg_stands(*agg) {
            return false;
        }
    }
    true
}

/// Whether a schema and the place of a field of it can be written.
fn field_stands(schema: &Schema, place: usize) -> bool
    ensures names { IsTrue result → AreNames schema.now }
    ensures place { IsTrue result → IsWord place }
{
    has_names(schema) && is_word(place)
}

/// Whether an operation can be written.
fn op_stands(op: &Op) -> bool
    ensures { IsTrue result → OpStands op.now }
{
    match op {
        Op::Field(schema, place) => field_stands(schema, *place),
        Op::Sum(schema, place) => field_stands(schema, *place),
        Op::Min(schema, place) => field_stands(schema, *place),
        Op::Max(schema, place) => field_stands(schema, *place),
        Op::MakeRow(schema) => has_names(schema),
        Op::Project(schema, places) => has_names(schema) && places_stand(places.items()),
        Op::Join(left, right) => has_names(left) && has_names(right),
        Op::Group(schema, by, aggs) => {
            has_names(schema) && places_stand(by.items()) && aggs_stand(aggs.items())
        }
        _ => true,
    }
}

/// Whether an instruction can be written.
fn instr_stands(instr: &Instr) -> bool
    ensures { IsTrue result → InstrStands instr.now }
{
    match instr {
        Instr::Prim(op, _) => op_stands(op),
        Instr::Print(shape) => shape_stands(shape),
        _ => true,
    }
}

/// Whether instructions can be written.
pub(crate) fn instrs_stand(instrs: &Instrs) -> bool
    ensures { IsTrue result → Each InstrStands instrs.now }
{
    if !is_word(instrs.len()) {
        return false;
    }
    for at in 0..instrs.len() {
        if !instr_stands(instrs.at(at)) {
            return false;
        }
    }
    true
}

/// Whether the note of a slot can be written.
fn slot_stands(slot: &SlotNote) -> bool
    ensures { IsTrue result → SlotStands slot.now }
{
    shape_stands(&slot.shape) && gathered_stands(&slot.gathers)
}

/// Whether the notes of slots can be written.
fn slots_stand(slots: &[SlotNote]) -> bool
    ensures { IsTrue result → Each SlotStands slots.now }
{
    if !is_word(slots.len()) {
        return false;
    }
    for slot in slots {
        if !slot_stands(slot) {
            return false;
        }
    }
    true
}

/// Whether the note of a body can be written.
fn note_stands(note: &BodyNote) -> bool
    ensures { IsTrue result → NoteStands note.now }
{
    result_stands(&note.result) && slots_stand(&note.slots)
}

/// Whether the notes of bodies can be written.
pub(crate) fn notes_stand(notes: &[BodyNote]) -> bool
    ensures { IsTrue result → Each NoteStands notes.now }
{
    if !is_word(notes.len()) {
        return false;
    }
    for note in notes {
        if !note_stands(note) {
            return false;
        }
    }
    true
}

//! The notes of the code of a program.

ghost use Rattle.std.specs.Prelude.{◌≡◌, ◌<◌, ◌^◌, ℕ, length, map, Some, slice_get, IfOk};
ghost use Rattle.hera_meaning.specs.Hosts.{Hosts};
ghost use Rattle.hera_meaning.specs.Plain.{program_of};
ghost use Rattle.hera_code.specs.Scheme.{code_of};
ghost use Rattle.hera_typed.specs.Notes.{notes_of};
ghost use Rattle.hera_meaning.specs.Shapes.{body_shapes, IsShaped};
ghost use Rattle.hera_typed.specs.Typed.{Points, IsTyped};
ghost use Rattle.hera_noted.specs.Given.{HasBodies, IsSlotOf, AreGiven};
ghost use Rattle.hera_noted.specs.Ranged.{IsBodyNoted, AreNoted};

use crate::extents::{Span, ranges_in_body};
use hera_code::Code;
use hera_meaning::{BodyShapes, Program, Schema, Shape};
use hera_typed::{BodyNote, Notes, SlotNote};
use std::alloc::{AllocError, Global};

/// The notes of the code of a program, with the shapes of its slots and results and the schemas that its walks
/// gather: one for each body and each slot.
///
/// - `given`: they have the shapes handed in.
/// - `typed`: where the program is sound with these shapes, the code is typed code with the notes.
pub fn notes(
    alloc: Global,
    program: &Program,
    code: &Code,
    shapes: &[BodyShapes],
) -> Result<Notes, AllocError>
    requires code { code.now ≡ code_of (program_of program.now) }
    requires size { length code.now.instrs < 2 ^ 32 }
    requires shapes { HasBodies (program_of program.now).bodies shapes.now }
    ensures given { IfOk result (AreGiven shapes.now) }
    ensures typed { IfOk result (λ notes. (hosts : Hosts) → IsShaped (program_of program.now) hosts (map body_shapes shapes.now) → (points : Points) × IsTyped code.now (program_of program.now).relations hosts (notes_of notes) points) }
{
    all_notes(alloc, code, shapes)
}

/// The notes of all bodies.
fn all_notes(alloc: Global, code: &Code, shapes: &[BodyShapes]) -> Result<Notes, AllocError>
    requires size { length code.now.instrs < 2 ^ 32 }
    requires bodies { length shapes.now ≡ length code.now.bodies }
    requires slots { (k : ℕ) → (s : BodyShapes) → slice_get shapes.now k ≡ Some s → length s.slots.items ≡ length s.gathers.items }
    ensures { IfOk result (AreNoted code.now shapes.now) }
{
    let mut bodies = Vec::new(alloc);
    for k in 0..shapes.len() {
        bodies.push(body_note(alloc, code, k, &shapes[k])?)?;
    }
    Ok(Notes { bodies })
}

/// The note of body k.
fn body_note(
    alloc: Global,
    code: &Code,
    k: usize,
    shapes: &BodyShapes,
) -> Result<BodyNote, AllocError>
    requires size { length code.now.instrs < 2 ^ 32 }
    requires body { k < length code.now.bodies }
    requires slots { length shapes.now.slots.items ≡ length shapes.now.gathers.items }
    ensures { IfOk result (IsBodyNoted code.now k shapes.now) }
{
    let ranges = ranges_in_body(alloc, code, k, shapes.slots.len())?;
    let mut slots = Vec::new(alloc);
    for i in 0..shapes.slots.len() {
        slots.push(slot_note(shapes, i, ranges[i])?)?;
    }
    Ok(BodyNote {
        result: copied_shape(&shapes.result)?,
        slots,
    })
}

/// The note of slot i, with its range.
fn slot_note(shapes: &BodyShapes, i: usize, range: Span) -> Result<SlotNote, AllocError>
    requires slot { i < length shapes.now.slots.items }
    requires gathers { i < length shapes.now.gathers.items }
    requires start { range.start < 2 ^ 32 }
    requires end { range.end < 2 ^ 32 }
    ensures given { IfOk result (IsSlotOf shapes.now i) }
    ensures range { IfOk result (λ note. (note.from ≡ range.start) × (note.to ≡ range.end)) }
{
    Ok(SlotNote {
        shape: shapes.slots[i].copy()?,
        from: range.start as u32,
        to: range.end as u32,
        gathers: copied_schema(&shapes.gathers[i])?,
    })
}

fn copied_shape(shape: &Option<Shape>) -> Result<Option<Shape>, AllocError>
    ensures { IfOk result (λ copy. copy ≡ shape.now) }
{
    match shape {
        None => Ok(None),
        Some(shape) => Ok(Some(shape.copy()?)),
    }
}

fn copied_schema(schema: &Option<Schema>) -> Result<Option<Schema>, AllocError>
    ensures { IfOk result (λ copy. copy ≡ schema.now) }
{
    match schema {
        None => Ok(None),
        Some(schema) => Ok(Some(schema.copy()?)),
    }
}

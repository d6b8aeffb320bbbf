//! The look at slots.
ghost use Rattle.std.specs.Prelude.{◌≡◌, ◌≤◌, ◌<◌, ◌+◌, ◌-◌, ◌^◌, ◌↔◌, ℕ, List, true, map, IsTrue, IfOk, OnOk, length};
ghost use Rattle.hera_meaning.specs.declared.schemas.RelDecl.{RelDecl};
ghost use Rattle.hera_meaning.specs.Hosts.{Hosts};
ghost use Rattle.hera_code.specs.declared.instrs.Code.{Code as PlainCode};
ghost use Rattle.hera_typed.specs.Notes.{slot_note, notes_of};
ghost use Rattle.hera_typed.specs.Typed.{Writes};
ghost use Rattle.hera_verify.specs.Looks.{Finds, SlotsFineTo};
ghost use Rattle.hera_verify.specs.Slots.{IsReach, IsWritten, IsIn, IsClosed, IsSlotFine, is_inside, is_before, lesser, size, is_of_width, NoteFineTo, FirstSlotsFineTo, BodySlotsFineTo, WidthFineTo, AreSources};

use crate::bodies::least;
use crate::reaches::{Reach, first_reach};
use crate::spans::{Span, fars_of, span_over, spans_of, widen};
use hera_code::{Code, Instr};
use hera_typed::{Notes, SlotNote};
use std::alloc::{AllocError, Global};

/// From where the addresses of the code are named: for each address the instructions that name one of the next so
/// many addresses, and the least address behind the code that an instruction before it names.
#[derive(Drop)]
struct Sources {
    spans: Vec<Option<Span>>,
    fars: Vec<Option<u32>>,
    width: usize,
}

/// The sources of single addresses.
fn sources_of(alloc: Global, code: &Code) -> Result<Sources, AllocError>
    requires { length code.now.instrs < 2 ^ 32 }
    ensures sources { IfOk result (λ sources. AreSources code.now sources) }
    ensures single { IfOk result (λ sources. sources.width ≡ 1) }
{
    let spans = spans_of(alloc, &code.instrs)?;
    let fars = fars_of(alloc, &code.instrs)?;
    Ok(Sources {
        spans,
        fars,
        width: 1,
    })
}

/// Whether the instruction writes the slot.
fn writes(instr: &Instr, slot: usize) -> bool
    ensures { IsTrue result ↔ Writes instr.now slot }
{
    match instr {
        Instr::Store(i) => *i as usize == slot,
        Instr::Next(i, _) => *i as usize == slot,
        _ => false,
    }
}

/// Whether the instruction before an address writes the slot.
fn is_written(code: &Code, slot: usize, from: usize) -> bool
    ensures { IsTrue result ↔ IsWritten code.now slot from }
{
    if from == 0 {
        return false;
    }
    match code.instrs.get(from - 1) {
        Some(instr) => writes(instr, slot),
        None => false,
    }
}

/// Whether the address and the one before it lie in the body.
fn is_in(reach: Reach, from: usize) -> bool
    ensures { (code : PlainCode) → (k : ℕ) → k < length code.bodies → IsReach code k reach → IsTrue result ↔ IsIn code k from }
{
    from > 0 && reach.has(from - 1) && reach.has(from)
}

/// Whether the range has all that name an address of it.
fn is_inside(span: Option<Span>, from: u32, to: u32) -> bool
    ensures { result ≡ is_inside span from to }
{
    match span {
        None => true,
        Some(span) => from <= span.least && span.greatest < to,
    }
}

/// Whether the range ends before an address behind the code.
fn is_before(far: Option<u32>, to: u32) -> bool
    ensures { result ≡ is_before far to }
{
    match far {
        None => true,
        Some(far) => to <= far,
    }
}

/// The lesser of two numbers.
fn lesser(a: usize, b: usize) -> usize
    ensures { result ≡ lesser a b }
{
    if b < a { b } else { a }
}

/// Whether no instruction outside the range names an address in it.
fn is_closed(code: &Code, sources: &Sources, from: u32, to: u32) -> bool
    requires sources { AreSources code.now sources.now }
    requires some { from < to }
    requires there { from < length code.now.instrs }
    requires wide { from + sources.now.width ≤ lesser to (length code.now.instrs) }
    requires narrow { lesser to (length code.now.instrs) ≤ from + sources.now.width + sources.now.width }
    ensures { IsTrue result ↔ IsClosed code.now from to }
{
    let end = lesser(to as usize, code.instrs.len());
    let span = span_over(&sources.spans, sources.width, from as usize, end);
    is_inside(span, from, to) && is_before(sources.fars[from as usize], to)
}

/// Whether the slot meets its rules.
fn is_fine(code: &Code, sources: &Sources, reach: Reach, slot: usize, note: &SlotNote) -> bool
    requires sources { AreSources code.now sources.now }
    requires some { note.now.from < note.now.to }
    requires wide { is_of_width (size code.now (slot_note note.now)) sources.now.width ≡ true }
    ensures { (k : ℕ) → k < length code.now.bodies → IsReach code.now k reach → IsTrue result ↔ IsSlotFine code.now k slot (slot_note note.now) }
{
    let from = note.from as usize;
    from < code.instrs.len()
        && is_in(reach, from)
        && is_written(code, slot, from)
        && is_closed(code, sources, note.from, note.to)
}

/// Whether a range of so many addresses is looked at with spans of this width.
fn is_of_width(size: usize, width: usize) -> bool
    requires { width < 2 ^ 62 }
    ensures { result ≡ is_of_width size width }
{
    size < width + width && (width == 1 || width <= size)
}

/// How many addresses of the code the slot's range has.
fn size(code: &Code, note: &SlotNote) -> usize
    ensures { result ≡ size code.now (slot_note note.now) }
{
    lesser(note.to as usize, code.instrs.len()).saturating_sub(note.from as usize)
}

/// Where the slot's range begins, if it is of the width and breaks a rule.
fn look_at(
    code: &Code,
    sources: &Sources,
    reach: Reach,
    slot: usize,
    note: &SlotNote,
) -> Option<u32>
    requires sources { AreSources code.now sources.now }
    requires few { sources.now.width < 2 ^ 62 }
    ensures { (k : ℕ) → k < length code.now.bodies → IsReach code.now k reach → Finds (NoteFineTo code.now sources.now.width k slot (slot_note note.now)) result }
{
    if note.from >= note.to || !is_of_width(size(code, note), sources.width) {
        return None;
    }
    if is_fine(code, sources, reach, slot, note) {
        None
    } else {
        Some(note.from)
    }
}

/// The least start of a range of the width that breaks a rule, of a body's slots from one on.
fn look_at_slots(
    code: &Code,
    sources: &Sources,
    reach: Reach,
    first: usize,
    slots: &[SlotNote],
) -> Option<u32>
    requires sources { AreSources code.now sources.now }
    requires few { sources.now.width < 2 ^ 62 }
    ensures { (k : ℕ) → k < length code.now.bodies → IsReach code.now k reach → Finds (FirstSlotsFineTo code.now sources.now.width k first (map slot_note slots.now) (length (map slot_note slots.now))) result }
{
    let mut found = None;
    for i in first..slots.len() {
        found = least(found, look_at(code, sources, reach, i, &slots[i]));
    }
    found
}

/// The same of all slots of a body but its parameters.
fn look_at_body(
    code: &Code,
    notes: &Notes,
    sources: &Sources,
    reach: Reach,
    k: usize,
) -> Option<u32>
    requires sources { AreSources code.now sources.now }
    requires few { sources.now.width < 2 ^ 62 }
    requires there { k < length code.now.bodies }
    requires reach { IsReach code.now k reach }
    ensures { Finds (BodySlotsFineTo code.now (notes_of notes.now) sources.now.width k) result }
{
    let Some(body) = code.bodies.get(k) else {
        return None;
    };
    match notes.bodies.get(k) {
        Some(note) => look_at_slots(code, sources, reach, body.params as usize, &note.slots),
        None => None,
    }
}

/// The same of all bodies.
fn look_at_width(code: &Code, notes: &Notes, sources: &Sources) -> Option<u32>
    requires sources { AreSources code.now sources.now }
    requires few { sources.now.width < 2 ^ 62 }
    requires noted { length notes.now.bodies.items ≤ length code.now.bodies }
    ensures { Finds (WidthFineTo code.now (notes_of notes.now) sources.now.width) result }
{
    let mut reach = first_reach(code);
    let mut found = None;
    for k in 0..code.bodies.len() {
        found = least(found, look_at_body(code, notes, sources, reach, k));
        if k + 1 < code.bodies.len() {
            reach = reach.next(code, k);
        }
    }
    found
}

/// The least start of a range that breaks a rule. Ranges of twice the width are looked at after those of the width, so
/// that each is covered by two spans.
pub(crate) fn look(alloc: Global, code: &Code, notes: &Notes) -> Result<Option<u32>, AllocError>
    requires some { 1 ≤ length code.now.instrs }
    requires short { length code.now.instrs < 2 ^ 32 }
    requires noted { length notes.now.bodies.items ≤ length code.now.bodies }
    ensures { (rels : List RelDecl) → (hosts : Hosts) → IfOk result (λ found. Finds (SlotsFineTo code.now rels hosts (notes_of notes.now)) found) }
{
    let mut sources = sources_of(alloc, code)?;
    let mut found = None;
    while sources.width <= code.instrs.len() {
        found = least(found, look_at_width(code, notes, &sources));
        widen(&mut sources.spans, sources.width);
        sources.width = sources.width + sources.width;
    }
    Ok(found)
}

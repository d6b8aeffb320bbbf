//! Where the slots of a body are set.

ghost use Rattle.std.specs.Prelude.{◌≡◌, ◌<◌, ◌≤◌, ◌+◌, ◌-◌, ℕ, List, Option, length, slice_get, slice_set, false, nat_eq, None, Some, IfSome, IfNone, IfOk};
ghost use Rattle.hera_code.specs.declared.instrs.Instr.{Instr as PlainInstr};
ghost use Rattle.hera_code.specs.declared.instrs.BodyInfo.{BodyInfo};
ghost use Rattle.hera_noted.specs.Spans.{is_writer, end_of, IsRange};
ghost use Rattle.hera_noted.specs.Writes.{AreWrites, IsRangeIn};

use crate::ends::farthest_ends;
use crate::ways::sources_in;
use hera_code::{Code, Instr, Instrs};
use std::alloc::{AllocError, Global};

/// The addresses of a body, or of a part of it: from `start` up to before `end`.
#[derive(Clone, Copy, PartialEq, Eq, Debug)]
pub struct Span {
    pub start: usize,
    pub end: usize,
}

/// The address behind a body.
fn body_end(code: &Code, k: usize) -> usize
    requires { k < length code.now.bodies }
    ensures within { result ≤ length code.now.instrs }
    ensures end { result ≡ end_of code.now k }
{
    let len = code.instrs.len();
    let count = code.bodies.len();
    prove!(k < count);
    match code.bodies.get(k + 1) {
        Some(next) if next.at as usize <= len => next.at as usize,
        _ => len,
    }
}

/// The address at which a body begins.
fn body_start(code: &Code, k: usize) -> usize
    ensures { (info : BodyInfo) → slice_get code.now.bodies k ≡ Some info → result ≡ info.at }
{
    match code.bodies.get(k) {
        Some(info) => info.at as usize,
        None => 0,
    }
}

/// The slot that an instruction writes.
fn written(instr: &Instr) -> Option<usize>
    ensures some { IfSome result (λ j. (k : ℕ) → is_writer instr.now k ≡ nat_eq j k) }
    ensures none { IfNone result ((k : ℕ) → is_writer instr.now k ≡ false) }
{
    match instr {
        Instr::Store(slot) => Some(*slot as usize),
        Instr::Next(slot, _) => Some(*slot as usize),
        _ => None,
    }
}

/// Puts the first instruction that writes a slot.
fn put_write(writes: &mut Vec<Option<usize>>, slot: usize, at: usize)
    requires { slot < length writes.old.items }
    ensures { writes.new.items ≡ slice_set writes.old.items slot (Some at) }
{
    writes[slot] = Some(at);
}

/// Takes down an instruction that writes a slot, unless one before it does.
fn note_slot(writes: &mut Vec<Option<usize>>, slot: usize, at: usize)
    requires { slot < length writes.old.items }
    ensures kept { (w : ℕ) → slice_get writes.old.items slot ≡ Some (Some w) → writes.new.items ≡ writes.old.items }
    ensures put { slice_get writes.old.items slot ≡ Some None → writes.new.items ≡ slice_set writes.old.items slot (Some at) }
{
    match writes[slot] {
        Some(_) => (),
        None => put_write(writes, slot, at),
    }
}

/// Takes down the slot that an instruction writes, where the body has it and no instruction before writes it.
fn note_write(writes: &mut Vec<Option<usize>>, instr: &Instr, at: usize)
    ensures { (instrs : List PlainInstr) → (lo hi : ℕ) → lo ≤ at → at < hi → slice_get instrs at ≡ Some instr.now → AreWrites instrs lo hi at writes.old.items → (length writes.new.items ≡ length writes.old.items) × AreWrites instrs lo hi (at + 1) writes.new.items }
{
    let Some(slot) = written(instr) else {
        return;
    };
    if slot >= writes.len() {
        return;
    }
    note_slot(writes, slot, at);
}

/// No instruction for any of so many slots.
fn no_writes(alloc: Global, slots: usize) -> Result<Vec<Option<usize>>, AllocError>
    ensures long { IfOk result (λ writes. length writes.items ≡ slots) }
    ensures none { IfOk result (λ writes. (k : ℕ) → (o : Option ℕ) → slice_get writes.items k ≡ Some o → o ≡ None) }
{
    let mut writes = Vec::new(alloc);
    for _ in 0..slots {
        writes.push(None)?;
    }
    Ok(writes)
}

/// The first instruction of a body that writes each slot.
fn first_writes(
    alloc: Global,
    instrs: &Instrs,
    body: Span,
    slots: usize,
) -> Result<Vec<Option<usize>>, AllocError>
    requires { body.end ≤ length instrs.now }
    ensures long { IfOk result (λ writes. length writes.items ≡ slots) }
    ensures writes { IfOk result (λ writes. AreWrites instrs.now body.start body.end body.end writes.items) }
{
    let mut writes = no_writes(alloc, slots)?;
    for at in body.start..body.end {
        note_write(&mut writes, instrs.at(at), at);
    }
    Ok(writes)
}

/// The range of a slot, by the instruction that writes it first and the ends of all ranges.
fn range_behind(write: Option<usize>, body: Span, ends: &[usize]) -> Span
    requires long { length ends.now ≡ body.end - body.start + 1 }
    requires within { (n e : ℕ) → slice_get ends.now n ≡ Some e → e ≤ body.end - body.start }
    requires write { IfSome write (λ a. (body.start ≤ a) × (a < body.end)) }
    ensures none { write ≡ None → (result.start ≡ 0) × (result.end ≡ 0) }
    ensures some { (a : ℕ) → write ≡ Some a → (result.start ≡ a + 1) × ((e : ℕ) × (slice_get ends.now (body.end - (a + 1)) ≡ Some e) × (result.end ≡ body.start + e)) }
{
    match write {
        None => Span { start: 0, end: 0 },
        Some(at) => Span {
            start: at + 1,
            end: body.start + ends[body.end - (at + 1)],
        },
    }
}

/// The range of each slot of a body: from behind the instruction that writes it first, as far as no way leads in
/// from elsewhere. Empty where no instruction writes it.
pub fn slot_ranges(
    alloc: Global,
    instrs: &Instrs,
    body: Span,
    slots: usize,
) -> Result<Vec<Span>, AllocError>
    requires { body.end ≤ length instrs.now }
    ensures long { IfOk result (λ ranges. length ranges.items ≡ slots) }
    ensures ranges { IfOk result (λ ranges. (i : ℕ) → (r : Span) → slice_get ranges.items i ≡ Some r → IsRange instrs.now body.start body.end i r.start r.end) }
{
    let writes = first_writes(alloc, instrs, body, slots)?;
    let sources = sources_in(alloc, instrs, body)?;
    let ends = farthest_ends(alloc, sources.as_slice())?;
    let mut ranges = Vec::new(alloc);
    for i in 0..slots {
        ranges.push(range_behind(writes[i], body, ends.as_slice()))?;
    }
    Ok(ranges)
}

/// The range of each slot of body k.
pub fn ranges_in_body(
    alloc: Global,
    code: &Code,
    k: usize,
    slots: usize,
) -> Result<Vec<Span>, AllocError>
    requires { k < length code.now.bodies }
    ensures long { IfOk result (λ ranges. length ranges.items ≡ slots) }
    ensures ranges { IfOk result (λ ranges. (i : ℕ) → (r : Span) → slice_get ranges.items i ≡ Some r → IsRangeIn code.now k i r) }
{
    let body = Span {
        start: body_start(code, k),
        end: body_end(code, k),
    };
    slot_ranges(alloc, &code.instrs, body, slots)
}

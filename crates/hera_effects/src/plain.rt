//! Instructions that look at one operand at most.
ghost use Rattle.std.specs.Prelude.{◌≡◌, ◌+◌, ◌<◌, ◌^◌, ◌≤◌, ◌&&◌, ◌∷◌, [], true, not, nat_lt, is_some, Some, None, ℕ, List, IfOk, IsTrue, length};
ghost use Rattle.std.specs.Option.{option_map, option_copied};
ghost use Rattle.hera_meaning.specs.declared.schemas.RelDecl.{RelDecl as PlainDecl};
ghost use Rattle.hera_code.specs.declared.instrs.Code.{Code as PlainCode};
ghost use Rattle.hera_meaning.specs.Deltas.{schema_of};
ghost use Rattle.hera_meaning.specs.Forms.{form_of, kinds_of};
ghost use Rattle.hera_meaning.specs.Shapes.{form_if};
ghost use Rattle.hera_meaning.specs.Hosts.{Hosts, host_at, host_takes, host_gives};
ghost use Rattle.hera_meaning.specs.Scalars.{kind_of, is_scalar};
ghost use Rattle.hera_meaning.specs.Sound.{const_form, is_const};
ghost use Rattle.hera_typed.specs.Notes.{slot_note, notes_of};
ghost use Rattle.hera_typed.specs.Effects.{Body_note, slot, result as noted_result, is_set_at, params};
ghost use Rattle.hera_host.specs.Tables.{specs_of, takes_at, gives_at};
ghost use Rattle.hera_stacks.specs.Flat.{flat_form};
ghost use Rattle.hera_effects.specs.Ways.{Both, listed};
ghost use Rattle.hera_effects.specs.Plain.{plain, is_plain, IsPlain};

use hera_code::{Code, Instr};
use hera_host::HostTable;
use hera_meaning::{Const, Kind, RelDecl, RelId, Scalar, Shape};
use hera_stacks::{FlatForm, form_of, kinds_of};
use hera_typed::{BodyNote, Notes, SlotNote};
use std::alloc::AllocError;

/// What an instruction takes and gives, and where it goes on.
#[derive(Clone, Copy)]
pub(crate) struct Plain {
    pub takes: Option<FlatForm>,
    pub gives: Option<FlatForm>,
    pub first: Option<u32>,
    pub second: Option<u32>,
}

/// It takes a value of this form.
fn takes(form: FlatForm, next: u32) -> Plain
    ensures takes { result.takes ≡ Some form }
    ensures gives { result.gives ≡ None }
    ensures ways { listed result.first result.second ≡ next ∷ [] }
{
    Plain {
        takes: Some(form),
        gives: None,
        first: Some(next),
        second: None,
    }
}

/// It gives a value of this form.
fn gives(form: FlatForm, next: u32) -> Plain
    ensures takes { result.takes ≡ None }
    ensures gives { result.gives ≡ Some form }
    ensures ways { listed result.first result.second ≡ next ∷ [] }
{
    Plain {
        takes: None,
        gives: Some(form),
        first: Some(next),
        second: None,
    }
}

/// It goes on, or ends there.
fn goes(to: Option<u32>) -> Plain
    ensures takes { result.takes ≡ None }
    ensures gives { result.gives ≡ None }
    ensures ways { listed result.first result.second ≡ listed to None }
{
    Plain {
        takes: None,
        gives: None,
        first: to,
        second: None,
    }
}

/// The form of a scalar.
fn scalar_form(scalar: &Scalar) -> FlatForm
    ensures form { result ≡ FlatForm.Scalar (kind_of scalar.now) }
    ensures good { is_scalar scalar.now ≡ true }
{
    match scalar {
        Scalar::Int(value) => {
            let _value = *value;
            FlatForm::Scalar(Kind::Int)
        }
        Scalar::Bool(_) => FlatForm::Scalar(Kind::Bool),
        Scalar::Text(text) => {
            let _bytes = text.bytes();
            FlatForm::Scalar(Kind::Text)
        }
    }
}

/// The form of a constant.
fn const_form(constant: &Const) -> FlatForm
    ensures form { result ≡ flat_form (const_form constant.now) }
    ensures good { is_const constant.now ≡ true }
{
    match constant {
        Const::Scalar(scalar) => scalar_form(scalar),
        Const::EmptyDelta => FlatForm::Delta,
        Const::FailDelta => FlatForm::Delta,
    }
}

/// The note of a slot of a body.
pub(crate) fn slot_of(notes: &Notes, k: usize, i: u32) -> Option<&SlotNote>
    ensures { option_map slot_note (option_copied result) ≡ slot (notes_of notes.now) k i }
{
    match notes.bodies.get(k) {
        Some(note) => note.slots.get(i as usize),
        None => None,
    }
}

/// The shape of a body's result, where it has one.
pub(crate) fn result_of(notes: &Notes, k: usize) -> Option<&Shape>
    ensures { option_map form_of (option_copied result) ≡ noted_result (notes_of notes.now) k }
{
    match notes.bodies.get(k) {
        Some(note) => shape_of(note),
        None => None,
    }
}

/// The shape of the result that the note tells, where there is one.
fn shape_of(note: &BodyNote) -> Option<&Shape>
    ensures { option_map form_of (option_copied result) ≡ form_if note.now.result }
{
    match &note.result {
        Some(shape) => Some(shape),
        None => None,
    }
}

/// How many parameters a body has.
fn params(code: &Code, k: usize) -> u32
    ensures { result ≡ params code.now k }
{
    match code.bodies.get(k) {
        Some(body) => body.params,
        None => 0,
    }
}

/// Whether the slot is set at an address.
pub(crate) fn is_set_at(code: &Code, k: usize, i: u32, a: usize, note: &SlotNote) -> bool
    ensures { result ≡ is_set_at code.now k i a (slot_note note.now) }
{
    i < params(code, k) || (note.from as usize <= a && a < note.to as usize)
}

/// What a load gives.
fn load(code: &Code, notes: &Notes, k: usize, a: usize, i: u32) -> Result<Option<Plain>, AllocError>
    requires { a + 1 < 2 ^ 32 }
    ensures { (rels : List PlainDecl) → (hosts : Hosts) → IfOk result (λ r. Both IsPlain r (plain code.now rels hosts (notes_of notes.now) k a (Instr.Load i))) }
{
    let Some(note) = slot_of(notes, k, i) else {
        return Ok(None);
    };
    if !is_set_at(code, k, i, a, note) {
        return Ok(None);
    }
    Ok(Some(gives(form_of(&note.shape)?, a as u32 + 1)))
}

/// What a store takes.
fn store(notes: &Notes, k: usize, a: usize, i: u32) -> Result<Option<Plain>, AllocError>
    requires { a + 1 < 2 ^ 32 }
    ensures { (code : PlainCode) → (rels : List PlainDecl) → (hosts : Hosts) → IfOk result (λ r. Both IsPlain r (plain code rels hosts (notes_of notes.now) k a (Instr.Store i))) }
{
    let Some(note) = slot_of(notes, k, i) else {
        return Ok(None);
    };
    Ok(Some(takes(form_of(&note.shape)?, a as u32 + 1)))
}

/// What a relation gives.
fn rel(relations: &[RelDecl], a: usize, rel: RelId) -> Result<Option<Plain>, AllocError>
    requires { a + 1 < 2 ^ 32 }
    ensures { (code : PlainCode) → (hosts : Hosts) → (notes : List Body_note) → (k : ℕ) → IfOk result (λ r. Both IsPlain r (plain code relations.now hosts notes k a (Instr.Rel rel))) }
{
    let Some(decl) = relations.get(rel.0 as usize) else {
        return Ok(None);
    };
    Ok(Some(gives(FlatForm::Table(kinds_of(&decl.schema)?), a as u32 + 1)))
}

/// What a host function takes and gives.
fn host(hosts: &HostTable, a: usize, h: u32) -> Result<Option<Plain>, AllocError>
    requires { a + 1 < 2 ^ 32 }
    ensures { (code : PlainCode) → (rels : List PlainDecl) → (notes : List Body_note) → (k : ℕ) → IfOk result (λ r. Both IsPlain r (plain code rels (specs_of hosts.now.names) notes k a (Instr.Host h))) }
{
    if h >= hosts.len() {
        return Ok(None);
    }
    Ok(Some(Plain {
        takes: Some(FlatForm::Scalar(hosts.param(h))),
        gives: Some(FlatForm::Scalar(hosts.result(h))),
        first: Some(a as u32 + 1),
        second: None,
    }))
}

/// A call's end without a result.
fn ret(notes: &Notes, k: usize) -> Option<Plain>
    ensures { (code : PlainCode) → (rels : List PlainDecl) → (hosts : Hosts) → (a : ℕ) → Both IsPlain result (plain code rels hosts (notes_of notes.now) k a Instr.Ret) }
{
    if k > 0 && result_of(notes, k).is_none() {
        Some(goes(None))
    } else {
        None
    }
}

/// What a call's end takes along.
fn ret_val(notes: &Notes, k: usize) -> Result<Option<Plain>, AllocError>
    ensures { (code : PlainCode) → (rels : List PlainDecl) → (hosts : Hosts) → (a : ℕ) → IfOk result (λ r. Both IsPlain r (plain code rels hosts (notes_of notes.now) k a Instr.RetVal)) }
{
    let Some(shape) = result_of(notes, k) else {
        return Ok(None);
    };
    Ok(Some(Plain {
        takes: Some(form_of(shape)?),
        gives: None,
        first: None,
        second: None,
    }))
}

/// Where a jump goes on that takes a bool.
fn unless(a: usize, to: u32) -> Plain
    requires { a + 1 < 2 ^ 32 }
    ensures { (code : PlainCode) → (rels : List PlainDecl) → (hosts : Hosts) → (notes : List Body_note) → (k : ℕ) → Both IsPlain (Some result) (plain code rels hosts notes k a (Instr.Unless to)) }
{
    Plain {
        takes: Some(FlatForm::Scalar(Kind::Bool)),
        gives: None,
        first: Some(a as u32 + 1),
        second: Some(to),
    }
}

/// Code, and what is known of its slots and of what it names.
#[derive(Clone, Copy)]
pub struct Around<'a> {
    pub code: &'a Code,
    pub relations: &'a [RelDecl],
    pub hosts: &'a HostTable,
    pub notes: &'a Notes,
}

/// What a plain instruction takes and gives, and where it goes on. None where it may not stand there.
pub(crate) fn plain_of(
    around: &Around,
    k: usize,
    a: usize,
    instr: &Instr,
) -> Result<Option<Plain>, AllocError>
    requires { a + 1 < 2 ^ 32 }
    ensures { IfOk result (λ r. Both IsPlain r (plain around.now.code.now around.now.relations.now (specs_of around.now.hosts.now.names) (notes_of around.now.notes.now) k a instr.now)) }
{
    let next = a as u32 + 1;
    match instr {
        Instr::Push(constant) => Ok(Some(gives(const_form(constant), next))),
        Instr::Load(i) => load(around.code, around.notes, k, a, *i),
        Instr::Store(i) => store(around.notes, k, a, *i),
        Instr::Rel(id) => rel(around.relations, a, *id),
        Instr::Host(h) => host(around.hosts, a, *h),
        Instr::Jump(to) => Ok(Some(goes(Some(*to)))),
        Instr::Unless(to) => Ok(Some(unless(a, *to))),
        Instr::Back(to) => Ok(Some(goes(Some(*to)))),
        Instr::Ret => Ok(ret(around.notes, k)),
        Instr::RetVal => ret_val(around.notes, k),
        Instr::Print(shape) => Ok(Some(takes(form_of(shape)?, next))),
        Instr::Apply(_) => Ok(Some(takes(FlatForm::Delta, next))),
        Instr::Commit => Ok(Some(goes(Some(next)))),
        Instr::Rollback => Ok(Some(goes(Some(next)))),
        Instr::Assert(_) => Ok(Some(takes(FlatForm::Scalar(Kind::Bool), next))),
        Instr::Halt => Ok(if k == 0 { Some(goes(None)) } else { None }),
        _ => Ok(None),
    }
}

//! The look at bodies.
ghost use Rattle.std.specs.Prelude.{◌≡◌, ◌<◌, ◌≤◌, ◌↔◌, ◌^◌, ℕ, List, IsTrue, None, Some, length, slice_get};
ghost use Rattle.hera_meaning.specs.declared.schemas.RelDecl.{RelDecl};
ghost use Rattle.hera_meaning.specs.Hosts.{Hosts};
ghost use Rattle.hera_typed.specs.Effects.{Body_note};
ghost use Rattle.hera_typed.specs.Notes.{notes_of};
ghost use Rattle.hera_verify.specs.Looks.{Finds, least, IsInPlace, IsBodyFine, BodyFineTo, FirstFineTo, BodiesFineTo};

use hera_code::{BodyInfo, Code};
use hera_typed::{BodyNote, Notes};

/// The lesser of two answers.
pub(crate) fn least(a: Option<u32>, b: Option<u32>) -> Option<u32>
    ensures { result ≡ least a b }
{
    match (a, b) {
        (None, _) => b,
        (Some(_), None) => a,
        (Some(m), Some(n)) => Some(if n < m { n } else { m }),
    }
}

/// Whether the note tells of no result.
fn has_none(note: &BodyNote) -> bool
    ensures { IsTrue result ↔ (note.now.result ≡ None) }
{
    match note.result {
        Some(_) => false,
        None => true,
    }
}

/// Whether nothing says that main has a result.
fn main_has_none(notes: &Notes) -> bool
    ensures { IsTrue result ↔ ((n : Body_note) → slice_get (notes_of notes.now) 0 ≡ Some n → n.result ≡ None) }
{
    match notes.bodies.get(0) {
        Some(note) => has_none(note),
        None => true,
    }
}

/// Whether the body begins behind the one before it, and main at 0, without parameters and a result.
fn is_in_place(code: &Code, notes: &Notes, k: usize, body: BodyInfo) -> bool
    ensures { IsTrue result ↔ IsInPlace code.now (notes_of notes.now) k body }
{
    if k == 0 {
        return body.at == 0 && body.params == 0 && main_has_none(notes);
    }
    match code.bodies.get(k - 1) {
        Some(before) => before.at < body.at,
        None => true,
    }
}

/// Whether the body meets its rules.
fn is_fine(code: &Code, notes: &Notes, k: usize, body: BodyInfo) -> bool
    ensures { IsTrue result ↔ IsBodyFine code.now (notes_of notes.now) k body }
{
    is_in_place(code, notes, k, body)
        && (body.at as usize) < code.instrs.len()
        && body.params <= body.slots
}

/// The start of a body that breaks a rule.
fn look_at(code: &Code, notes: &Notes, k: usize) -> Option<u32>
    ensures { Finds (BodyFineTo code.now (notes_of notes.now) k) result }
{
    let body = code.bodies.get(k)?;
    if is_fine(code, notes, k, body) {
        return None;
    }
    Some(body.at)
}

/// The least start of a body that breaks a rule.
pub(crate) fn look(code: &Code, notes: &Notes) -> Option<u32>
    ensures { (rels : List RelDecl) → (hosts : Hosts) → Finds (BodiesFineTo code.now rels hosts (notes_of notes.now)) result }
{
    let mut found = None;
    for k in 0..code.bodies.len() {
        found = least(found, look_at(code, notes, k));
    }
    found
}

//! Bodies and what is noted of them, read.
ghost use Rattle.std.specs.Prelude.{◌≡◌, [], IfOk, length};
ghost use Rattle.hera_code_file.specs.Reading.{Gives, many, slot_at, slots_at, body_at, bodies_at};
ghost use Rattle.hera_code_file.specs.Files.{AreNoted, file_body, file_bodies};

use crate::fields::{flag, word};
use crate::parts::{option_schema, option_shape, shape};
use crate::stop::Stop;
use hera_code::{Bodies, BodyInfo};
use hera_typed::{BodyNote, Notes, SlotNote};
use std::alloc::Global;

/// What is noted of a slot: its shape, the addresses between which it is set, and what the walk into it gathers.
#[tactic(auto, unfolding(crate::specs::Reading::slot_at))]
fn slot(alloc: Global, bytes: &[u8]) -> Result<(SlotNote, &[u8]), Stop>
    ensures { Gives (λ x. (x.0, x.1.now)) result (slot_at bytes.now) }
{
    let (shape, rest) = shape(alloc, bytes)?;
    let (from, rest) = word(rest)?;
    let (to, rest) = word(rest)?;
    let (gathers, rest) = option_schema(alloc, rest)?;
    let note = SlotNote {
        shape,
        from,
        to,
        gathers,
    };
    Ok((note, rest))
}

/// So many slots.
fn some_slots(alloc: Global, bytes: &[u8], count: u32) -> Result<(Vec<SlotNote>, &[u8]), Stop>
    ensures { Gives (λ x. (x.0.items, x.1.now)) result (many (λ before. slot_at) count [] bytes.now) }
{
    let mut slots = Vec::new(alloc);
    let mut rest = bytes;
    for _ in 0..count {
        let (slot, behind) = slot(alloc, rest)?;
        slots.push(slot)?;
        rest = behind;
    }
    slots.shrink_to_fit();
    Ok((slots, rest))
}

/// Slots, and how many there are.
#[tactic(auto, unfolding(crate::specs::Reading::slots_at))]
fn slots(alloc: Global, bytes: &[u8]) -> Result<((Vec<SlotNote>, u32), &[u8]), Stop>
    ensures reads { Gives (λ x. (x.0.0.items, x.1.now)) result (slots_at bytes.now) }
    ensures count { IfOk result (λ x. length x.0.0.items ≡ x.0.1) }
{
    let (count, rest) = word(bytes)?;
    let (slots, rest) = some_slots(alloc, rest, count)?;
    Ok(((slots, count), rest))
}

/// A body and its note.
#[tactic(auto, unfolding(crate::specs::Reading::body_at))]
fn body(alloc: Global, bytes: &[u8]) -> Result<((BodyInfo, BodyNote), &[u8]), Stop>
    ensures reads { Gives (λ x. (file_body x.0.0 x.0.1, x.1.now)) result (body_at bytes.now) }
    ensures count { IfOk result (λ x. length x.0.1.slots.items ≡ x.0.0.slots) }
{
    let (at, rest) = word(bytes)?;
    let (params, rest) = word(rest)?;
    let (func, rest) = flag(rest)?;
    let (result, rest) = option_shape(alloc, rest)?;
    let ((notes, slots), rest) = slots(alloc, rest)?;
    let info = BodyInfo {
        at,
        params,
        slots,
        func,
    };
    let note = BodyNote {
        result,
        slots: notes,
    };
    Ok(((info, note), rest))
}

/// So many bodies, and as many notes.
fn some_bodies(
    alloc: Global,
    bytes: &[u8],
    count: u32,
) -> Result<((Vec<BodyInfo>, Vec<BodyNote>), &[u8]), Stop>
    ensures reads { Gives (λ x. (file_bodies x.0.0.items x.0.1.items, x.1.now)) result (many (λ before. body_at) count [] bytes.now) }
    ensures noted { IfOk result (λ x. AreNoted x.0.0.items x.0.1.items) }
{
    let mut infos = Vec::new(alloc);
    let mut notes = Vec::new(alloc);
    let mut rest = bytes;
    for _ in 0..count {
        let ((info, note), behind) = body(alloc, rest)?;
        infos.push(info)?;
        notes.push(note)?;
        rest = behind;
    }
    Ok(((infos, notes), rest))
}

/// Bodies and their notes: how many there are, and each.
#[tactic(auto, unfolding(crate::specs::Reading::bodies_at))]
pub(crate) fn bodies(alloc: Global, bytes: &[u8]) -> Result<((Bodies, Notes), &[u8]), Stop>
    ensures reads { Gives (λ x. (file_bodies x.0.0 x.0.1.bodies.items, x.1.now)) result (bodies_at bytes.now) }
    ensures noted { IfOk result (λ x. AreNoted x.0.0 x.0.1.bodies.items) }
{
    let (count, rest) = word(bytes)?;
    let ((infos, notes), rest) = some_bodies(alloc, rest, count)?;
    Ok(((Bodies::new(infos), Notes { bodies: notes }), rest))
}

//! The slots of a body as it begins: its arguments, which are moved from the operands, and the int 0 in each other one.
ghost use Rattle.std.specs.Prelude.{◌≡◌, ◌≤◌, [], length, map, take, OnOk, OnErr};
ghost use Rattle.std.specs.Vec.{vec_len, vec_capacity};
ghost use Rattle.hera_values.specs.Little.{plain_of};
ghost use Rattle.hera_frames.specs.Items.{AreHeld};
ghost use Rattle.hera_frames.specs.Calling.{IsBegun};

use crate::Operands;
use hera_values::{Datum, Locals, fill};
use std::alloc::AllocError;

/// Takes all values off, if there are some. Their places stay.
#[inline]
fn empty(items: &mut Vec<Datum>)
    ensures items { items.new.items ≡ [] }
    ensures len { vec_len items.new ≡ 0 }
    ensures capacity { vec_capacity items.new ≡ vec_capacity items.old }
{
    if items.len() > 0 {
        items.clear();
    }
}

/// Lays a body's slots in the place of the values: its arguments, which are the newest operands and are taken
/// off, in the order in which they were pushed, and the int 0 in each other slot. It takes no memory.
#[inline]
fn lay(items: &mut Vec<Datum>, operands: &mut Operands, params: usize, slots: usize)
    requires fit { params ≤ slots }
    requires room { slots ≤ vec_capacity items.old }
    requires there { params ≤ length operands.old.items }
    requires held { AreHeld (take params operands.old.items) }
    ensures { IsBegun params slots operands.old.items operands.new.items (map plain_of items.new.items) }
{
    empty(items);
    fill(items, slots - params);
    operands.move_newest(items, params);
    items.reverse();
}

/// Begins a body's slots in the memory of these, or in more where they have less: its arguments, which are the newest
/// operands and are taken off, in the order in which they were pushed, and the int 0 in each other slot. Without memory
/// the operands are as before.
pub(crate) fn begin(
    locals: &mut Locals,
    operands: &mut Operands,
    params: usize,
    slots: usize,
) -> Result<(), AllocError>
    requires fit { params ≤ slots }
    requires there { params ≤ length operands.old.items }
    requires held { AreHeld (take params operands.old.items) }
    ensures begun { OnOk result (IsBegun params slots operands.old.items operands.new.items locals.new) }
    ensures kept { OnErr result (operands.new ≡ operands.old) }
{
    locals.clear();
    locals.items.reserve(slots)?;
    lay(&mut locals.items, operands, params, slots);
    Ok(())
}

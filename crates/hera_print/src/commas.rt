//! Commas between the parts of a list.
ghost use Rattle.std.specs.Prelude.{◌≡◌, ◌++◌, OnOk};
ghost use Rattle.hera_print.specs.Commas.{comma_before};

use hera_meaning::writing::put;
use std::alloc::AllocError;

/// Puts what stands in front of the part at place `i`: a comma and a blank, unless it is the first.
pub(crate) fn put_comma(out: &mut Vec<u8>, i: usize) -> Result<(), AllocError>
    ensures { OnOk result (out.new.items ≡ out.old.items ++ comma_before i) }
{
    if i > 0 { put(out, b", ") } else { Ok(()) }
}

//! Why an operation gives no value.

ghost use Rattle.std.specs.Prelude.{◌≡◌};
ghost use Rattle.hera_prims.specs.declared.end.PrimEnd.TheVariants.{Memory};

use hera_meaning::TrapName;
use std::alloc::AllocError;

/// Why an operation gives no value.
#[derive(Drop)]
pub enum PrimEnd {
    /// The trap that the operation's definition says.
    Trap(TrapName),
    /// No memory for the value.
    Memory,
}

impl From<AllocError> for PrimEnd {
    ghost from_gives = { λ e end. end ≡ Memory };

    fn from(_e: AllocError) -> PrimEnd {
        PrimEnd::Memory
    }
}

ghost use Rattle.std.specs.Prelude.{◌≡◌};
ghost use Rattle.hera_rules.specs.declared.fault.TypeFault.TheVariants.{Memory};

use std::alloc::AllocError;
use thiserror::Error;

/// Why a tree is refused: the first fault in the order of checking, with the offset of the place.
#[derive(Debug, Drop, Error)]
pub enum TypeFault {
    /// A name that means nothing here.
    #[error("a name is unknown")]
    Unknown { at: u32 },
    /// A name that is taken already.
    #[error("a name stands twice")]
    Repeated { at: u32 },
    /// A type that does not fit.
    #[error("a type does not fit")]
    Mismatch { at: u32 },
    /// An effect in a func.
    #[error("a func has an effect")]
    Impure { at: u32 },
    /// A func whose last statement does not return.
    #[error("a func does not return")]
    NoReturn { at: u32 },
    /// More relations, or more attributes of a schema, than there may be.
    #[error("there are too many")]
    TooMany { at: u32 },
    /// No memory for the program.
    #[error("out of memory")]
    Memory,
}

impl From<AllocError> for TypeFault {
    ghost from_gives = { λ _ fault. fault ≡ Memory };

    fn from(_error: AllocError) -> TypeFault {
        TypeFault::Memory
    }
}

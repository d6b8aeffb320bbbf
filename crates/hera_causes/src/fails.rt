ghost use Rattle.std.specs.Prelude.{◌≡◌};
ghost use Rattle.hera_causes.specs.declared.fails.ReadFail.TheVariants.{Fault, Memory};

use std::alloc::{AllocError, AllocFailed};
use thiserror::Error;

/// A read or an emission failed. The count of faults of the object that was called rose too.
#[derive(Clone, Copy, Debug, PartialEq, Eq)]
pub struct Failed;

/// Why a source was not read whole.
#[derive(Debug, PartialEq, Eq, Drop, Error)]
pub enum ReadFail {
    /// A read failed, so the source's count of faults rose.
    #[error("the source failed")]
    Fault,
    /// More bytes came than the limit allows, before any fault.
    #[error("the source is too long")]
    TooLong,
    /// There was no memory to keep the bytes.
    #[error("out of memory")]
    Memory,
}

impl From<Failed> for ReadFail {
    ghost from_gives = { λ _ e. e ≡ Fault };

    fn from(_: Failed) -> Self {
        ReadFail::Fault
    }
}

impl From<AllocError> for ReadFail {
    ghost from_gives = { λ _ e. e ≡ Memory };

    fn from(_: AllocError) -> Self {
        ReadFail::Memory
    }
}

impl<T: Drop> From<AllocFailed<T>> for ReadFail {
    ghost from_gives = { λ _ e. e ≡ Memory };

    fn from(_: AllocFailed<T>) -> Self {
        ReadFail::Memory
    }
}

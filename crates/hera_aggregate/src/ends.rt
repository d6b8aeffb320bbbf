//! Why an aggregate has no value.
ghost use Rattle.std.specs.Prelude.{◌≡◌};
ghost use Rattle.hera_aggregate.specs.declared.ends.AggEnd.TheVariants.{Memory};

use std::alloc::{AllocError, AllocFailed};
use thiserror::Error;

/// Why an aggregate has no value.
#[derive(Debug, Drop, Error)]
pub enum AggEnd {
    /// An exact sum is not in the range of an int, or there are more than 2^63 - 1 rows.
    #[error("the result is out of the range of an int")]
    Overflow,
    /// The least or the greatest of no rows.
    #[error("no rows have a least or a greatest")]
    EmptyMin,
    /// No memory for the result.
    #[error("out of memory")]
    Memory,
}

impl From<AllocError> for AggEnd {
    ghost from_gives = { λ _ e. e ≡ Memory };

    fn from(_e: AllocError) -> AggEnd {
        AggEnd::Memory
    }
}

impl<T: Drop> From<AllocFailed<T>> for AggEnd {
    ghost from_gives = { λ _ e. e ≡ Memory };

    fn from(_e: AllocFailed<T>) -> AggEnd {
        AggEnd::Memory
    }
}

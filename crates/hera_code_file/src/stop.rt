//! Why reading stops.
use std::alloc::{AllocError, AllocFailed};

/// Why the reading of a part stops.
#[derive(Debug, Drop)]
pub(crate) enum Stop {
    /// A field breaks its rule, or does not lie wholly in the file. So many bytes are left from its first one on.
    Bad { left: usize },
    /// No memory for what is read.
    Memory,
}

impl From<AllocError> for Stop {
    ghost from_gives = { λ _ e. e ≡ Memory };

    ghost use Rattle.std.specs.Prelude.{◌≡◌};
    ghost use Rattle.hera_code_file.specs.declared.stop.Stop.TheVariants.{Memory};

    fn from(_: AllocError) -> Stop {
        Stop::Memory
    }
}

impl<T: Drop> From<AllocFailed<T>> for Stop {
    ghost from_gives = { λ _ e. e ≡ Memory };

    ghost use Rattle.std.specs.Prelude.{◌≡◌};
    ghost use Rattle.hera_code_file.specs.declared.stop.Stop.TheVariants.{Memory};

    fn from(_: AllocFailed<T>) -> Stop {
        Stop::Memory
    }
}

//! How a call ends, and why it stops.
ghost use Rattle.std.specs.Prelude.{◌≡◌};
ghost use Rattle.hera_outcome.specs.Answers.{number_of_ending, number_of_stop};

use crate::Refusal;
use hera_script::ScriptFault;
use std::alloc::{AllocError, AllocFailed};

/// How a call ends that is not stopped.
#[derive(Clone, Copy, PartialEq, Eq, Debug)]
pub enum Ending {
    /// The command or the run is done.
    Done,
    /// The run ended in a trap.
    Trapped,
    /// A turn was due, and none was left.
    Spent,
    /// A guard ended the run.
    Broken,
}

impl Ending {
    /// The exit status.
    pub fn number(self) -> u8
        ensures { result ≡ number_of_ending self }
    {
        match self {
            Ending::Done => 0,
            Ending::Trapped => 1,
            Ending::Spent => 4,
            Ending::Broken => 11,
        }
    }
}

/// Why a call stops.
#[derive(Drop)]
pub enum Stop {
    /// It is refused, and that is still to be told.
    Refused(Refusal),
    /// A call on a file failed.
    Device,
    /// The output failed.
    Output,
    /// There was no memory.
    Memory,
    /// The half of the database would be too long.
    Full,
}

impl Stop {
    /// The exit status.
    pub fn number(&self) -> u8
        ensures { result ≡ number_of_stop self.now }
    {
        match self {
            Stop::Refused(refusal) => refusal.status(),
            Stop::Device => 6,
            Stop::Output => 8,
            Stop::Memory => 9,
            Stop::Full => 10,
        }
    }
}

impl From<ScriptFault> for Stop {
    ghost use Rattle.std.specs.Prelude.{◌≡◌};
    ghost use Rattle.hera_outcome.specs.Answers.{stop_of_script};

    ghost from_gives = { λ fault e. e ≡ stop_of_script fault };

    fn from(fault: ScriptFault) -> Self {
        match fault {
            ScriptFault::Refused { cause, at } => Stop::Refused(Refusal::Script { cause, at }),
            ScriptFault::Memory => Stop::Memory,
        }
    }
}

impl From<AllocError> for Stop {
    ghost use Rattle.std.specs.Prelude.{◌≡◌};
    ghost use Rattle.hera_outcome.specs.declared.answer.Stop.TheVariants.{Memory};

    ghost from_gives = { λ _ e. e ≡ Memory };

    fn from(_: AllocError) -> Self {
        Stop::Memory
    }
}

impl<T: Drop> From<AllocFailed<T>> for Stop {
    ghost use Rattle.std.specs.Prelude.{◌≡◌};
    ghost use Rattle.hera_outcome.specs.declared.answer.Stop.TheVariants.{Memory};

    ghost from_gives = { λ _ e. e ≡ Memory };

    fn from(_: AllocFailed<T>) -> Self {
        Stop::Memory
    }
}

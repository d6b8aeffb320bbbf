//! What instructions tell, and how a run ends.

use delta_atoms::Delta;
use hera_meaning::{Line, TrapName};

/// How a run ends.
#[derive(Clone, Copy, PartialEq, Eq, Debug)]
pub enum End {
    /// The program's end.
    Done,
    /// A trap, and the byte offset of its place.
    Trap(TrapName, u32),
    /// A turn was due, and none was left.
    Spent,
    /// What an instruction needs was not there, or was of another kind.
    Stuck,
}

/// What an instruction tells: a commit hands over the delta that is stored.
#[derive(Drop)]
pub enum Told {
    /// Nothing that is seen outside.
    Quiet,
    /// A printed text.
    Out(Line),
    /// A commit of the pending delta, which is empty from then on.
    Commit(Delta),
    /// The run's end.
    Ended(End),
}

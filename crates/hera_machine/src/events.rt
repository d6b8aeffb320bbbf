//! What steps tell.

use hera_meaning::Line;
use hera_steps::End;

/// What a step tells.
#[derive(Drop)]
pub enum Event {
    /// Nothing that is seen outside.
    Quiet,
    /// A printed text.
    Out(Line),
    /// A commit, whose delta is to be taken.
    Commit,
    /// The run's end.
    Ended(End),
}

/// Whether a machine works on.
#[derive(Clone, Copy, PartialEq, Eq, Debug)]
pub enum Status {
    /// The run has not ended.
    Working,
    /// The run ended so.
    Over(End),
    /// A step found no memory.
    GaveUp,
}

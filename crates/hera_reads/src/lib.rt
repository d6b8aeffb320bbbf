//! What a machine reads and changes: the deltas under which it reads, relations as they are seen there, how many rows
//! they have, and walks over them.
//!
//! The pending delta and the deltas of `when` are layers over the committed state, which the contracts see as one
//! state. A relation is named by its number and a layer, and read where it stands: no row of it is copied but where it
//! is collected. Walks stand on a stack, which contracts see with the newest first.
#![tactic(auto)]

mod ahead;
mod changes;
mod counts;
mod kinds;
mod newest_walk;
mod past;
mod seen;
mod sight;
mod stack;
mod walks;

pub use changes::Changes;
pub use counts::Counts;
pub use seen::Seen;
pub use sight::Sight;
pub use stack::Stack;
pub use walks::{Walk, rows_past};

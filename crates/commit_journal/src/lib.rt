//! The journal of a half: records of deltas, each behind a gate that is opened last.
#![tactic(auto)]

mod fields;
pub mod laws;
mod prepared;
mod preparing;
mod scanning;
mod sealing;
mod writing;

pub use prepared::{PrepareFault, Prepared};
pub use preparing::prepare;
pub use scanning::{Journal, ScanFault, scan};
pub use sealing::seal;

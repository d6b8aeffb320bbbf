//! What a command comes to and how it is told: refusals and what they print, endings and stops with their statuses,
//! and what is seen of an outside over a call.
#![tactic(auto)]

mod answer;
mod refusal;
mod telling;

pub use answer::{Ending, Stop};
pub use refusal::Refusal;
pub use telling::{conclude, refuse, say, tell};

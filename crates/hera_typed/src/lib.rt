//! Typed code: the rules, the notes that code brings along, the law that typed code is safe, and the law of the
//! pass that finds what is known of a machine at each address.
#![tactic(auto)]

mod laws;
mod notes;

pub use laws::{pass_is_exact, typed_code_is_safe};
pub use notes::{BodyNote, Notes, SlotNote};

//! Where bytes come from and where they go, and how often that failed.
#![tactic(auto)]

mod fails;
mod memory;
mod piece;
mod stock;
mod traits;
mod whole;

pub use fails::{Failed, ReadFail};
pub use memory::{MemOutput, MemSource, QuietOutput, QuietSource};
pub use piece::{Piece, Pieces, allowed};
pub use traits::{Output, Source};
pub use whole::{emit_all, read_all};

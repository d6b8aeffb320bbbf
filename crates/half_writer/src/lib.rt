//! The writer of halves.
#![tactic(auto)]

mod adding;
pub mod laws;
mod open_page;
mod pages;
mod writer;

pub use pages::HalfFault;
pub use writer::HalfWriter;

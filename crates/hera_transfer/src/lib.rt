//! Relations of a database in a folder, in and out as CSV: an import adds the rows of a file in one commit, and an export
//! prints all rows.
#![tactic(auto)]

mod adding;
pub mod laws;
mod naming;
mod printing;

pub use adding::{DATA_LIMIT, import};
pub use printing::export;

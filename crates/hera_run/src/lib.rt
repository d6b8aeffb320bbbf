//! Runs over a folder: it is opened and made ready, a program is bound to it, and its events are carried out one by one;
//! and what a stop at any moment leaves of them.
#![tactic(auto)]

mod carry;
mod folder;
mod keeper;
mod lines;
mod opening;
mod run;

pub use carry::{Action, carry_out, keep_in};
pub use folder::run_in_folder;
pub use keeper::{InFolder, InMemory, Keeper};
pub use opening::{open_folder, open_for, rewrite};
pub use run::{Close, commit, ending_of, run_code};

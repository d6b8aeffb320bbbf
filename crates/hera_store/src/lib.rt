//! The database in a folder: made, opened, committed to, checkpointed and widened, each all or nothing at
//! every moment.
#![tactic(auto)]

mod faults;
mod files;
pub mod laws;
mod making;
mod opening;
mod printing;
mod store;
mod switching;
mod widening;

pub use faults::{CheckFault, CommitFault, InitFault, OpenFault, WidenFault};
pub use making::init_store;
pub use opening::open_store;
pub use store::Store;

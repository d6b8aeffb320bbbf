//! Three files and an output under one clock, and what a crash at any moment may leave of them.
#![tactic(auto)]

mod file_id;
mod mem_disk;
mod mem_files;
mod mem_outside;
mod outside;
mod plan;
mod steps;
mod syncs;

pub use file_id::FileId;
pub use mem_outside::MemOutside;
pub use outside::Outside;
pub use steps::{rewrite_and_sync, say, sync_all, write_and_sync};

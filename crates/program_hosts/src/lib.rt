//! The host functions that the program lends to scripts: `band`, `bucket`, `is_sku` and `clamp`.
#![tactic(auto)]

mod answers;
mod table;

pub use answers::{band, bucket, clamp, is_sku};
pub use table::program_hosts;

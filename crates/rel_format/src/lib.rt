//! The bytes of a stored half: how they are printed, which field comes after which, and the reader
//! of the header.
#![tactic(auto)]

pub mod fields;
mod header;
pub mod laws;
mod small;
mod version;
mod writing;

pub use header::{PageFault, damaged, read_header};
pub use small::{first_len, number16, number32, rest_at};
pub use version::{HALF_LIMIT, MAGIC_LEN, PAGE_HEAD, PAGE_ONE, PAGE_TWO, Version};
pub use writing::{header_bytes, kind_byte};

//! Databases: the rows of each relation of a catalogue, read in place from the bytes of a half.
#![tactic(auto)]

mod base;
mod fields;
mod half;
mod indexed;
mod leading;
mod near;
mod page_rel;
mod pages;
mod parts;
mod place;
mod starts;

pub use base::{Base, read_half};
pub use indexed::IndexedRel;
pub use page_rel::PageRel;
pub use place::{Near, Place};
pub use rel_format::PageFault;

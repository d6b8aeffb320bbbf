//! Code files, written. Their bytes, and which values have them, are the definitions of `hera_code_file`; `specs/` has what
//! is asked of what is written.
#![tactic(auto)]

mod putting;
mod writing;

pub use writing::write_code;

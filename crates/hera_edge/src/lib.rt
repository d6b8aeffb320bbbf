//! The program's edge: the bytes of a real file, the files of a real folder with standard output, and the numbers of the
//! standard streams. The source and the outside tell how often their calls failed, and nothing of what is there.
#![tactic(auto)]

mod file_outside;
mod file_source;
mod folder;
mod names;
mod retried;
mod standard_output;
mod standard_streams;
mod unsynced;

pub use file_outside::FileOutside;
pub use file_source::FileSource;
pub use folder::Paths;
pub use standard_streams::take_closed;

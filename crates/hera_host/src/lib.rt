//! Host functions: functions of one scalar that the program which runs a script lends to it.
#![tactic(auto)]

mod host;
mod names;
mod table;

pub use host::{HostCall, HostFn};
pub use names::HostNames;
pub use table::{HostFault, HostTable};

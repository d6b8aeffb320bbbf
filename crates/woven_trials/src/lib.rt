//! Tests alone: scripts that are woven over a folder. They stand in a crate of their own, since they need the front end.
#![tactic(auto)]

#[cfg(test)]
mod folder;
#[cfg(test)]
mod samples;

//! Tests of the crates on files and halves, a module for each crate. They stand above those crates, since a crate's own
//! tests are proved together with the whole crate once more.
#![tactic(auto)]

#[cfg(test)]
mod journal;
#[cfg(test)]
mod samples;
#[cfg(test)]
mod store;
#[cfg(test)]
mod volume;
#[cfg(test)]
mod writer;

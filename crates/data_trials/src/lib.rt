//! Tests of the crates on values, sets of rows and deltas, a module for each crate. They stand above those crates, since
//! a crate's own tests are proved together with the whole crate once more.
#![tactic(auto)]

#[cfg(test)]
mod aggregate;
#[cfg(test)]
mod algebra;
#[cfg(test)]
mod bind;
#[cfg(test)]
mod flat;
#[cfg(test)]
mod meaning;
#[cfg(test)]
mod merge;
#[cfg(test)]
mod overlay;
#[cfg(test)]
mod pages;
#[cfg(test)]
mod row;
#[cfg(test)]
mod rows;
#[cfg(test)]
mod samples;

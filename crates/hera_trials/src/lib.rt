//! Tests that cross crates: the notes of a script's code, a file of code, a script packed and opened, the lines of
//! refusals, scripts of guard lines, and the top call. They stand in a crate of their own, since a crate's tests are
//! proved together with the whole crate.
#![tactic(auto)]

#[cfg(test)]
mod code_file;
#[cfg(test)]
mod noted;
#[cfg(test)]
mod outcome;
#[cfg(test)]
mod packed;
#[cfg(test)]
mod rules;
#[cfg(test)]
mod top;

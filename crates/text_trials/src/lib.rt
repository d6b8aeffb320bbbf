//! Tests of the crates on bytes, words and texts, a module for each crate. They stand above those crates, since a
//! crate's own tests are proved together with the whole crate once more.
#![tactic(auto)]

#[cfg(test)]
mod causes;
#[cfg(test)]
mod csv_files;
#[cfg(test)]
mod guard_lines;
#[cfg(test)]
mod hosts;
#[cfg(test)]
mod lexer;
#[cfg(test)]
mod words;

//! Printed texts: values, ends of runs and declarations.
//!
//! A scalar by itself is its digits, `true` or `false`, or the text's bytes; a tuple is its fields in
//! brackets, in which texts are quoted. A relation is a line with the number of its tuples and then a
//! line for each tuple. A delta is a line with the number of its atoms and then a line for each atom,
//! or the word `fail`. Each line ends in a line feed.
#![tactic(auto)]

mod commas;
mod decls;
mod deltas;
mod tuples;
mod values;

pub use decls::decl_line;
pub use values::{end_line, value_line};

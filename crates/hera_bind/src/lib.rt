//! Binding: a program gets the numbers that a catalogue gives its relations.
//!
//! A program numbers its relations by its own declarations. A database has its own numbers, and may have
//! more relations. `bind` finds each declared relation by name, tests that its schema is equal, and
//! renumbers the relations of the program in place. That a program which is bound to its own relations
//! is itself is the law in the module `laws`.
#![tactic(auto)]

mod binding;
mod expressions;
pub mod laws;
mod numbers;
mod statements;

pub use binding::{BindFault, bind, first_missing};

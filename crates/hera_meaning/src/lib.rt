//! What a program of the language means.
//!
//! The plain types are scalars, schemas and core trees. The definitions stand in `specs/`, one file a
//! subject, and contracts of all other crates cite them. The laws that hold of them are the clauses of
//! the functions in the module `laws`. The module `writing` puts printed numbers and texts into a buffer.
#![tactic(auto)]

mod hosts;
pub mod laws;
mod lines;
mod scalars;
mod schemas;
mod shapes;
mod trees;
pub mod writing;

pub use hosts::{HostAnswer, HostSpec};
pub use lines::Line;
pub use scalars::{
    Kind, NAME_LIMIT, Name, RelId, Scalar, ScalarRef, Sign, TEXT_LIMIT, Text, TextFault,
};
pub use schemas::{
    ATTRS_LIMIT, Agg, Aggs, Attr, Places, RELATIONS_LIMIT, RelDecl, Schema, SchemaFault,
};
pub use shapes::BodyShapes;
pub use trees::{Arm, Body, Const, Core, Hypo, Link, Op, Program, Shape, Stmt, TrapName};

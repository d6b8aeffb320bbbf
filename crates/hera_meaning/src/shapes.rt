//! The shapes of a program's bodies.

use crate::schemas::Schema;
use crate::trees::Shape;

/// What typing finds of a body.
#[derive(Drop)]
pub struct BodyShapes {
    /// The shape of each slot, parameters first.
    pub slots: Vec<Shape>,
    /// For each slot the schema of what the walk into it gathers, where there is one. A `select` and a
    /// `foreach` gather what they walk, a `map` what its body gives.
    pub gathers: Vec<Option<Schema>>,
    /// The shape of its result, where it has one.
    pub result: Option<Shape>,
}

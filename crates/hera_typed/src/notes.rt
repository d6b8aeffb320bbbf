//! What code says of its slots and results.

use hera_meaning::{Schema, Shape};

/// What a slot of a body holds, and where.
#[derive(Drop)]
pub struct SlotNote {
    /// The shape of its values.
    pub shape: Shape,
    /// The first address at which it is set. A parameter is set in its whole body, whatever stands here.
    pub from: u32,
    /// The address up to before which it is set. Where it is not above `from`, the slot is never set.
    pub to: u32,
    /// The schema of what the walk into it gathers, where there is one.
    pub gathers: Option<Schema>,
}

/// What a body gives, and its slots in their order.
#[derive(Drop)]
pub struct BodyNote {
    /// The shape of its result, where it has one.
    pub result: Option<Shape>,
    /// A note for each slot.
    pub slots: Vec<SlotNote>,
}

/// What code says of its bodies.
#[derive(Drop)]
pub struct Notes {
    /// A note for each body.
    pub bodies: Vec<BodyNote>,
}

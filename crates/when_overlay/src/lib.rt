//! Hypothetical states: the rows of a relation of a base after commits and after layers of deltas, read
//! where they stand.
//!
//! Layers are deltas, each upon an earlier one or upon none, so that many hypothetical states share the
//! deltas that they have in common. A view of a relation copies nothing: the next row past a bound, and
//! whether a row is there, are sought in the base's pages, the commits and the layers.
#![tactic(auto)]

mod counts;
mod froms;
mod indexed;
mod layers;
mod marks;
mod naming;
mod seeks;
mod signs;
mod soughts;
mod stored;
mod views;

pub use counts::{Change, change_of};
pub use indexed::IndexedHyp;
pub use layers::Layers;
pub use marks::{SeenRow, ViewMark};
pub use stored::Stored;
pub use views::{Hyp, View};

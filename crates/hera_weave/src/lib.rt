//! Sessions over one base, which run an instruction at a time.
#![tactic(auto)]

mod lines;
mod reads;
mod rota;
mod seat;
mod weave;

pub use rota::{Rota, what_is_due_is_in_order, who_is_due_has_not_closed};
pub use weave::{Session, Weave, WeaveEvent};

//! A plan that lays the objects of a run side by side at one of its events.
#![tactic(auto)]

mod laws;
mod planner;

pub use laws::{compacted_is_plan, event_compacts, others_stay};
pub use planner::{CompactFault, compact};

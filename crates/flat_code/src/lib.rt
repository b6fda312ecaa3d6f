//! Functions decoded once: flat lines, exits and edges.
#![tactic(auto)]

mod actions;
mod codes;
mod decode;
mod edges;
mod lines;
mod numbers;
mod sources;
mod spots;

pub use actions::{element_bytes, field_bytes};
pub use codes::Code;
pub use edges::{cases_of, label_at};
pub use lines::{Action, Copied, Edge, Exit, FlatLine, Function, Segment};
pub use numbers::{computed_number, width_of};
pub use sources::{after_all, following, registers_of, retreats};
pub use spots::{Due, Spot};

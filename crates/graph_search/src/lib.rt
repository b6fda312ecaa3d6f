//! Which nodes of a graph paths lead to.
#![tactic(auto)]

mod edges;
mod search;

pub use edges::{Edges, Without};
pub use search::reached_from;

//! Nodes that paths of a graph lead to, as a list, for many searches that share their marks.
#![tactic(auto)]

mod search;

pub use search::find_reached;

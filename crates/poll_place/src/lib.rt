//! Polls: a line at the front of each function, and one before each terminator that leads back.
#![tactic(auto)]

mod blocks;
mod laws;
mod polls;

pub use laws::{polls_stand_at_points, sources_are_ready};
pub use polls::{place, place_func};

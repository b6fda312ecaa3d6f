//! Definitions and laws of what a module means on objects that never move.
#![tactic(auto)]

mod laws;

pub use laws::{source_runs_give_one, target_runs_give_one};

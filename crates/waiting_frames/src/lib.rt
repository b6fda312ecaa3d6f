//! Frames that wait, and what they show at a trap.
#![tactic(auto)]

mod bundles;
mod frames;
mod lines;
mod shown;

pub use frames::{Saved, Spot};
pub use lines::show_frames;

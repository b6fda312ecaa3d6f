//! The objects that a run makes, each with the event at which it was made.
#![tactic(auto)]

mod laws;
mod makes;

pub use laws::runs_make_their_objects;
pub use makes::Made;

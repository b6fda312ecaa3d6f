//! Base pairs along the paths of a rewritten function, and the faults of the verifier, as definitions, and their laws.
#![tactic(auto)]

mod bases;
mod laws;

pub use bases::Base;
pub use laws::{bases_are_own, fresh_with_base};

//! Functions under tables of what stands for their values, and whether a table is a folding, a thinning, or none is needed.
#![tactic(auto)]

mod fold;
mod folding;
mod left;
mod lines;
mod pure;
mod standing;
mod thinning;

pub use fold::folded;
pub use folding::is_folding;
pub use left::is_reduced;
pub use pure::{is_other, is_pure};
pub use standing::{chosen, literal_given, stand_for};
pub use thinning::is_thinning;

//! Whether pairs stand before any instruction of a function: before phis, results and relocates too.
#![tactic(auto)]

mod asked;
mod asking;
mod facts;
mod keys;
mod laws;
mod phis;
mod spots;

pub use facts::{Facts, Question};
pub use laws::all_are_askable;

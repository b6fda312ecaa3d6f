//! The function over its versions, without phis that no version needs.
#![tactic(auto)]

mod entries;
mod functions;
mod numbers;
mod rows;
mod webs;

pub use functions::rebuild;

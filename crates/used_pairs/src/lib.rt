//! The pairs of pointers and bases that the lines of a rewritten function use.
#![tactic(auto)]

mod escaping;
mod groups;
mod helpers;
mod uses;

pub use uses::{UsedPair, used_pairs};

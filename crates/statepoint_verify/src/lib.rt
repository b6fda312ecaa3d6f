//! The verifier of rewritten modules: whether each use has a fresh pointer with its fresh base on every path.
#![tactic(auto)]

mod accesses;
mod entries;
mod faults;
mod least;
mod lines;
mod marks;
mod pairs;
mod verdict;

pub use faults::{Fault, VerifyFault};
pub use verdict::{Verified, verify};

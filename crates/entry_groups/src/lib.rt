//! The function in SSA form again, as `thin_phis` makes it, with a short way for one that waits at its first line alone.
#![tactic(auto)]

mod blocks;
mod functions;
mod lines;
mod numbers;
mod waits;

pub use functions::rebuild;

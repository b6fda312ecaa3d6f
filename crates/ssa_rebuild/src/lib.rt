//! Single definitions again: the function in which each use takes the version of its value that stands there.
#![tactic(auto)]

mod arrivals;
mod blocks;
mod entries;
mod filled;
mod functions;
mod lines;
mod listed;
mod numbers;
mod rooms;
mod rows;
mod solve;
mod stream;
mod versions;
mod writing;

pub use functions::{rebuild, with_versions};
pub use versions::Versions;

//! Generated modules: made, rewritten, run while every event moves all objects, and told of in six lines.
#![tactic(auto)]

mod counts;
mod runs;
mod summary;

pub use runs::map_of_module;
pub use summary::{Summary, summarize};

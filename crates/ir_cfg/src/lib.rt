//! The graph of a function's blocks: edges, paths from the entry, reached blocks, and where polls stand.
#![tactic(auto)]

mod cfg;
mod graphs;
mod reach;
mod renumber;
mod rows;
mod turned;
mod unreached;

pub use cfg::Cfg;
pub use unreached::drop_unreachable;

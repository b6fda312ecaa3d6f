//! Which blocks every path must leave that comes to a block since its last statepoint.
#![tactic(auto)]

mod since;
mod split;

pub use since::Since;
pub use split::is_reached;

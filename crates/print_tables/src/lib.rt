//! Tables over a module from which its text is printed: what its lines name, and which externals
//! they call.
#![tactic(auto)]

mod called;
mod externals;
mod names;
mod waypoints;

pub use called::Called;
pub use externals::External;
pub use names::{Scope, after, name_of_layout};
pub use waypoints::{Waypoint, Waypoints, count_results};

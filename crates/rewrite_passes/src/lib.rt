//! The passes over a module's functions, one function after another: polls, bases and checks, live pointers, and then statepoint
//! groups in SSA form (Garbage Collection Safepoints in LLVM, "PlaceSafepoints", "RewriteStatepointsForGC").
#![tactic(auto)]

mod before;
mod groups;
mod making;

pub use before::Before;
pub use groups::with_groups;
pub use making::before_groups;

//! Statepoint groups: what each call that isn't of a leaf keeps, relocates and where its bases stand in its "gc-live" list (Garbage
//! Collection Safepoints in LLVM, "RewriteStatepointsForGC").
#![tactic(auto)]

mod bounds;
mod counting;
mod functions;
mod groups;
mod indices;
mod marked;
mod push;
mod texts;

pub use counting::count;
pub use functions::insert;
pub use groups::{Group, Relocate};
pub use marked::Marked;
pub use push::push_group;
pub use texts::{Call, Counts};

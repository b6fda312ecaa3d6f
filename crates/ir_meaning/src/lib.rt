//! The source meaning of a module, and the interpreter that computes it.
#![tactic(auto)]

mod computing;
mod interpret;
mod machine;
mod making;
mod stacks;
mod straight;

pub use interpret::{RefFault, reference};
pub use making::made;

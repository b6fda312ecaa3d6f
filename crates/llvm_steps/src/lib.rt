//! What LLVM's integer intrinsics are written out as: rows of steps of the profile.
#![tactic(auto)]

mod names;
mod steps;

pub use names::intrinsic_of;
pub use steps::{Intrinsic, Operand, Step, steps_of};

//! What the rows of steps give that LLVM's integer intrinsics are written out as. No code.
#![tactic(auto)]

pub mod laws;

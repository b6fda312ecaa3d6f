//! The lines of functions resolved: their instructions, and what resolving them loses; the arguments and layouts of heads (LLVM
//! Language Reference, in this project's profile).
#![tactic(auto)]

pub mod build;
pub mod calls;
mod fits;
pub mod heads;
pub mod lines;
pub mod lost;
pub mod scope;

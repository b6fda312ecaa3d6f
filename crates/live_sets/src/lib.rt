//! Which pointers are live across each call that isn't of a leaf (Garbage Collection Safepoints in LLVM, "RewriteStatepointsForGC").
#![tactic(auto)]

mod ends;
mod lists;
mod numbers;
mod phis;
mod pointer_sets;
mod starts;
mod uses;
mod values;

pub use lists::live;
pub use phis::joins;

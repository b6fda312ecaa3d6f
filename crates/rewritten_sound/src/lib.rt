//! The laws that the rewritten module of a source module keeps the meaning, is a target module and has no fault of the verifier. No code.
#![tactic(auto)]

pub mod definite;
pub mod pairs;
pub mod shape;

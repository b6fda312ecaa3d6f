//! Bases of derived pointers, and checks: the function with a base phi or select before each derived one, a `gc_check`
//! before each load and store, and `gc_same` for compares of derived pointers.
#![tactic(auto)]

mod functions;
mod lines;
mod parts;

pub use functions::insert;

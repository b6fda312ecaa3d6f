//! The objects of a run on which nothing moves: what registers and cells hold, and the cells of all objects in one list.
#![tactic(auto)]

mod cells;
mod objects;
mod words;

pub use objects::Objects;
pub use words::Word;

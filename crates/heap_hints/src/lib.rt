//! Accesses to a heap that moves, each looked for first where one like it was found last.
#![tactic(auto)]

mod hints;

pub use hints::Hints;

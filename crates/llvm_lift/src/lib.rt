//! From what LLVM prints into the profile: a text of the profile is left alone, any other is lifted or refused with its reasons.
#![tactic(auto)]

mod front;
mod kept;
pub mod laws;
mod lifts;
mod notes;
mod refusals;

pub use lifts::lift;
pub use notes::{fault_words, notes_of};
pub use refusals::Refusal;

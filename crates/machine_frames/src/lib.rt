//! The frames of the address machine: registers of words, slots in a stack, and code addresses.
#![tactic(auto)]

mod code;
mod copies;
mod frames;
mod landings;
mod numbering;
mod slots;
mod tasks;

pub use code::Code;
pub use frames::{Frame, Move};
pub use tasks::Task;

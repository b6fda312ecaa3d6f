//! Which version of each value stands at a place, by one walk over the blocks, each below its only predecessor.
#![tactic(auto)]

mod forest;
mod lists;
mod slots;
mod versions;
mod walk;

pub use slots::{Packed, Slot};
pub use walk::answer_blocks;

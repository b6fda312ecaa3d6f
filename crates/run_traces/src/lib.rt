//! What a run of the machine shows of its events and of the places of its objects, and the lines that say it.
#![tactic(auto)]

mod changes;
mod frames;
mod happenings;
mod writing;

pub use changes::add_changes;
pub use frames::{Room, SlotChange};
pub use happenings::{Happening, ObjectMove, add_moves};
pub use writing::{Stopped, write_happening, write_places};

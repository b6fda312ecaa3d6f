//! The lines of reports: what closes a run, its trace and its places, what is said of a refusal, and a stack map as text.
#![tactic(auto)]

mod closings;
mod maps;
mod names;
mod notes;
mod numbers;
mod run_lines;

pub use closings::closing;
pub use maps::map_text;
pub use notes::{Note, note_line};
pub use run_lines::{event_line, moved_line, place_line, slot_line};

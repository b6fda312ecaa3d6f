//! What the frames that wait show where a run of the address machine traps, read from the stack through the map.
#![tactic(auto)]

mod asked;
mod bases;
mod deopts;
mod heaps;
mod lines;
mod modules;
mod values;

pub use asked::{Functions, Objects};
pub use deopts::{Shown, deopt_line};
pub use lines::write_waiting;

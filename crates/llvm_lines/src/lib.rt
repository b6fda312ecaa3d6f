//! The lines that LLVM prints: what they are written as in the profile, or the lines that have what the profile lacks.
#![tactic(auto)]

mod accesses;
mod declared;
mod expanding;
mod lifting;
mod plain;
mod values;
mod whole;
mod writer;
mod zero_steps;

pub use plain::{is_plain, plain_text};
pub use whole::{Lifted, lift_text};
pub use zero_steps::without_zero_steps;

//! The stack map of a rewritten module, as bytes.
#![tactic(auto)]

mod constants;
mod fields;
mod heads;
mod maps;
mod records;
mod sizes;

pub use maps::{addresses_rise, target_has_map, write};

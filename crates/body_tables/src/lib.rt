//! A function as flat tables: its instructions in text order, the types of its values, and which values are derived.
#![tactic(auto)]

mod bodies;
mod derivation;

pub use bodies::{ValueTable, instructions, value_table};
pub use derivation::{derived, lets_out};

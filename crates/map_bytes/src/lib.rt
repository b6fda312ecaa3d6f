//! What the bytes of a stack map say (LLVM, "Stack maps and patch points", "Stack Map Format", version 3): its fields as one
//! table, the map that bytes are, and the first fault of bytes that are no map.
#![tactic(auto)]

mod laws;
mod rules;
mod values;

pub use laws::{aligned_records, longest_front, map_or_fault, numbers_fit, one_fault, one_map};
pub use rules::{MapFault, MapRule};
pub use values::{FuncEntry, Place};

//! Identifiers, the ends of a run, wrapped and signed numbers, and the limits of the profile.
#![tactic(auto)]

mod ends;
mod ids;
pub mod limits;
mod memory;
mod numbers;

pub use ends::{End, Trap};
pub use ids::{BlockId, FuncId, ObjId, TaskId, ValueId};
pub use memory::Memory;
pub use numbers::{sign, wrap};

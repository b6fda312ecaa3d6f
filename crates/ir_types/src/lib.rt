//! Typing: the module that the readings of a text stand for, in the source form or the rewritten form, or the first of
//! its faults (LLVM Language Reference, in this project's profile).
#![tactic(auto)]

mod faults;
mod paths;
mod typing;

pub use faults::TypeFault;
pub use ir_lines::faults::Fault;
pub use typing::{typed, typed_rewritten};

//! The first rule that a module breaks, by number, with no table of names.
#![tactic(auto)]

mod cases;
mod groups;
mod insts;
mod mains;
mod phis;
mod types;
mod verify;

pub use verify::first_broken;

//! The address machine: a rewritten module is run over a stack map, on a heap that moves.
#![tactic(auto)]

mod accesses;
mod calls;
mod events;
mod executor;
mod lines;
mod run;
mod traces;
mod turns;

pub use run::{RunFault, Shows, SureFault, run_any, run_verified};

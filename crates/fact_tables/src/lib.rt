//! Where the values of a function are defined, the statepoint groups of its lines, and the operands of its phis, as flat
//! tables.
#![tactic(auto)]

pub mod groups;
pub mod homes;
pub mod insts;
pub mod notes;
pub mod phis;
pub mod tables;

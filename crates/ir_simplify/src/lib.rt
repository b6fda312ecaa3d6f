//! Source modules with less: what can be told before a run is put in place of results, and what nothing needs goes.
#![tactic(auto)]

mod modules;
mod needed;
mod search;
mod users;

pub use modules::simplify;

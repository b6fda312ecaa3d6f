//! Which base pairs stand on every path to a place of a rewritten function.
#![tactic(auto)]

mod asks;
mod closing;
mod edges;
mod facts;
mod members;
mod missed;
mod search;
mod settle;
mod sources;
mod steps;

pub use asks::{Ask, Facts};

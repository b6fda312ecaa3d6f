//! What is known of the values of a function before bases and checks are put in: which are derived, their new numbers,
//! their bases, and the ranks of the lines that are inserted.
#![tactic(auto)]

mod counts;
mod derived;
mod origins;
mod shapes;
mod tables;

pub use tables::Tables;

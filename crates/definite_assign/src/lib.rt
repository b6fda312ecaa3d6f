//! Whether each path to a use of a value meets the value's definition before.
#![tactic(auto)]

mod faults;
mod homes;
mod search;
mod straight;
mod uses;

pub use faults::{definite, definite_in};

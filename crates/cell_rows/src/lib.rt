//! Objects as rows of cells that stand one after another in one list.
#![tactic(auto)]

mod shapes;

pub use shapes::{Shape, bytes_of, place_of};

//! The lines of the cases of each `switch` of a function.
#![tactic(auto)]

mod rows;

pub use rows::CaseLines;

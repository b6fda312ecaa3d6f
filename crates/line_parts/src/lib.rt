//! The parts of a line: a place in it, what is dropped there, words and marks, names, types, values, and lists of them.
//! Contracts see a place as the tokens from there on.
#![tactic(auto)]

mod choices;
mod cursor;
mod drops;
mod faults;
mod lists;
mod marks;
mod parts;
mod passing;
mod readings;
mod signatures;
mod types;

pub use cursor::Cursor;
pub use faults::Stop;
pub use marks::{closing, number_of, token_name, zero};
pub use passing::{handed, takes_own};
pub use readings::{
    AllPassed, Argument, Arguments, Entries, Entry, Fields, Passed, TypeWord, Value,
};
pub use signatures::{Parameters, parameters};

//! The words of the command line: which give which command, and what each command asks for.
#![tactic(auto)]

mod reader;
mod request;
mod words;

pub use request::{Command, FileName, Part, RunRequest};
pub use words::{WordsFault, command};

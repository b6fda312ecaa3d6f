//! The printed text of a module.
#![tactic(auto)]

mod calls;
mod declarations;
mod lines;
mod operands;
mod puts;
mod runs;
mod texts;
mod words;

pub use print_tables::External;
pub use texts::print;

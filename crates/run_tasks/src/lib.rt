//! What a run of either meaning does with its tasks, with `@main`, with what is left of its input, and with what it prints, and what it answers.
#![tactic(auto)]

mod printing;
mod runs;
mod starting;
mod tasks;

pub use printing::{Did, ended, printed_line};
pub use runs::Ran;
pub use starting::{first_of, function_in, main_of, rest_of};
pub use tasks::Tasks;

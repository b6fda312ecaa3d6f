//! The top call of `statepoint`: words to a command, files to a run, and a status for each way to end.
#![tactic(auto)]

mod closing;
mod engine;
mod generate;
mod job;
mod judging;
mod laws;
mod machine;
mod maps;
mod notes;
mod passes;
mod phases;
mod refusal;
mod rewrite;
mod run;
mod runner;
mod show;
mod status;
mod sure;
mod top;

pub use laws::{one_work, plans_are_free};
pub use passes::{
    accepted_texts_pass, rewritten_texts_pass, verifier_refuses_none, written_texts_are_ok,
};
pub use status::Status;
pub use sure::statepoint_surely;
pub use tool_words::{Command, FileName, WordsFault, command};
pub use top::statepoint;

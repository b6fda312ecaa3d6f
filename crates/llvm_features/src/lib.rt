//! What a line of LLVM's text has that the profile lacks, by its words, and the reasons of a text.
#![tactic(auto)]

mod features;
mod intrinsics;
mod rows;
mod telling;
mod words;

pub use features::{Feature, Reason};
pub use intrinsics::{is_hint, is_trap};
pub use rows::{NO_TOKEN, put_tokens};
pub use telling::{line_tells, push_reason};

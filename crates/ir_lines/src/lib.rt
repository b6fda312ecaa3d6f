//! What the lines of a text say, and the tables of what they give and name (LLVM Language Reference, in this
//! project's profile).
#![tactic(auto)]

pub mod best;
pub mod faults;
mod firsts;
mod hashing;
pub mod literals;
pub mod names;
pub mod operands;
pub mod parts;
pub mod scope;
pub mod sections;

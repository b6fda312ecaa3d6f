//! Code addresses, return offsets, frame sizes and slots of a rewritten module.
#![tactic(auto)]

mod bundles;
mod entries;
mod frames;
mod layouts;
mod returns;

pub use bundles::{deopt_word, words_taken};
pub use layouts::Layouts;
pub use returns::group_size;

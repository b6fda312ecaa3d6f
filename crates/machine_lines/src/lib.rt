//! Lines of a rewritten module that stay in their frame: decoded, and run in one go over registers of words and a heap.
#![tactic(auto)]

mod accesses;
mod computing;
mod decoded;
mod going;
mod targets;
mod words;

pub use accesses::{cell_named, fields_of, stepped_word};
pub use computing::{computed, is_plain, widened};
pub use decoded::{Decoded, Lines, Source, decoded_all, incoming_source};
pub use flat_code::label_at;
pub use going::go_over;
pub use targets::{branch_taken, case_taken};
pub use words::{put, word, word_at};

//! What one token of a line says: names, widths, numbers, words of choice, the names of the functions that statepoint
//! groups are made of.
#![tactic(auto)]

mod families;
mod literals;
mod numbers;
mod tokens;
mod widths;
mod words;

pub use families::{is_family_name, is_result_name, is_result_of, relocate_name, statepoint_name};
pub use literals::{Limited, Literal};
pub use numbers::{is_integer_word, literal, literal_in, width, width_in};
pub use tokens::{global, is_mark, is_text, is_word, local, quoted};
pub use widths::Width;
pub use words::{Binary, Cast, Conversion, Dropped, Flags, pred_in};

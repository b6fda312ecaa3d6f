//! The lines of a text and the tokens of a line, as slices of the text. Nothing here takes memory.
#![tactic(auto)]

mod bytes;
mod first_tokens;
mod fronts;
mod labels;
mod lines;
mod names;
mod tokens;

pub use lines::{Line, Lines};
pub use names::Name;
pub use tokens::{BadByte, Kind, PlacedToken, Token};

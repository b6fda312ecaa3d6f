//! Files of cases: parts with texts or rows, and what is expected of each.
#![tactic(auto)]

mod lines;
mod parts;
mod refusals;
mod rows;
mod tallies;

pub use lines::{CaseLine, case_lines, filled, push_text};
pub use parts::{Part, parts_in};
pub use refusals::Refusal;
pub use rows::{rows_in, three_cells, two_cells};
pub use tallies::Tally;

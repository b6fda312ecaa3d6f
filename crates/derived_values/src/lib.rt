//! Which of some values are derived: the results of `getelementptr`s, and of the phis and selects that use a derived value.
#![tactic(auto)]

mod givers;
mod search;
mod users;

pub use givers::{Giver, Givers};
pub use search::derived_marks;

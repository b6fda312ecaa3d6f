//! Whether a text is outside the profile by one of its declarations, told by few of its lines.
#![tactic(auto)]

mod declarations;

pub use declarations::declares_unknown;

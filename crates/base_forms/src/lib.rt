//! Definitions of the function with polls, and of the function with bases, checks and polls.
#![tactic(auto)]

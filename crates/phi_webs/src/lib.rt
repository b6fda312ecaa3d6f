//! Webs of phis, and what each name becomes where phis that no name needs are removed.
#![tactic(auto)]

mod forest;
mod laws;
mod looks;
mod rows;
mod search;
mod settled;

pub use laws::{
    absorbs, becomes_the_end, kept_are_open, order_is_free, removed_are_solved, renaming_commutes,
    shared_is_kept, stays,
};
pub use rows::PhiRow;
pub use settled::settle;

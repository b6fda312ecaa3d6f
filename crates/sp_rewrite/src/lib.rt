//! The rewriting of a module with statepoints, as LLVM's passes "PlaceSafepoints" and "RewriteStatepointsForGC" do it, and its laws.
#![tactic(auto)]

mod faults;
mod laws;
mod rewriting;

pub use faults::RewriteFault;
pub use laws::{
    functions_are_ready, relocates_are_few_or_many, removal_ends_there, removal_is_no_matter,
    removal_keeps_all, rewriting_is_by_function, rewriting_is_one, rewriting_is_target,
    rewriting_is_verified, rewriting_keeps_meaning, source_is_rewritten,
};
pub use rewriting::rewrite;

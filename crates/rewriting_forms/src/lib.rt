//! Definitions of live pointers, of the names of relocated pointers, and of the rewritten module.
#![tactic(auto)]

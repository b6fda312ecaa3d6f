//! Laws of the module that a text without a fault stands for.
#![tactic(auto)]

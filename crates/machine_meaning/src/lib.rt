//! The address machine on rewritten modules, as definitions, and the laws of its words. There is no code.
#![tactic(auto)]

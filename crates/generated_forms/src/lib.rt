//! Definitions of generated modules: the random numbers of a seed, the bodies of functions, and the module of them.
#![tactic(auto)]

//! Laws of lists that several crates need and that the library lacks.
#![tactic(auto)]

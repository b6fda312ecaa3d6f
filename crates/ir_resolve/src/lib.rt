//! A text resolved, its faults and those of its module, and what ties that module to the lines. No code.
#![tactic(auto)]

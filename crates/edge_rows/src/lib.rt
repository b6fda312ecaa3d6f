//! Laws of the rows of a graph to which edges are added one at a time.
#![tactic(auto)]

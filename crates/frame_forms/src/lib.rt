//! Definitions of where code stands and what frames hold: code addresses, return offsets, frame sizes and slots.
#![tactic(auto)]

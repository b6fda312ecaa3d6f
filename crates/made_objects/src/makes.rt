//! The objects that a run made.

/// An object of a run, by its number in a list of them.
#[derive(Clone, Copy, Debug, PartialEq, Eq)]
pub struct Made {
    /// The event at which the object was made, counted from 1. A number that has reached 2^64 - 1 stays there.
    pub event: u64,
    /// How many bytes the object takes.
    pub footprint: u64,
}

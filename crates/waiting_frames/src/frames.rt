//! Frames.

/// A segment of a function, by their numbers.
#[derive(Clone, Copy, Debug, PartialEq, Eq)]
pub struct Spot {
    pub func: u32,
    pub segment: u32,
}

/// A frame that waits at the exit of a segment, and its first register's place among those of its task.
#[derive(Clone, Copy, Debug, PartialEq, Eq)]
pub struct Saved {
    pub spot: Spot,
    pub base: u32,
}

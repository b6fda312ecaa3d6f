//! Where a frame stands in the module's own lines.

/// What a frame executes next.
#[derive(Clone, Copy, Debug, PartialEq, Eq)]
pub enum Due {
    /// The poll at the front of the function.
    Front,
    /// The line at its place, or the poll before it.
    Line,
    /// The line at its place, whose poll was executed.
    Behind,
}

/// A place in a function: its block, the instruction in the block, and the register of the next result.
#[derive(Clone, Copy, Debug, PartialEq, Eq)]
pub struct Spot {
    pub block: u32,
    pub at: usize,
    pub next: usize,
    pub due: Due,
}

//! Phis over numbers.

/// A phi: the number of its name, and those of its operands.
#[derive(Clone, Copy, Drop)]
pub struct PhiRow<'a> {
    /// The number of its name.
    pub name: u32,
    /// The numbers of its operands, one for each edge.
    pub operands: &'a [u32],
}

/// A phi's name, and the name that takes its place.
#[derive(Clone, Copy, Drop)]
pub(crate) struct Replaced {
    pub(crate) name: u32,
    pub(crate) value: u32,
}

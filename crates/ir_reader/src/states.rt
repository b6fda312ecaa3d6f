//! Where lines stand, and what is known behind them.

use ir_ast::Form as TextForm;

/// Where a line stands.
#[derive(Clone, Copy, Debug, PartialEq, Eq)]
pub enum Place {
    /// Outside functions.
    Top,
    /// Directly after the head of a definition.
    Entry,
    /// In a block, before its terminator.
    Block,
    /// After a terminator.
    Closed,
    /// Among the cases of a `switch`.
    Cases,
}

/// What a line counts as.
#[derive(Clone, Copy, Debug, PartialEq, Eq)]
pub enum Counted {
    Layout,
    /// A definition, with its number of arguments.
    Function(usize),
    Instruction,
    Relocate,
    Nothing,
}

/// How much of a module was read so far.
#[derive(Clone, Copy, Debug, PartialEq, Eq)]
pub struct Counts {
    pub layouts: u32,
    pub functions: u32,
    /// Arguments and instructions of the function.
    pub values: usize,
    pub instructions: u32,
    /// Relocates in a row.
    pub relocates: u32,
}

/// What is known behind a line.
#[derive(Clone, Copy, Debug, PartialEq, Eq)]
pub struct State {
    pub form: TextForm,
    pub place: Place,
    pub counts: Counts,
}

//! Decoded code: lines, exits and edges.

use crate::spots::Spot;
use ir_ast::{Cell, Operand, Pred};

/// What a line does, with all that its type and the layouts say of it.
#[derive(Clone, Copy, Debug, PartialEq, Eq)]
pub enum Action {
    Add,
    Sub,
    Mul,
    Udiv,
    Sdiv,
    Urem,
    Srem,
    And,
    Or,
    Xor,
    Shl,
    Lshr,
    Ashr,
    /// An `icmp` of integers.
    Compare(Pred),
    /// An `icmp` of pointers.
    ComparePointers(Pred),
    Truncate,
    Widen,
    /// To a register of so many bits.
    SignExtend(u32),
    Select,
    /// A `getelementptr`: the bytes of an element, and where the field begins.
    Advance { scale: u64, fixed: u64 },
    Load(Cell),
    Store(Cell),
    /// No such line.
    Nothing,
}

/// A line that takes effect in its frame and on objects alone: the bits of its operands (of its result for a `trunc`, of
/// its index for a `getelementptr`), the register that its result goes to, and its first three operands.
#[derive(Clone, Copy, Debug, PartialEq, Eq)]
pub struct FlatLine {
    pub action: Action,
    pub width: u32,
    pub to: Option<u32>,
    pub first: Operand,
    pub second: Operand,
    pub third: Operand,
}

/// What a phi assigns on an edge, and the register that it goes to.
#[derive(Clone, Copy, Debug, PartialEq, Eq)]
pub struct Copied {
    pub to: Option<u32>,
    pub from: Operand,
}

/// An edge to a block, with what the phis there assign on it.
#[derive(Debug, Drop)]
pub struct Edge {
    pub block: u32,
    pub copies: Vec<Copied>,
}

/// How a straight part ends.
#[derive(Debug, Drop)]
pub enum Exit {
    Poll,
    /// A call of a defined function.
    Enter(u32),
    /// A new object of a layout.
    New(u32),
    Print,
    Read,
    /// A `task_start`.
    Start,
    Jump(Edge),
    Branch { yes: Edge, no: Edge },
    /// The default's edge first.
    Switch(Vec<Edge>),
    /// The bits of the answer.
    Return(u32),
    Unreachable,
}

/// A straight part of a block and its exit, with the register and the operands of the exit's line; a block that has no
/// more lines has no exit. It begins and ends at these spots.
#[derive(Debug, Drop)]
pub struct Segment {
    pub start: Spot,
    pub lines: Vec<FlatLine>,
    pub end: Spot,
    pub to: Option<u32>,
    pub operands: Vec<Operand>,
    pub exit: Option<Exit>,
}

/// A function: how many registers it has, its segments, of which the first is its front, and which of them begins each
/// block behind its phis.
#[derive(Debug, Drop)]
pub struct Function {
    pub registers: usize,
    pub segments: Vec<Segment>,
    pub starts: Vec<u32>,
}

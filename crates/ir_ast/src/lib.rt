//! Modules of the profile as plain lists: layouts, functions, blocks and instructions.
#![tactic(auto)]

mod blocks;
mod cells;
mod clones;
mod funcs;
mod insts;
mod layouts;
mod modules;
mod names;
mod ops;
mod rest;
mod tables;
mod types;

pub use blocks::Block;
pub use cells::Cell;
pub use funcs::{Arg, Func};
pub use insts::Inst;
pub use layouts::Layout;
pub use modules::{Form, Module};
pub use names::Name;
pub use ops::{Callee, Elem, Labels, Op, Operand, Operands, Pred};
pub use rest::Rest;
pub use tables::{BaseTable, LiveTable};
pub use types::{Ty, Types};

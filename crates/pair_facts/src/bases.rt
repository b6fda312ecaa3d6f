//! The base of a fact: a named one, or any.

use ir_ast::Operand;

/// What stands beside a pointer in a pair. A pair says that the pointer is fresh, no statepoint having passed since it was
/// computed, and which value is its base (Garbage Collection Safepoints in LLVM, "Base & Derived Pointers").
#[derive(Clone, Copy, Debug, PartialEq, Eq)]
pub enum Base {
    /// Some base, which may have no name here: the pair says no more than that the pointer is fresh.
    Any,
    /// This value.
    Named(Operand),
}

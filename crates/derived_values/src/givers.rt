//! What gives each value, as far as derived values go.

ghost use Rattle.std.specs.Prelude.{◌≡◌, ◌<◌, List, length, Some, slice_get};
ghost use Rattle.derived_values.specs.Givens.{Given, seen_giver};

use ir_ast::{Operand, Ty};

/// What gives a value.
#[derive(Clone, Copy)]
pub enum Giver<'a> {
    /// An argument, or any other line.
    Other,
    /// A `getelementptr`.
    Step,
    /// A phi or a select, with its operands and its bundle.
    Merge(&'a [Operand], &'a [(Ty, Operand)]),
}

/// Values by their numbers, each with what gives it.
pub trait Givers {
    ghost givers: { Self → List Given };

    /// How many values there are.
    fn count(&self) -> usize
        ensures { result ≡ length (givers self.now) };

    /// What gives a value.
    fn giver(&self, value: usize) -> Giver<'_>
        requires { value < length (givers self.now) }
        ensures { slice_get (givers self.now) value ≡ Some (seen_giver result) };
}

//! A function before its groups, with its bases and live values.

ghost use Rattle.std.specs.Prelude.{◌≡◌, map};
ghost use Rattle.rewriting_forms.specs.Liveness.{live_lists};
ghost use Rattle.ir_ast.specs.Operands.{valued};

use ir_ast::{BaseTable, Func, LiveTable};
use std::marker::Model;

/// A function with polls, bases and checks before its calls become statepoints, the base of each of its values, and the pointers that
/// are live across each call that isn't of a leaf. Contracts see a `BeforeGroups`.
#[derive(Debug, Drop)]
pub struct Before {
    func: Func,
    bases: BaseTable,
    live: LiveTable,
}

impl Model for Before {
    ghost use Rattle.std.specs.Prelude.{◌≡◌, map};
    ghost use Rattle.rewriting_forms.specs.Liveness.{live_lists};
    ghost use Rattle.rewrite_passes.specs.Before.{BeforeGroups};
    ghost use Rattle.ir_ast.specs.Operands.{valued};

    ghost Value = { BeforeGroups };

    ghost view = { λ before. record { func = before.func.content; bases = before.bases } };

    ghost invariant = { λ before. before.live ≡ map (map valued) (live_lists before.func.content before.bases) };
}

impl Before {
    /// The function with these tables.
    pub(crate) fn of(func: Func, bases: BaseTable, live: LiveTable) -> Before
        requires { live ≡ map (map valued) (live_lists func.content bases) }
        ensures func { result.func ≡ func.content }
        ensures bases { result.bases ≡ bases }
    {
        Before { func, bases, live }
    }

    /// Gives its parts back.
    pub fn into_parts(self) -> (Func, BaseTable, LiveTable)
        ensures func { result.0.content ≡ self.func }
        ensures bases { result.1 ≡ self.bases }
        ensures live { result.2 ≡ map (map valued) (live_lists self.func self.bases) }
    {
        (self.func, self.bases, self.live)
    }
}

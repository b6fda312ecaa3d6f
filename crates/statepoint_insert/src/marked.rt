//! A function beside the table of its bases and the groups of its calls.

ghost use Rattle.std.specs.Prelude.{◌≡◌};
ghost use Rattle.statepoint_insert.specs.Groups.{groups_of};
ghost use Rattle.statepoint_insert.specs.Marked.{IsReady};

use crate::groups::Group;
use ir_ast::{BaseTable, Func, Operand};
use std::marker::Model;

/// A function with the statepoint groups of its calls, the bases of its values beside it. Each relocate is a further definition of its
/// pointer, so the function isn't in SSA form: operands still name the values of the function before. Contracts see a
/// `MarkedFunction`.
#[derive(Debug, Drop)]
pub struct Marked {
    func: Func,
    bases: BaseTable,
    groups: Vec<Group>,
}

impl Model for Marked {
    ghost use Rattle.std.specs.Prelude.{◌≡◌};
    ghost use Rattle.statepoint_insert.specs.Groups.{groups_of};
    ghost use Rattle.statepoint_insert.specs.Marked.{MarkedFunction, IsReady};

    ghost Value = { MarkedFunction };

    ghost view = { λ marked. record {
      before = marked.func.content;
      table = marked.bases;
      groups = marked.groups.items;
    } };

    ghost invariant = { λ marked. (IsReady marked.func.content marked.bases) × (marked.groups.items ≡ groups_of marked.func.content marked.bases) };
}

impl Marked {
    /// The function with these groups.
    pub(crate) fn of(func: Func, bases: BaseTable, groups: Vec<Group>) -> Marked
        requires ready { IsReady func.content bases }
        requires groups { groups.items ≡ groups_of func.content bases }
        ensures before { result.before ≡ func.content }
        ensures table { result.table ≡ bases }
        ensures groups { result.groups ≡ groups.items }
    {
        Marked {
            func,
            bases,
            groups,
        }
    }

    /// Gives its parts back.
    pub fn into_parts(self) -> (Func, BaseTable, Vec<Group>)
        ensures before { result.0.content ≡ self.before }
        ensures table { result.1 ≡ self.table }
        ensures groups { result.2.items ≡ self.groups }
        ensures ready { IsReady self.before self.table }
        ensures whole { self.groups ≡ groups_of self.before self.table }
    {
        (self.func, self.bases, self.groups)
    }

    /// The function, with plain calls in place of the groups.
    pub fn func(&self) -> &Func
        ensures value { result.now.content ≡ self.now.before }
        ensures ready { IsReady self.now.before self.now.table }
    {
        &self.func
    }

    /// The base of each value of the function.
    pub fn bases(&self) -> &[Operand]
        ensures { result.now ≡ self.now.table }
    {
        self.bases.bases()
    }

    /// The group of each call that isn't of a leaf, in text order.
    pub fn groups(&self) -> &[Group]
        ensures value { result.now ≡ self.now.groups }
        ensures whole { self.now.groups ≡ groups_of self.now.before self.now.table }
    {
        self.groups.as_slice()
    }
}

//! The tables that passes hand on: bases, and live values.

ghost use Rattle.std.specs.Prelude.{◌≡◌, map};

use crate::ops::Operand;
use sp_ids::ValueId;
use std::marker::Model;

/// The base of each value of a function. Contracts see a list of operands, by the value's number.
#[derive(Debug, Drop)]
pub struct BaseTable {
    bases: Vec<Operand>,
}

impl Model for BaseTable {
    ghost use Rattle.std.specs.Prelude.{List};
    ghost use Rattle.ir_ast.specs.declared.ops.Operand.{Operand};

    ghost Value = { List Operand };

    ghost view = { λ table. table.bases.items };
}

impl BaseTable {
    /// The table of these bases.
    pub fn of(bases: Vec<Operand>) -> BaseTable
        ensures { result ≡ bases.items }
    {
        BaseTable { bases }
    }

    /// Gives the bases back.
    pub fn into_parts(self) -> Vec<Operand>
        ensures { result.items ≡ self }
    {
        self.bases
    }

    /// The bases, by the value's number.
    pub fn bases(&self) -> &[Operand]
        ensures { result.now ≡ self.now }
    {
        self.bases.as_slice()
    }
}

/// The values that are live across each call that isn't a leaf, in text order. Contracts see a list of
/// lists.
#[derive(Debug, Drop)]
pub struct LiveTable {
    lists: Vec<Vec<ValueId>>,
}

impl Model for LiveTable {
    ghost use Rattle.std.specs.Prelude.{List, map};
    ghost use Rattle.sp_ids.specs.declared.ids.ValueId.{ValueId};

    ghost Value = { List (List ValueId) };

    ghost view = { λ table. map (λ list. list.items) table.lists.items };
}

impl LiveTable {
    /// The table of these lists.
    pub fn of(lists: Vec<Vec<ValueId>>) -> LiveTable
        ensures { result ≡ map (λ list. list.items) lists.items }
    {
        LiveTable { lists }
    }

    /// Gives the lists back.
    pub fn into_parts(self) -> Vec<Vec<ValueId>>
        ensures { map (λ list. list.items) result.items ≡ self }
    {
        self.lists
    }

    /// The live values of each call.
    pub fn lists(&self) -> &[Vec<ValueId>]
        ensures { map (λ list. list.items) result.now ≡ self.now }
    {
        self.lists.as_slice()
    }
}

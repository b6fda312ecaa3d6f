//! Whether a phi of a block gives the pointer or the base of a pair.

ghost use Rattle.std.specs.Prelude.{◌≡◌, ◌<◌, length, MatchBool, ◌==◌, ◌&&◌, nat_lt};
ghost use Rattle.pair_facts.specs.Lines.{lines_at, named};
ghost use Rattle.fact_tables.specs.Tables.{AreTables};
ghost use Rattle.place_facts.specs.Phis.{IsOfPhi, IsBaseOfPhi, IsLeft, IsBaseLeft};

use fact_tables::homes::{Home, home_of};
use fact_tables::tables::{Tables, front_of};
use ir_ast::{Func, Operand};
use pair_facts::Base;

/// Whether a phi of the block gives the base.
pub(crate) fn is_base_of_phi(func: &Func, tables: &Tables, block: usize, base: Base) -> bool
    requires tables { AreTables func.now.content tables.now }
    requires block { block < length func.now.content.blocks }
    ensures { MatchBool result (IsBaseOfPhi func.now.content block base) (IsBaseLeft (lines_at func.now.content block) base) }
{
    match base {
        Base::Named(operand) => is_of_phi(func, tables, block, operand),
        Base::Any => false,
    }
}

/// Whether a phi of the block gives the operand.
pub(crate) fn is_of_phi(func: &Func, tables: &Tables, block: usize, operand: Operand) -> bool
    requires tables { AreTables func.now.content tables.now }
    requires block { block < length func.now.content.blocks }
    ensures { MatchBool result (IsOfPhi func.now.content block operand) (IsLeft (lines_at func.now.content block) operand) }
{
    match operand {
        Operand::Value(value) => is_value_of_phi(func, tables, block, value.0),
        Operand::Int(_) | Operand::Null | Operand::Fun(_) => false,
    }
}

fn is_value_of_phi(func: &Func, tables: &Tables, block: usize, value: u32) -> bool
    requires tables { AreTables func.now.content tables.now }
    requires block { block < length func.now.content.blocks }
    ensures { MatchBool result (IsOfPhi func.now.content block (named value)) (IsLeft (lines_at func.now.content block) (named value)) }
{
    match home_of(&tables.homes, value) {
        Some(home) => is_below(home, block, front_of(func, tables, block)),
        None => false,
    }
}

fn is_below(home: Home, block: usize, front: usize) -> bool
    ensures { result ≡ (home.block == block && nat_lt home.place front) }
{
    home.block == block && home.place < front
}

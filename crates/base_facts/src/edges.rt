//! What a fact at a block's front asks at the end of a predecessor.

ghost use Rattle.std.specs.Prelude.{◌≡◌, ◌<◌, length};
ghost use Rattle.pair_facts.specs.Lines.{lines_at, phis_in};
ghost use Rattle.pair_facts.specs.Pairs.{at_entry, null_pairs, is_pointer_argument, value_along, along, base_along};
ghost use Rattle.base_facts.specs.Facts.{operand_in, base_in, fact_at};
ghost use Rattle.fact_tables.specs.Tables.{AreTables};
ghost use Rattle.base_facts.specs.Edges.{FindsPhi, place_below};

use crate::facts::{Fact, Pointer, Wanted, fact_at};
use crate::steps::is_own;
use fact_tables::homes::{Home, home_of};
use fact_tables::tables::{Tables, front_of, incoming};
use ir_ast::{Func, Operand};
use pair_facts::Base;
use sp_ids::{BlockId, ValueId};

/// What a fact is at the end of a block from which an edge leads to its block, behind whose phis it stands: none where it
/// names a literal there.
pub(crate) fn along_edge(
    func: &Func,
    tables: &Tables,
    from: BlockId,
    place: usize,
    fact: Fact,
) -> Option<Fact>
    requires tables { AreTables func.now.content tables.now }
    requires block { fact.block < length func.now.content.blocks }
    ensures { let phis = phis_in (lines_at func.now.content fact.block) in
        result ≡ fact_at from.0 place (along from.0 phis (operand_in fact.pointer)) (base_along from.0 phis (base_in fact.base)) }
{
    let operand = pointer_along(func, tables, from, fact.block, fact.pointer);
    let base = wanted_along(func, tables, from, fact.block, fact.base);
    fact_at(from.0 as usize, place, operand, base)
}

fn pointer_along(
    func: &Func,
    tables: &Tables,
    from: BlockId,
    block: usize,
    pointer: Pointer,
) -> Operand
    requires tables { AreTables func.now.content tables.now }
    requires block { block < length func.now.content.blocks }
    ensures { result ≡ along from.0 (phis_in (lines_at func.now.content block)) (operand_in pointer) }
{
    match pointer {
        Pointer::Null => Operand::Null,
        Pointer::Value(value) => value_along(func, tables, from, block, value),
    }
}

fn wanted_along(func: &Func, tables: &Tables, from: BlockId, block: usize, base: Wanted) -> Base
    requires tables { AreTables func.now.content tables.now }
    requires block { block < length func.now.content.blocks }
    ensures { result ≡ base_along from.0 (phis_in (lines_at func.now.content block)) (base_in base) }
{
    match base {
        Wanted::Any => Base::Any,
        Wanted::Null => Base::Named(Operand::Null),
        Wanted::Value(value) => Base::Named(value_along(func, tables, from, block, value)),
    }
}

// What a value was at the end of a block from which an edge leads.
fn value_along(func: &Func, tables: &Tables, from: BlockId, block: usize, value: u32) -> Operand
    requires tables { AreTables func.now.content tables.now }
    requires block { block < length func.now.content.blocks }
    ensures { result ≡ value_along from.0 (phis_in (lines_at func.now.content block)) value }
{
    match phi_of(func, tables, block, value) {
        Some(place) => incoming(func, tables, from, block, place),
        None => Operand::Value(ValueId(value)),
    }
}

// The place of the phi of the block that gives a value, if one does.
fn phi_of(func: &Func, tables: &Tables, block: usize, value: u32) -> Option<usize>
    requires tables { AreTables func.now.content tables.now }
    requires block { block < length func.now.content.blocks }
    ensures { FindsPhi (lines_at func.now.content block) value result }
{
    match home_of(&tables.homes, value) {
        Some(home) => place_below(home, block, front_of(func, tables, block)),
        None => None,
    }
}

fn place_below(home: Home, block: usize, front: usize) -> Option<usize>
    ensures { result ≡ place_below home block front }
{
    if home.block == block && home.place < front {
        Some(home.place)
    } else {
        None
    }
}

/// Whether the fact holds at the entry.
pub(crate) fn holds_at_entry(func: &Func, fact: Fact) -> bool
    ensures { result ≡ at_entry func.now.content (operand_in fact.pointer) (base_in fact.base) }
{
    match fact.pointer {
        Pointer::Null => is_null_base(fact.base),
        Pointer::Value(value) => is_pointer_argument(func, value) && is_own(value, fact.base),
    }
}

fn is_null_base(base: Wanted) -> bool
    ensures { result ≡ null_pairs (base_in base) }
{
    matches!(base, Wanted::Any | Wanted::Null)
}

fn is_pointer_argument(func: &Func, value: u32) -> bool
    ensures { result ≡ is_pointer_argument func.now.content value }
{
    match func.args().get(value as usize) {
        Some(arg) => arg.ty.is_pointer(),
        None => false,
    }
}

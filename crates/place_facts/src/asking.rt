//! What a question asks of the facts that stand behind phis and before no line of a group.

ghost use Rattle.std.specs.Prelude.{◌≡◌, ◌<◌, ◌≤◌, None, length, nat_lt, slice_get};
ghost use Rattle.ir_ast.specs.declared.ops.Operand.TheVariants.{Int};
ghost use Rattle.pair_facts.specs.declared.bases.Base.TheVariants.{Any};
ghost use Rattle.object_meaning.specs.Jumps.{phi_count};
ghost use Rattle.pair_facts.specs.Lines.{lines_at, head_at};
ghost use Rattle.fact_tables.specs.Tables.{AreTables, IsPlace};
ghost use Rattle.place_facts.specs.Spots.{IsNumbered, KnowsSpots};
ghost use Rattle.place_facts.specs.Asks.{IsAskOf, AsksFor, ask_at};

use crate::facts::Question;
use crate::phis::{is_base_of_phi, is_of_phi};
use crate::spots::Spot;
use base_facts::Ask;
use fact_tables::insts::inst_at;
use fact_tables::tables::{Tables, front_of, head_at};
use ir_ast::{Func, Operand};
use pair_facts::Base;
use sp_ids::BlockId;

/// The ask that has the answer to a question; none where no instruction has its number, or a result or a relocate that no
/// statepoint has.
pub(crate) fn ask_of(
    func: &Func,
    tables: &Tables,
    spots: &[Spot],
    question: Question,
) -> Option<Ask>
    requires tables { AreTables func.now.content tables.now }
    requires spots { KnowsSpots func.now.content spots.now }
    ensures { IsAskOf func.now.content question result }
{
    match spot_at(spots, question.place) {
        Some(spot) => ask_for(func, tables, spot, question),
        None => None,
    }
}

fn spot_at(spots: &[Spot], number: u32) -> Option<Spot>
    ensures { result ≡ slice_get spots.now number }
{
    spots.get(number as usize).copied()
}

fn ask_for(func: &Func, tables: &Tables, spot: Spot, question: Question) -> Option<Ask>
    requires tables { AreTables func.now.content tables.now }
    requires spot { IsNumbered func.now.content question.place spot.block spot.place }
    ensures { IsAskOf func.now.content question result }
{
    if is_phi_at(func, tables, spot) {
        return Some(ask_at_phi(func, tables, spot, question));
    }
    match head_at(func, tables, spot.block, spot.place) {
        Some(head) => Some(ask(func, spot.block, head, question.pointer, question.base)),
        None => ask_at_line(func, spot, question),
    }
}

fn is_phi_at(func: &Func, tables: &Tables, spot: Spot) -> bool
    requires tables { AreTables func.now.content tables.now }
    requires block { spot.block < length func.now.content.blocks }
    ensures { result ≡ nat_lt spot.place (phi_count (lines_at func.now.content spot.block)) }
{
    spot.place < front_of(func, tables, spot.block)
}

// What isn't given by a phi of the block is behind the phis what it is before them. The path that comes to the block first
// has met none of them, so that nothing stands of what they give.
fn ask_at_phi(func: &Func, tables: &Tables, spot: Spot, question: Question) -> Ask
    requires tables { AreTables func.now.content tables.now }
    requires spot { IsNumbered func.now.content question.place spot.block spot.place }
    requires phi { spot.place < phi_count (lines_at func.now.content spot.block) }
    ensures { AsksFor func.now.content question result }
{
    if is_of_phi(func, tables, spot.block, question.pointer) {
        return ask_for_nothing(func, spot.block);
    }
    if is_base_of_phi(func, tables, spot.block, question.base) {
        return ask_for_nothing(func, spot.block);
    }
    ask(func, spot.block, 0, question.pointer, question.base)
}

// A pair that stands on no path.
fn ask_for_nothing(func: &Func, block: usize) -> Ask
    requires { IsPlace func.now.content block 0 }
    ensures { result ≡ ask_at block 0 (Int 0) Any }
{
    ask(func, block, 0, Operand::Int(0), Base::Any)
}

fn ask_at_line(func: &Func, spot: Spot, question: Question) -> Option<Ask>
    requires spot { IsNumbered func.now.content question.place spot.block spot.place }
    requires past { phi_count (lines_at func.now.content spot.block) ≤ spot.place }
    requires none { head_at (lines_at func.now.content spot.block) spot.place ≡ None }
    ensures { IsAskOf func.now.content question result }
{
    if inst_at(func, spot.block, spot.place).op().is_member() {
        None
    } else {
        Some(ask(
            func,
            spot.block,
            spot.place,
            question.pointer,
            question.base,
        ))
    }
}

fn ask(func: &Func, block: usize, place: usize, pointer: Operand, base: Base) -> Ask
    requires { IsPlace func.now.content block place }
    ensures { result ≡ ask_at block place pointer base }
{
    let _blocks = func.blocks();
    Ask {
        block: BlockId(block as u32),
        place: place as u32,
        pointer,
        base,
    }
}

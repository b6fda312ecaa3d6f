//! The tables of a function, and what they are asked.

ghost use Rattle.std.specs.Prelude.{◌≡◌, ◌<◌, length, IfOk};
ghost use Rattle.object_meaning.specs.Jumps.{phi_count};
ghost use Rattle.pair_facts.specs.Lines.{lines_at, line_in, head_at};
ghost use Rattle.pair_facts.specs.Pairs.{incoming};
ghost use Rattle.pair_facts.specs.Segments.{start_at};
ghost use Rattle.fact_tables.specs.Groups.{is_based};
ghost use Rattle.fact_tables.specs.Tables.{AreTables, AreNotes, IsPlace, FindsWithin, place_between};

use crate::homes::{Home, home_of, homes};
use crate::insts::inst_at;
use crate::notes::{Notes, notes_of};
use crate::phis;
use ir_ast::{Func, Operand};
use sp_ids::{BlockId, Memory};
use std::alloc::Global;

/// Where values are defined, and the notes on each block.
#[derive(Drop)]
pub struct Tables {
    /// By value; arguments have no home.
    pub homes: Vec<Option<Home>>,
    /// By block.
    pub notes: Vec<Notes>,
}

/// The tables of a function.
pub fn tables_of(alloc: Global, func: &Func) -> Result<Tables, Memory>
    ensures { IfOk result (λ tables. AreTables func.now.content tables) }
{
    let homes = homes(alloc, func)?;
    let notes = all_notes(alloc, func)?;
    Ok(Tables { homes, notes })
}

fn all_notes(alloc: Global, func: &Func) -> Result<Vec<Notes>, Memory>
    ensures { IfOk result (λ notes. AreNotes func.now.content (length func.now.content.blocks) notes.items) }
{
    let mut notes = Vec::new(alloc);
    for (number, block) in func.blocks().iter().enumerate() {
        notes.push(notes_of(alloc, func, number, block)?)?;
    }
    Ok(notes)
}

/// How many phis stand first in a block.
pub fn front_of(func: &Func, tables: &Tables, block: usize) -> usize
    requires tables { AreTables func.now.content tables.now }
    requires block { block < length func.now.content.blocks }
    ensures { result ≡ phi_count (lines_at func.now.content block) }
{
    tables.notes[block].front
}

/// The place behind the last statepoint before this place of a block, or 0.
pub fn start_at(func: &Func, tables: &Tables, block: usize, place: usize) -> usize
    requires tables { AreTables func.now.content tables.now }
    requires place { IsPlace func.now.content block place }
    ensures { result ≡ start_at (lines_at func.now.content block) place }
{
    tables.notes[block].starts[place]
}

/// The statepoint whose group the line at this place of a block is of.
pub fn head_at(func: &Func, tables: &Tables, block: usize, place: usize) -> Option<usize>
    requires tables { AreTables func.now.content tables.now }
    requires block { block < length func.now.content.blocks }
    requires place { place < length (lines_at func.now.content block) }
    ensures { result ≡ head_at (lines_at func.now.content block) place }
{
    tables.notes[block].heads[place]
}

/// Whether the group of the line at this place of a block keeps the line's base entry as a base.
pub fn is_based(func: &Func, tables: &Tables, block: usize, place: usize) -> bool
    requires tables { AreTables func.now.content tables.now }
    requires block { block < length func.now.content.blocks }
    requires place { place < length (lines_at func.now.content block) }
    ensures { result ≡ is_based (lines_at func.now.content block) place }
{
    tables.notes[block].based[place]
}

/// The operand of the phi at this place of a block on an edge from a block.
pub fn incoming(func: &Func, tables: &Tables, from: BlockId, block: usize, place: usize) -> Operand
    requires tables { AreTables func.now.content tables.now }
    requires block { block < length func.now.content.blocks }
    requires place { place < phi_count (lines_at func.now.content block) }
    ensures { result ≡ incoming from.0 (line_in (lines_at func.now.content block) place).inst }
{
    let phi = inst_at(func, block, place);
    phis::incoming(from, phi, &tables.notes[block].phis[place])
}

/// Where a value is defined behind the last statepoint before a place of a block and the block's phis, if it is.
pub fn within(func: &Func, tables: &Tables, block: usize, place: usize, value: u32) -> Option<usize>
    requires tables { AreTables func.now.content tables.now }
    requires place { IsPlace func.now.content block place }
    ensures { FindsWithin (lines_at func.now.content block) place value result }
{
    let first = start_at(func, tables, block, place).max(front_of(func, tables, block));
    match home_of(&tables.homes, value) {
        Some(home) => place_between(home, block, first, place),
        None => None,
    }
}

fn place_between(home: Home, block: usize, first: usize, place: usize) -> Option<usize>
    ensures { result ≡ place_between home block first place }
{
    if home.block == block && first <= home.place && home.place < place {
        Some(home.place)
    } else {
        None
    }
}

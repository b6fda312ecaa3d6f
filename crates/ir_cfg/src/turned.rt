//! A graph turned round: predecessors out of successors.

ghost use Rattle.std.specs.Prelude.{◌≡◌, ◌<◌, ◌^◌, ◌+◌, ◌-◌, ◌≤◌, length, sum, IfOk, slice_index, slice_set};
ghost use Rattle.std.specs.List.{All};
ghost use Rattle.ir_cfg.specs.Graphs.{succs_of};
ghost use Rattle.ir_cfg.specs.Turned.{LeadsInside, IsTurned};
ghost use Rattle.ir_cfg.specs.Filled.{AreCounts, AddsUp, AreEnds, AreRows, HasRoom, IsFilledFrom, Enters, Puts};

use crate::rows::Rows;
use sp_ids::{BlockId, Memory};
use std::alloc::Global;

// Rows that are filled from their ends: what a row has stands between its cursor and its stop.
#[derive(Drop)]
pub(crate) struct Filling {
    stops: Vec<usize>,
    cursors: Vec<usize>,
    items: Vec<BlockId>,
}

/// The rows of the edges into each block: one entry per edge, in text order.
pub(crate) fn turned(alloc: Global, succs: &Rows) -> Result<Rows, Memory>
    requires targets { LeadsInside succs.now }
    requires few { length succs.now < 2 ^ 32 }
    ensures { IfOk result (λ rows. IsTurned succs.now rows) }
{
    let mut filling = empty(alloc, succs)?;
    fill(succs, &mut filling);
    Ok(Rows::of(filling.stops, filling.items))
}

// Rows without an entry, with room for one per edge.
fn empty(alloc: Global, succs: &Rows) -> Result<Filling, Memory>
    requires { LeadsInside succs.now }
    ensures { IfOk result (λ filling. IsFilledFrom succs.now (length succs.now) filling) }
{
    let stops = ends(alloc, succs)?;
    let cursors = Vec::from_slice(alloc, stops.as_slice())?;
    let labels = succs.items();
    let items = unfilled(alloc, labels.len())?;
    Ok(Filling {
        stops,
        cursors,
        items,
    })
}

fn unfilled(alloc: Global, count: usize) -> Result<Vec<BlockId>, Memory>
    ensures { IfOk result (λ items. length items.items ≡ count) }
{
    Ok(vec![in alloc; BlockId(0); count]?)
}

// Where the row of each block ends.
fn ends(alloc: Global, succs: &Rows) -> Result<Vec<usize>, Memory>
    requires { LeadsInside succs.now }
    ensures { IfOk result (λ ends. AreEnds succs.now ends.items) }
{
    let labels = succs.items();
    let mut ends = counts(alloc, succs.len(), labels)?;
    add_up(&mut ends);
    Ok(ends)
}

// How many labels name each block.
fn counts(alloc: Global, count: usize, labels: &[BlockId]) -> Result<Vec<usize>, Memory>
    requires { All (λ label. label.0 < count) labels.now }
    ensures whole { IfOk result (λ counts. length counts.items ≡ count) }
    ensures counts { IfOk result (λ counts. AreCounts labels.now counts.items) }
{
    let mut counts = vec![in alloc; 0; count]?;
    for label in labels {
        count_one(&mut counts, *label);
    }
    Ok(counts)
}

fn count_one(counts: &mut Vec<usize>, block: BlockId)
    requires inside { block.0 < length counts.old.items }
    requires fits { slice_index counts.old.items block.0 + 1 < 2 ^ 64 }
    ensures { counts.new.items ≡ slice_set counts.old.items block.0 (slice_index counts.old.items block.0 + 1) }
{
    let count = counts[block.0 as usize];
    counts[block.0 as usize] = count + 1;
}

// Makes each count the sum of the counts up to it.
fn add_up(counts: &mut Vec<usize>)
    requires { sum counts.old.items < 2 ^ 64 }
    ensures { AddsUp counts.old.items counts.new.items }
{
    let mut end = 0;
    for place in 0..counts.len() {
        end += counts[place];
        counts[place] = end;
    }
}

// Enters each edge in the row of the block where it leads, those of the last block first.
fn fill(succs: &Rows, filling: &mut Filling)
    requires inside { LeadsInside succs.now }
    requires few { length succs.now < 2 ^ 32 }
    requires empty { IsFilledFrom succs.now (length succs.now) filling.old }
    ensures { IsFilledFrom succs.now 0 filling.new }
{
    let mut from = succs.len();
    while from > 0 {
        from -= 1;
        enter(BlockId(from as u32), succs.row(from), filling);
    }
}

// One entry more in the row of each block where an edge leads.
fn enter(from: BlockId, row: &[BlockId], filling: &mut Filling)
    requires rows { AreRows filling.old }
    requires room { HasRoom row.now filling.old }
    ensures { Enters from row.now filling.old filling.new }
{
    for to in row {
        put(from, *to, filling);
    }
}

fn put(from: BlockId, to: BlockId, filling: &mut Filling)
    requires inside { to.0 < length filling.old.cursors.items }
    requires positive { 0 < slice_index filling.old.cursors.items to.0 }
    requires within { slice_index filling.old.cursors.items to.0 ≤ length filling.old.items.items }
    ensures { Puts from to filling.old filling.new }
{
    let place = filling.cursors[to.0 as usize] - 1;
    filling.cursors[to.0 as usize] = place;
    filling.items[place] = from;
}

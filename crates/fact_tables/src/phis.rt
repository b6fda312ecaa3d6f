//! What each phi has from each edge.

ghost use Rattle.std.specs.Prelude.{◌≡◌, ◌<◌, ◌≤◌, ◌==◌, length, position, nat_eq, IfOk};
ghost use Rattle.std.specs.Option.{option_map_or};
ghost use Rattle.indexmap.specs.IndexMap.{get};
ghost use Rattle.pair_facts.specs.Lines.{lines_at};
ghost use Rattle.pair_facts.specs.Pairs.{incoming};
ghost use Rattle.fact_tables.specs.Phis.{KnowsEntries, AreEntries, ArePhis};

use crate::insts::{inst_at, operand_at};
use indexmap::IndexMap;
use ir_ast::{Func, Inst, Operand};
use sp_ids::{BlockId, Memory};
use std::alloc::Global;

/// The operands of a phi by the blocks of its labels.
pub type Entries = IndexMap<u32, Operand>;

// A phi with no more labels is searched one by one.
const FEW: usize = 8;

/// The operands of the first phis of a block, where one has many.
pub(crate) fn phis_of(
    alloc: Global,
    func: &Func,
    number: usize,
    front: usize,
) -> Result<Vec<Option<Entries>>, Memory>
    requires block { number < length func.now.content.blocks }
    requires front { front ≤ length (lines_at func.now.content number) }
    ensures { IfOk result (λ phis. ArePhis (lines_at func.now.content number) front phis.items) }
{
    let mut phis = Vec::new(alloc);
    for place in 0..front {
        phis.push(entries_of(alloc, inst_at(func, number, place))?)?;
    }
    Ok(phis)
}

fn entries_of(alloc: Global, phi: &Inst) -> Result<Option<Entries>, Memory>
    ensures { IfOk result (λ entries. AreEntries phi.now entries) }
{
    if phi.labels().len() <= FEW {
        return Ok(None);
    }
    let entries = all_entries(alloc, phi.labels(), phi.operands())?;
    Ok(Some(entries))
}

// Of entries with one label the first counts, so it is put in last.
fn all_entries(alloc: Global, labels: &[BlockId], operands: &[Operand]) -> Result<Entries, Memory>
    ensures { IfOk result (λ entries. KnowsEntries labels.now operands.now 0 entries) }
{
    let mut entries = IndexMap::new(alloc);
    for done in 0..labels.len() {
        let place = labels.len() - 1 - done;
        entries.insert(labels[place].0, operand_at(operands, place))?;
    }
    Ok(entries)
}

/// The operand of a phi on an edge from this block.
pub(crate) fn incoming(from: BlockId, phi: &Inst, entries: &Option<Entries>) -> Operand
    requires { AreEntries phi.now entries.now }
    ensures { result ≡ incoming from.0 phi.now }
{
    match entries {
        Some(entries) => entry_of(from, entries),
        None => first_incoming(from, phi),
    }
}

fn entry_of(from: BlockId, entries: &Entries) -> Operand
    ensures { result ≡ option_map_or (λ operand. operand) (get nat_eq entries.now from.0) Operand.Null }
{
    entries.get(&from.0).copied().unwrap_or(Operand::Null)
}

fn first_incoming(from: BlockId, phi: &Inst) -> Operand
    ensures { result ≡ incoming from.0 phi.now }
{
    match position_of(from, phi.labels()) {
        Some(place) => phi.operand_at(place),
        None => Operand::Null,
    }
}

fn position_of(block: BlockId, labels: &[BlockId]) -> Option<usize>
    ensures { result ≡ position (λ label. label.0 == block.0) labels.now }
{
    labels.iter().position(|label| label.0 == block.0)
}

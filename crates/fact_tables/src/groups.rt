//! What a statepoint group keeps of the pairs before it.

ghost use Rattle.std.specs.Prelude.{◌≡◌, ◌<◌, ◌+◌, suc, [], Some, drop, length, IfOk, slice_get};
ghost use Rattle.ir_ast.specs.Faults.GroupShape.{is_statepoint};
ghost use Rattle.object_meaning.specs.Frames.{group_length};
ghost use Rattle.pair_facts.specs.Lines.{lines_at, line_in, head_at, group_in};
ghost use Rattle.fact_tables.specs.Notes.{head_before, told};
ghost use Rattle.fact_tables.specs.Groups.{IsKept, Keeps, KeepsBoth, IsGroupOf, is_based, is_based_by};

use crate::insts::inst_at;
use indexmap::IndexSet;
use ir_ast::{Block, Func, Inst};
use sp_ids::Memory;
use std::alloc::Global;

/// What the relocates of a group keep, by the numbers of "gc-live" entries.
#[derive(Drop)]
pub struct Kept {
    /// The entries that a relocate names both as base and as derived pointer.
    pub bases: IndexSet<u64>,
    /// The entries that a relocate names as derived pointer.
    pub values: IndexSet<u64>,
}

/// The group that a line is of: the place of its statepoint, and what its relocates keep.
#[derive(Drop)]
pub struct Group {
    pub head: usize,
    pub kept: Kept,
}

/// The group of the line at a place, given that of the line before.
pub fn group_here(
    alloc: Global,
    func: &Func,
    block: usize,
    place: usize,
    before: Option<Group>,
) -> Result<Option<Group>, Memory>
    requires block { block < length func.now.content.blocks }
    requires place { place < length (lines_at func.now.content block) }
    requires before { IsGroupOf (lines_at func.now.content block) (head_before (lines_at func.now.content block) place) before }
    ensures { IfOk result (λ here. IsGroupOf (lines_at func.now.content block) (head_at (lines_at func.now.content block) place) here) }
{
    let op = inst_at(func, block, place).op();
    if op.is_statepoint() {
        let kept = kept_by(alloc, func, block, place)?;
        return Ok(Some(Group { head: place, kept }));
    }
    if op.is_member() { Ok(before) } else { Ok(None) }
}

fn kept_by(alloc: Global, func: &Func, block: usize, head: usize) -> Result<Kept, Memory>
    requires block { block < length func.now.content.blocks }
    requires head { head < length (lines_at func.now.content block) }
    ensures { IfOk result (λ kept. IsKept (group_in (lines_at func.now.content block) head) kept) }
{
    let end = group_end(func, block, head);
    let mut kept = nothing_kept(alloc);
    for place in head + 1..end {
        keep(inst_at(func, block, place), &mut kept)?;
    }
    Ok(kept)
}

fn nothing_kept(alloc: Global) -> Kept
    ensures bases { result.bases.keys ≡ [] }
    ensures values { result.values.keys ≡ [] }
{
    Kept {
        bases: IndexSet::new(alloc),
        values: IndexSet::new(alloc),
    }
}

// The place behind the group of a statepoint.
fn group_end(func: &Func, block: usize, head: usize) -> usize
    requires block { block < length func.now.content.blocks }
    requires head { head < length (lines_at func.now.content block) }
    ensures { result ≡ suc head + group_length (drop (suc head) (lines_at func.now.content block)) }
{
    let insts = func.blocks()[block].insts();
    for place in head + 1..insts.len() {
        let inst = &insts[place];
        if !inst.op().is_member() {
            return place;
        }
    }
    insts.len()
}

fn keep(inst: &Inst, kept: &mut Kept) -> Result<(), Memory>
    ensures { IfOk result (λ _. Keeps inst.now kept.old kept.new) }
{
    if inst.op().is_relocate() {
        keep_both(inst.index_at(1), inst.index_at(2), kept)
    } else {
        Ok(())
    }
}

fn keep_both(base: u64, derived: u64, kept: &mut Kept) -> Result<(), Memory>
    ensures { IfOk result (λ _. KeepsBoth base derived kept.old kept.new) }
{
    kept.values.insert(derived)?;
    if base == derived {
        kept.bases.insert(base)?;
        Ok(())
    } else {
        Ok(())
    }
}

/// For each line of a block whether a relocate of its group keeps the line's base entry as a base.
pub(crate) fn based_of(
    alloc: Global,
    func: &Func,
    number: usize,
    block: &Block,
) -> Result<Vec<bool>, Memory>
    requires block { slice_get func.now.content.blocks number ≡ Some block.now }
    ensures { let lines = lines_at func.now.content number in
        IfOk result (λ based. based.items ≡ told (is_based lines) (length lines)) }
{
    let mut based = Vec::new(alloc);
    let mut group = None;
    for place in 0..block.insts().len() {
        group = group_here(alloc, func, number, place, group)?;
        based.push(is_based(func, number, place, &group))?;
    }
    Ok(based)
}

fn is_based(func: &Func, block: usize, place: usize, group: &Option<Group>) -> bool
    requires block { block < length func.now.content.blocks }
    requires place { place < length (lines_at func.now.content block) }
    requires group { IsGroupOf (lines_at func.now.content block) (head_at (lines_at func.now.content block) place) group.now }
    ensures { result ≡ is_based (lines_at func.now.content block) place }
{
    is_based_by(inst_at(func, block, place), group)
}

fn is_based_by(inst: &Inst, group: &Option<Group>) -> bool
    ensures { result ≡ is_based_by inst.now group.now }
{
    match group {
        Some(group) => group.kept.bases.contains(&inst.index_at(1)),
        None => false,
    }
}

//! Where the search of each value begins: its uses above its own block's definition.

ghost use Rattle.std.specs.Prelude.{◌≡◌, ◌<◌, ◌≤◌, ◌+◌, length, IfOk, slice_get, Some, []};
ghost use Rattle.std.specs.List.{flat_map, All};
ghost use Rattle.object_meaning.specs.Lines.{registers_of};
ghost use Rattle.live_sets.specs.Starts.{Grown, GrownAt, AreStarts, is_given, adds, use_adds, entry_adds, entries_add, own_adds, line_adds, block_adds};

use crate::numbers::following;
use crate::uses::{is_phi, uses_of};
use crate::values::is_marked;
use ir_ast::{Func, Inst, Operand, Ty};
use sp_ids::{BlockId, Memory, ValueId};
use std::alloc::Global;

/// A node of the graph of places, and which values are given before in its block: those from one number up to another.
#[derive(Clone, Copy)]
pub(crate) struct Spot {
    pub(crate) node: usize,
    pub(crate) first: usize,
    pub(crate) next: usize,
}

/// For each wanted value that is a pointer, the places from which walks backwards along edges find where it is live: the front of a
/// block that uses it before giving it, and the end of a block for which a phi's entry uses it.
pub(crate) fn starts(
    alloc: Global,
    func: &Func,
    marks: &[bool],
    bases: &[Operand],
    wanted: &[bool],
    firsts: &[usize],
) -> Result<Vec<Vec<usize>>, Memory>
    requires firsts { firsts.now ≡ registers_of func.now.content }
    ensures { IfOk result (λ starts. AreStarts func.now.content marks.now bases.now wanted.now starts.items) }
{
    let mut starts = empty_lists(alloc, marks.len())?;
    let count = func.blocks().len();
    for (number, block) in func.blocks().iter().enumerate() {
        let node = count + number;
        add_block(
            marks,
            bases,
            wanted,
            node,
            firsts[number],
            block.insts(),
            &mut starts,
        )?;
    }
    Ok(starts)
}

/// So many empty lists.
pub(crate) fn empty_lists<T: Drop>(alloc: Global, count: usize) -> Result<Vec<Vec<T>>, Memory>
    ensures whole { IfOk result (λ lists. length lists.items ≡ count) }
    ensures empty { IfOk result (λ lists. All (λ list. list.items ≡ []) lists.items) }
{
    let mut lists = Vec::with_capacity(alloc, count)?;
    for _ in 0..count {
        lists.push(Vec::new(alloc))?;
    }
    Ok(lists)
}

fn add_block(
    marks: &[bool],
    bases: &[Operand],
    wanted: &[bool],
    node: usize,
    first: usize,
    insts: &[Inst],
    starts: &mut Vec<Vec<usize>>,
) -> Result<(), Memory>
    requires whole { length starts.old.items ≡ length marks.now }
    requires few { first + length insts.now < 18446744073709551615 }
    ensures { IfOk result (λ _. Grown wanted.now starts.old.items starts.new.items (λ v. block_adds marks.now bases.now node first first v insts.now)) }
{
    let mut next = first;
    for inst in insts {
        add_line(
            marks,
            bases,
            wanted,
            Spot { node, first, next },
            inst,
            starts,
        )?;
        next = following(next, inst);
    }
    Ok(())
}

fn add_line(
    marks: &[bool],
    bases: &[Operand],
    wanted: &[bool],
    spot: Spot,
    inst: &Inst,
    starts: &mut Vec<Vec<usize>>,
) -> Result<(), Memory>
    requires whole { length starts.old.items ≡ length marks.now }
    ensures { IfOk result (λ _. Grown wanted.now starts.old.items starts.new.items (λ v. line_adds marks.now bases.now spot v inst.now)) }
{
    add_own(marks, bases, wanted, spot, inst, starts)?;
    add_bundle(marks, bases, wanted, spot, inst.bundle(), starts)
}

fn add_own(
    marks: &[bool],
    bases: &[Operand],
    wanted: &[bool],
    spot: Spot,
    inst: &Inst,
    starts: &mut Vec<Vec<usize>>,
) -> Result<(), Memory>
    requires whole { length starts.old.items ≡ length marks.now }
    ensures { IfOk result (λ _. Grown wanted.now starts.old.items starts.new.items (λ v. own_adds marks.now bases.now spot v inst.now)) }
{
    if is_phi(inst.op()) {
        return add_entries(marks, bases, wanted, inst.labels(), inst.operands(), starts);
    }
    add_operands(marks, bases, wanted, spot, inst.operands(), starts)
}

// An entry of a phi is a use at the end of the block of its label.
fn add_entries(
    marks: &[bool],
    bases: &[Operand],
    wanted: &[bool],
    labels: &[BlockId],
    operands: &[Operand],
    starts: &mut Vec<Vec<usize>>,
) -> Result<(), Memory>
    requires whole { length starts.old.items ≡ length marks.now }
    ensures { IfOk result (λ _. Grown wanted.now starts.old.items starts.new.items (λ v. entries_add marks.now bases.now v labels.now operands.now)) }
{
    for (index, operand) in operands.iter().enumerate() {
        add_entry(
            marks,
            bases,
            wanted,
            label_at(labels, index),
            *operand,
            starts,
        )?;
    }
    Ok(())
}

fn add_entry(
    marks: &[bool],
    bases: &[Operand],
    wanted: &[bool],
    label: Option<BlockId>,
    operand: Operand,
    starts: &mut Vec<Vec<usize>>,
) -> Result<(), Memory>
    requires whole { length starts.old.items ≡ length marks.now }
    ensures { IfOk result (λ _. Grown wanted.now starts.old.items starts.new.items (λ v. entry_adds marks.now bases.now v label operand)) }
{
    match label {
        Some(label) => add_operand(marks, bases, wanted, end_of(label), operand, starts),
        None => Ok(()),
    }
}

fn label_at(labels: &[BlockId], index: usize) -> Option<BlockId>
    ensures { result ≡ slice_get labels.now index }
{
    labels.get(index).copied()
}

// The end of a block, where no value is taken as given.
fn end_of(block: BlockId) -> Spot
    ensures { result ≡ record { node = block.0; first = 0; next = 0 } }
{
    Spot {
        node: block.0 as usize,
        first: 0,
        next: 0,
    }
}

fn add_operands(
    marks: &[bool],
    bases: &[Operand],
    wanted: &[bool],
    spot: Spot,
    operands: &[Operand],
    starts: &mut Vec<Vec<usize>>,
) -> Result<(), Memory>
    requires whole { length starts.old.items ≡ length marks.now }
    ensures { IfOk result (λ _. Grown wanted.now starts.old.items starts.new.items (λ v. flat_map (adds marks.now bases.now spot v) operands.now)) }
{
    for operand in operands {
        add_operand(marks, bases, wanted, spot, *operand, starts)?;
    }
    Ok(())
}

fn add_bundle(
    marks: &[bool],
    bases: &[Operand],
    wanted: &[bool],
    spot: Spot,
    bundle: &[(Ty, Operand)],
    starts: &mut Vec<Vec<usize>>,
) -> Result<(), Memory>
    requires whole { length starts.old.items ≡ length marks.now }
    ensures { IfOk result (λ _. Grown wanted.now starts.old.items starts.new.items (λ v. flat_map (λ entry. adds marks.now bases.now spot v entry.1) bundle.now)) }
{
    for (_, operand) in bundle {
        add_operand(marks, bases, wanted, spot, *operand, starts)?;
    }
    Ok(())
}

fn add_operand(
    marks: &[bool],
    bases: &[Operand],
    wanted: &[bool],
    spot: Spot,
    operand: Operand,
    starts: &mut Vec<Vec<usize>>,
) -> Result<(), Memory>
    requires whole { length starts.old.items ≡ length marks.now }
    ensures { IfOk result (λ _. Grown wanted.now starts.old.items starts.new.items (λ v. adds marks.now bases.now spot v operand)) }
{
    let used = uses_of(marks, bases, operand);
    add_use(marks, wanted, spot, used.itself, starts)?;
    add_use(marks, wanted, spot, used.base, starts)
}

fn add_use(
    marks: &[bool],
    wanted: &[bool],
    spot: Spot,
    value: Option<ValueId>,
    starts: &mut Vec<Vec<usize>>,
) -> Result<(), Memory>
    requires whole { length starts.old.items ≡ length marks.now }
    ensures { IfOk result (λ _. Grown wanted.now starts.old.items starts.new.items (λ v. use_adds marks.now spot value v)) }
{
    let Some(value) = value else {
        return Ok(());
    };
    let number = value.0 as usize;
    if !is_marked(wanted, number) {
        return Ok(());
    }
    if number < marks.len() && marks[number] && !is_given(spot, number) {
        add_to(starts, number, spot.node)?;
    }
    Ok(())
}

fn is_given(spot: Spot, number: usize) -> bool
    ensures { result ≡ is_given spot number }
{
    spot.first <= number && number < spot.next
}

/// Adds an item to one of the lists.
pub(crate) fn add_to<T: Drop>(lists: &mut Vec<Vec<T>>, place: usize, item: T) -> Result<(), Memory>
    requires { place < length lists.old.items }
    ensures { IfOk result (λ _. GrownAt lists.old.items lists.new.items place item) }
{
    lists[place].push(item)?;
    Ok(())
}

//! The pairs that the lines of a function rely on, in text order.

ghost use Rattle.std.specs.Prelude.{◌≡◌, ◌+◌, ◌++◌, ◌↔◌, Some, map, IfOk, slice_get};
ghost use Rattle.std.specs.List.{Contains};
ghost use Rattle.std.specs.Option.{option_copied};
ghost use Rattle.pair_facts.specs.Uses.{escaping};
ghost use Rattle.used_pairs.specs.Lists.{IsUse, AreUsed, used_of, own_used, of_head, relocated_used, checked_used, compared_used, listed};

use crate::escaping::escaping;
use crate::groups::entries_pair;
use crate::helpers::{Pair, checked, compared};
use fact_tables::notes::head_here;
use ir_ast::{Block, Func, Inst, Operand};
use sp_ids::Memory;
use std::alloc::Global;

/// A pair that a line uses: which pointer with which base, judged before which line, and the code of the verifier's fault
/// where the two are fresh but don't make a pair.
#[derive(Clone, Copy, Debug, PartialEq, Eq)]
pub struct UsedPair {
    pub block: usize,
    /// The place of the line in its block.
    pub place: usize,
    /// The place before which the pair is judged: for a relocate that of its statepoint.
    pub at: usize,
    /// 2 at a relocate, 3 at a `gc_check`, 4 at a `gc_same`, 5 where a pointer is stored, passed, returned or compared.
    pub code: u8,
    pub address: Operand,
    pub base: Operand,
}

/// The pairs that the lines of a function use, in text order.
pub fn used_pairs(alloc: Global, func: &Func) -> Result<Vec<UsedPair>, Memory>
    ensures { IfOk result (λ used. (pair : UsedPair) → Contains used.items pair ↔ IsUse func.now.content pair) }
{
    let mut used = Vec::new(alloc);
    for (number, block) in func.blocks().iter().enumerate() {
        add_block(alloc, func, number, block, &mut used)?;
    }
    Ok(used)
}

fn add_block(
    alloc: Global,
    func: &Func,
    number: usize,
    block: &Block,
    used: &mut Vec<UsedPair>,
) -> Result<(), Memory>
    requires block { slice_get func.now.content.blocks number ≡ Some block.now }
    requires used { AreUsed func.now.content number 0 used.old.items }
    ensures { IfOk result (λ _. AreUsed func.now.content (number + 1) 0 used.new.items) }
{
    let insts = block.insts();
    let mut head = None;
    for (place, inst) in insts.iter().enumerate() {
        head = head_here(inst.op(), place, head);
        add_line(alloc, number, place, inst, insts, head, used)?;
    }
    Ok(())
}

fn add_line(
    alloc: Global,
    block: usize,
    place: usize,
    inst: &Inst,
    insts: &[Inst],
    head: Option<usize>,
    used: &mut Vec<UsedPair>,
) -> Result<(), Memory>
    ensures { IfOk result (λ _. used.new.items ≡ listed used.old.items block place inst.now insts.now head) }
{
    add_relocated(block, place, inst, insts, head, used)?;
    add_checked(block, place, inst, used)?;
    add_compared(block, place, inst, used)?;
    add_escaping(alloc, block, place, inst, used)?;
    Ok(())
}

fn used_pair(block: usize, place: usize, at: usize, code: u8, pair: Pair) -> UsedPair
    ensures { result ≡ used_of block place at code pair }
{
    UsedPair {
        block,
        place,
        at,
        code,
        address: pair.address,
        base: pair.base,
    }
}

fn add_relocated(
    block: usize,
    place: usize,
    inst: &Inst,
    insts: &[Inst],
    head: Option<usize>,
    used: &mut Vec<UsedPair>,
) -> Result<(), Memory>
    ensures { IfOk result (λ _. used.new.items ≡ used.old.items ++ relocated_used block place inst.now insts.now head) }
{
    match head {
        Some(head) => add_of_head(block, place, inst, insts.get(head), head, used),
        None => Ok(()),
    }
}

fn add_of_head(
    block: usize,
    place: usize,
    inst: &Inst,
    statepoint: Option<&Inst>,
    head: usize,
    used: &mut Vec<UsedPair>,
) -> Result<(), Memory>
    ensures { IfOk result (λ _. used.new.items ≡ used.old.items ++ of_head block place inst.now (option_copied statepoint.entry) head) }
{
    match statepoint {
        Some(statepoint) => add_entries(block, place, inst, statepoint, head, used),
        None => Ok(()),
    }
}

fn add_entries(
    block: usize,
    place: usize,
    inst: &Inst,
    statepoint: &Inst,
    head: usize,
    used: &mut Vec<UsedPair>,
) -> Result<(), Memory>
    ensures { IfOk result (λ _. used.new.items ≡ used.old.items ++ of_head block place inst.now (Some statepoint.now) head) }
{
    if inst.op().is_relocate() {
        used.push(used_pair(block, place, head, 2, entries_pair(inst, statepoint)))?;
        Ok(())
    } else {
        Ok(())
    }
}

fn add_checked(
    block: usize,
    place: usize,
    inst: &Inst,
    used: &mut Vec<UsedPair>,
) -> Result<(), Memory>
    ensures { IfOk result (λ _. used.new.items ≡ used.old.items ++ checked_used block place inst.now) }
{
    match checked(inst) {
        Some(pair) => {
            used.push(used_pair(block, place, place, 3, pair))?;
            Ok(())
        }
        None => Ok(()),
    }
}

fn add_compared(
    block: usize,
    place: usize,
    inst: &Inst,
    used: &mut Vec<UsedPair>,
) -> Result<(), Memory>
    ensures { IfOk result (λ _. used.new.items ≡ used.old.items ++ compared_used block place inst.now) }
{
    match compared(inst) {
        Some((first, second)) => {
            used.push(used_pair(block, place, place, 4, first))?;
            used.push(used_pair(block, place, place, 4, second))?;
            Ok(())
        }
        None => Ok(()),
    }
}

fn add_escaping(
    alloc: Global,
    block: usize,
    place: usize,
    inst: &Inst,
    used: &mut Vec<UsedPair>,
) -> Result<(), Memory>
    ensures { IfOk result (λ _. used.new.items ≡ used.old.items ++ map (own_used block place) (escaping inst.now.op inst.now)) }
{
    let operands = escaping(alloc, inst)?;
    for operand in &operands {
        used.push(own_used(block, place, *operand))?;
    }
    Ok(())
}

fn own_used(block: usize, place: usize, operand: Operand) -> UsedPair
    ensures { result ≡ own_used block place operand }
{
    UsedPair {
        block,
        place,
        at: place,
        code: 5,
        address: operand,
        base: operand,
    }
}

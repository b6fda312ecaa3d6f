//! The registers of results, counted in text order, and what stands first in a list of lines.

ghost use Rattle.std.specs.Prelude.{◌≡◌, ◌≤◌, ◌<◌, ◌+◌, ◌^◌, [], ◌∷◌, length, IfOk, MatchOption};
ghost use Rattle.std.specs.List.{prefix_len};
ghost use Rattle.ir_ast.specs.Faults.PhiEdges.{is_phi};
ghost use Rattle.object_meaning.specs.Frames.{is_member};
ghost use Rattle.object_meaning.specs.Lines.{numbered, following, after_all, registers_of};
ghost use Rattle.machine_frames.specs.Tables.{befores_from};

use ir_ast::{Block, Func, Inst};
use sp_ids::Memory;
use std::alloc::Global;

/// The register of the next result after an instruction whose own would be this one.
#[inline(always)]
pub(crate) fn following(next: usize, inst: &Inst) -> Result<usize, Memory>
    ensures { IfOk result (λ number. number ≡ following next inst.now) }
{
    if inst.result().is_some() {
        next.checked_add(1).ok_or(Memory)
    } else {
        Ok(next)
    }
}

/// The same where that register is small enough.
#[inline(always)]
pub(crate) fn next_behind(next: usize, inst: &Inst) -> usize
    requires { next + 1 < 2 ^ 64 }
    ensures value { result ≡ following next inst.now }
    ensures near { result ≤ next + 1 }
{
    if inst.result().is_some() {
        next + 1
    } else {
        next
    }
}

/// The register that the result of an instruction goes to.
#[inline(always)]
pub(crate) fn register_of(next: usize, inst: &Inst) -> Option<usize>
    ensures { result ≡ (numbered next inst.now).to }
{
    if inst.result().is_some() {
        Some(next)
    } else {
        None
    }
}

/// The register after the results of these instructions.
pub(crate) fn after_all(first: usize, insts: &[Inst]) -> Result<usize, Memory>
    ensures { IfOk result (λ next. next ≡ after_all first insts.now) }
{
    let mut next = first;
    for inst in insts {
        let after = following(next, inst)?;
        next = after;
    }
    Ok(next)
}

/// The register of the first result of each block, and last the number of all registers.
pub(crate) fn registers_of(alloc: Global, func: &Func) -> Result<Vec<usize>, Memory>
    ensures { IfOk result (λ list. list.items ≡ registers_of func.now.content) }
{
    let mut list = Vec::with_capacity(alloc, func.blocks().len())?;
    let mut next = func.args().len();
    for block in func.blocks() {
        list.push(next)?;
        let after = after_all(next, block.insts())?;
        next = after;
    }
    list.push(next)?;
    Ok(list)
}

/// How many instructions stand before each block, and last how many there are.
pub(crate) fn befores_of(alloc: Global, blocks: &[Block]) -> Result<Vec<usize>, Memory>
    ensures { IfOk result (λ list. list.items ≡ befores_from 0 blocks.now) }
{
    let mut list = Vec::with_capacity(alloc, blocks.len())?;
    let mut count = 0usize;
    for block in blocks {
        list.push(count)?;
        let more = count.checked_add(block.insts().len()).ok_or(Memory)?;
        count = more;
    }
    list.push(count)?;
    Ok(list)
}

/// How many phis stand first.
pub(crate) fn phi_count(insts: &[Inst]) -> usize
    ensures value { result ≡ prefix_len (λ inst. is_phi inst.op) insts.now }
    ensures within { result ≤ length insts.now }
{
    let mut found = 0;
    for inst in insts {
        if !inst.op().is_phi() {
            return found;
        }
        found += 1;
    }
    found
}

/// How many results and relocates stand first.
#[inline(always)]
pub(crate) fn member_count(insts: &[Inst]) -> usize
    ensures value { result ≡ prefix_len (λ inst. is_member inst.op) insts.now }
    ensures within { result ≤ length insts.now }
{
    let mut found = 0;
    for inst in insts {
        if !inst.op().is_member() {
            return found;
        }
        found += 1;
    }
    found
}

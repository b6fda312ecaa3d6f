//! Per block: its front, its statepoints and the groups of its lines.

ghost use Rattle.std.specs.Prelude.{◌≡◌, ◌<◌, ◌^◌, Some, if◌then◌else◌, suc, length, IfOk, slice_get};
ghost use Rattle.std.specs.List.{prefix_len};
ghost use Rattle.ir_ast.specs.Faults.GroupShape.{is_statepoint};
ghost use Rattle.ir_ast.specs.Faults.PhiEdges.{is_phi};
ghost use Rattle.pair_facts.specs.Lines.{lines_at, head_here};
ghost use Rattle.fact_tables.specs.Notes.{IsNotes};

use crate::groups::based_of;
use crate::phis::{Entries, phis_of};
use ir_ast::{Block, Func, Inst, Op};
use sp_ids::Memory;
use std::alloc::Global;

/// What the lines of a block say of statepoints.
#[derive(Drop)]
pub struct Notes {
    /// How many phis stand first.
    pub front: usize,
    /// For each place, and for the end, the place behind the last statepoint before it, or 0.
    pub starts: Vec<usize>,
    /// For each line the statepoint whose group it is of.
    pub heads: Vec<Option<usize>>,
    /// For each line whether a relocate of its group keeps the line's base entry as a base.
    pub based: Vec<bool>,
    /// For each of the first phis its operands, where it has many.
    pub phis: Vec<Option<Entries>>,
}

/// The notes on the block with this number.
pub fn notes_of(alloc: Global, func: &Func, number: usize, block: &Block) -> Result<Notes, Memory>
    requires { slice_get func.now.content.blocks number ≡ Some block.now }
    ensures { IfOk result (λ notes. IsNotes (lines_at func.now.content number) notes) }
{
    let front = phi_count(block.insts());
    let based = based_of(alloc, func, number, block)?;
    let phis = phis_of(alloc, func, number, front)?;
    let mut starts = Vec::new(alloc);
    let mut heads = Vec::new(alloc);
    let mut start = 0;
    let mut head = None;
    for (place, inst) in block.insts().iter().enumerate() {
        starts.push(start)?;
        head = head_here(inst.op(), place, head);
        heads.push(head)?;
        start = start_behind(inst.op(), place, start);
    }
    starts.push(start)?;
    Ok(Notes {
        front,
        starts,
        heads,
        based,
        phis,
    })
}

fn phi_count(insts: &[Inst]) -> usize
    ensures { result ≡ prefix_len (λ inst. is_phi inst.op) insts.now }
{
    for (place, inst) in insts.iter().enumerate() {
        if !inst.op().is_phi() {
            return place;
        }
    }
    insts.len()
}

/// The statepoint whose group a line is of, given that of the line before.
pub fn head_here(op: &Op, place: usize, before: Option<usize>) -> Option<usize>
    ensures { result ≡ head_here op.now place before }
{
    if op.is_statepoint() {
        Some(place)
    } else if op.is_member() {
        before
    } else {
        None
    }
}

fn start_behind(op: &Op, place: usize, start: usize) -> usize
    requires { place < 2 ^ 63 }
    ensures { result ≡ (if is_statepoint op.now then suc place else start) }
{
    if op.is_statepoint() { place + 1 } else { start }
}

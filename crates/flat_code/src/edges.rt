//! Edges: which phis they resolve, and to what.

ghost use Rattle.std.specs.Prelude.{◌≡◌, ◌==◌, ◌<◌, ◌≤◌, IfOk, drop, length};
ghost use Rattle.std.specs.List.{position};
ghost use Rattle.object_meaning.specs.Jumps.{label_at};
ghost use Rattle.object_meaning.specs.Lines.{numbered};
ghost use Rattle.flat_code.specs.Edges.{chosen, copy_of, copies_from, IsEdge};
ghost use Rattle.flat_code.specs.Segments.{AreEdges};

use crate::actions::operand_at;
use crate::lines::{Copied, Edge};
use crate::sources::{Source, following, register_of};
use ir_ast::{Inst, Operand};
use sp_ids::{BlockId, Memory};
use std::alloc::Global;

/// The edge from a block to the one with this label.
pub(crate) fn edge(alloc: Global, source: &Source, from: u32, label: u32) -> Result<Edge, Memory>
    ensures { IfOk result (λ edge. IsEdge source.now.defined from label edge) }
{
    let insts = source.insts(label);
    let copies = copies_of(
        alloc,
        from,
        source.first(label),
        &insts[..Inst::phi_count(insts)],
    )?;
    Ok(Edge {
        block: label,
        copies,
    })
}

// What these phis assign on an edge from a block.
fn copies_of(alloc: Global, from: u32, first: usize, phis: &[Inst]) -> Result<Vec<Copied>, Memory>
    ensures { IfOk result (λ copies. copies.items ≡ copies_from from first phis.now) }
{
    let mut copies = Vec::new(alloc);
    let mut next = first;
    for phi in phis {
        copies.push(copy_of(from, next, phi)?)?;
        let after = following(next, phi)?;
        next = after;
    }
    Ok(copies)
}

fn copy_of(from: u32, next: usize, phi: &Inst) -> Result<Copied, Memory>
    ensures { IfOk result (λ copy. copy ≡ copy_of from (numbered next phi.now)) }
{
    let to = register_of(next, phi)?;
    Ok(Copied {
        to,
        from: chosen(from, phi),
    })
}

fn chosen(from: u32, phi: &Inst) -> Operand
    ensures { result ≡ chosen from phi.now }
{
    match entry_from(from, phi.labels()) {
        None => Operand::Int(0),
        Some(entry) => operand_at(phi.operands(), entry),
    }
}

// The first entry of a phi with the label of this block.
fn entry_from(block: u32, labels: &[BlockId]) -> Option<usize>
    ensures { result ≡ position (λ label. label.0 == block) labels.now }
{
    labels.iter().position(|label| label.0 == block)
}

/// The edge of a terminator's label at a place.
pub(crate) fn edge_at(
    alloc: Global,
    source: &Source,
    from: u32,
    inst: &Inst,
    place: usize,
) -> Result<Edge, Memory>
    ensures { IfOk result (λ edge. IsEdge source.now.defined from (label_at inst.now.labels place) edge) }
{
    edge(alloc, source, from, label_at(inst.labels(), place))
}

/// The edges of a `switch`.
pub(crate) fn edges(
    alloc: Global,
    source: &Source,
    from: u32,
    inst: &Inst,
) -> Result<Vec<Edge>, Memory>
    ensures { IfOk result (λ edges. AreEdges source.now.defined from inst.now edges.items) }
{
    let count = inst.operands().len().max(1);
    let mut edges = Vec::new(alloc);
    for place in 0..count {
        edges.push(edge_at(alloc, source, from, inst, place)?)?;
    }
    Ok(edges)
}

/// The block of a terminator's label at a place.
pub fn label_at(labels: &[BlockId], place: usize) -> u32
    ensures { result ≡ label_at labels.now place }
{
    match labels.get(place) {
        None => 0,
        Some(label) => label.0,
    }
}

/// The cases of a `switch`, which stand behind its value.
pub fn cases_of(operands: &[Operand]) -> &[Operand]
    ensures { result.now ≡ drop 1 operands.now }
{
    match operands {
        [] => &[],
        [_value, cases @ ..] => cases,
    }
}

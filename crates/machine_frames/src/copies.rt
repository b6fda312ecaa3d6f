//! What the phis of a block copy on an edge.

ghost use Rattle.std.specs.Prelude.{◌≡◌, ℕ, List, map, IfOk, IfSome, OnOk};
ghost use Rattle.ir_ast.specs.Objects.{number};
ghost use Rattle.object_meaning.specs.Jumps.{phi_write};
ghost use Rattle.object_meaning.specs.Registers.{put_all};
ghost use Rattle.machine_lines.specs.Lines.{line_of};
ghost use Rattle.machine_frames.specs.Frames.{write_of};
ghost use Rattle.machine_frames.specs.Landings.{AreCopies, IsEdge, Site, copy_write, phis_of};

use crate::frames::{Move, do_moves};
use crate::numbering::following;
use ir_ast::Inst;
use machine_lines::{Source, incoming_source, put};
use sp_ids::{BlockId, Memory};
use std::alloc::Global;

/// A word that goes to a register.
#[derive(Clone, Copy, Debug)]
pub(crate) struct Copied {
    pub source: Source,
    pub to: usize,
}

/// The copies of the phis of a block on the edge from another.
#[derive(Drop)]
pub(crate) struct Edge {
    pub from: u32,
    pub copies: Vec<Copied>,
}

impl Edge {
    /// The edge from the block of the label at a place of the first of these phis, where that is among the first two labels of each.
    pub(crate) fn at(
        alloc: Global,
        first: usize,
        phis: &[Inst],
        place: usize,
    ) -> Result<Option<Edge>, Memory>
        ensures { IfOk result (λ found. IfSome found (λ edge. AreCopies edge.from first phis.now edge.copies.items)) }
    {
        match label_of(phis, place) {
            None => Ok(None),
            Some(label) => Edge::from(alloc, first, phis, label.0),
        }
    }

    fn from(alloc: Global, first: usize, phis: &[Inst], from: u32) -> Result<Option<Edge>, Memory>
        ensures { IfOk result (λ found. IfSome found (λ edge. AreCopies edge.from first phis.now edge.copies.items)) }
    {
        let mut copies = Vec::with_capacity(alloc, phis.len())?;
        let mut next = first;
        for phi in phis {
            let Some(copy) = copy_of(next, phi, from) else {
                return Ok(None);
            };
            copies.push(copy)?;
            let after = following(next, phi)?;
            next = after;
        }
        Ok(Some(Edge { from, copies }))
    }
}

fn label_of(phis: &[Inst], place: usize) -> Option<BlockId> {
    match phis {
        [] => None,
        [phi, ..] => phi.labels().get(place).copied(),
    }
}

// The copy of a phi whose result would go to the register `next`, if it has one.
fn copy_of(next: usize, phi: &Inst, from: u32) -> Option<Copied>
    ensures { IfSome result (λ copy. (registers : List ℕ) → copy_write registers copy ≡ phi_write from (map number registers) (line_of next phi.now)) }
{
    if phi.result().is_none() {
        return None;
    }
    match incoming_source(phi, from) {
        None => None,
        Some(source) => Some(Copied { source, to: next }),
    }
}

/// The copies of an edge, if it is that from this block.
#[inline(always)]
pub(crate) fn copies_on(edge: &Option<Edge>, from: u32) -> Option<&[Copied]>
    ensures { (site : Site) → IfSome edge.now (IsEdge site) → IfSome result (λ copies. AreCopies from site.first (phis_of site.insts) copies.now) }
{
    match edge {
        None => None,
        Some(edge) => {
            if edge.from == from {
                Some(edge.copies.as_slice())
            } else {
                None
            }
        }
    }
}

/// Makes copies, whose words are all read before any is written. `moves` is room for them.
#[inline(always)]
pub(crate) fn copy_all(
    registers: &mut [u64],
    moves: &mut Vec<Move>,
    copies: &[Copied],
) -> Result<(), Memory>
    ensures { OnOk result (map number registers.new ≡ put_all (map (copy_write registers.old) copies.now) (map number registers.old)) }
{
    match copies {
        [] => Ok(()),
        [one] => {
            let word = one.source.word(registers);
            put(registers, Some(one.to), word);
            Ok(())
        }
        [one, two] => {
            let word = one.source.word(registers);
            let other = two.source.word(registers);
            put(registers, Some(one.to), word);
            put(registers, Some(two.to), other);
            Ok(())
        }
        [one, two, three] => {
            let word = one.source.word(registers);
            let other = two.source.word(registers);
            let last = three.source.word(registers);
            put(registers, Some(one.to), word);
            put(registers, Some(two.to), other);
            put(registers, Some(three.to), last);
            Ok(())
        }
        _ => copy_many(registers, moves, copies),
    }
}

fn copy_many(registers: &mut [u64], moves: &mut Vec<Move>, copies: &[Copied]) -> Result<(), Memory>
    ensures { OnOk result (map number registers.new ≡ put_all (map (copy_write registers.old) copies.now) (map number registers.old)) }
{
    read_all(moves, registers, copies)?;
    do_moves(registers, moves.as_slice());
    Ok(())
}

fn read_all(moves: &mut Vec<Move>, registers: &[u64], copies: &[Copied]) -> Result<(), Memory>
    ensures { OnOk result (map write_of moves.new.items ≡ map (copy_write registers.now) copies.now) }
{
    moves.clear();
    for copy in copies {
        moves.push(Move {
            to: Some(copy.to),
            word: copy.source.word(registers),
        })?;
    }
    Ok(())
}

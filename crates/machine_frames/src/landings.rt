//! Blocks as jumps come to them.

ghost use Rattle.std.specs.Prelude.{◌≡◌, IfOk, IfSome, drop};
ghost use Rattle.std.specs.List.{prefix_len};
ghost use Rattle.ir_ast.specs.Faults.PhiEdges.{is_phi};
ghost use Rattle.object_meaning.specs.Lines.{after_all};
ghost use Rattle.machine_frames.specs.Landings.{AreCopies, phis_of};
ghost use Rattle.machine_frames.specs.Tables.{sites_of};

use crate::copies::{Copied, Edge, copies_on};
use crate::numbering::{after_all, phi_count};
use ir_ast::{Func, Inst};
use machine_lines::{Decoded, Lines, decoded_all};
use sp_ids::Memory;
use std::alloc::Global;
use std::marker::Model;

/// A block: its instructions, each decoded, and the register of its first result; how many phis stand first, the register of the
/// first result behind them, and what they copy on the edges from the blocks of the first one's first two labels, where these are
/// among the first two labels of each.
#[derive(Drop)]
pub(crate) struct Landing<'m> {
    first: usize,
    insts: &'m [Inst],
    decoded: Vec<Decoded>,
    phis: usize,
    next: usize,
    one: Option<Edge>,
    other: Option<Edge>,
}

impl<'m> Model for Landing<'m> {
    ghost use Rattle.machine_frames.specs.Landings.{Site, IsLanding};

    ghost Value = { Site };

    ghost view = { λ landing. record { first = landing.first; insts = landing.insts.now } };

    ghost invariant = { λ landing. IsLanding (record { first = landing.first; insts = landing.insts.now }) landing.decoded.items landing.phis landing.next landing.one landing.other };
}

impl<'m> Landing<'m> {
    /// The block with these instructions.
    pub(crate) fn of(alloc: Global, insts: &'m [Inst], first: usize) -> Result<Landing<'m>, Memory>
        ensures { IfOk result (λ landing. landing ≡ record { first = first; insts = insts.now }) }
    {
        let decoded = decoded_all(alloc, insts)?;
        let phis = phi_count(insts);
        let (front, _rest) = insts.split_at(phis);
        let next = after_all(first, front)?;
        let one = Edge::at(alloc, first, front, 0)?;
        let other = Edge::at(alloc, first, front, 1)?;
        Ok(Landing {
            first,
            insts,
            decoded,
            phis,
            next,
            one,
            other,
        })
    }

    /// The register of its first result.
    pub(crate) fn first(&self) -> usize
        ensures { result ≡ self.now.first }
    {
        self.first
    }

    /// Its instructions.
    pub(crate) fn lines(&self) -> Lines<'_>
        ensures { result.insts.now ≡ self.now.insts }
    {
        Lines::of(self.insts, self.decoded.as_slice())
    }

    /// Its phis.
    pub(crate) fn phis(&self) -> &[Inst]
        ensures { result.now ≡ phis_of self.now.insts }
    {
        let (front, _rest) = self.insts.split_at(self.phis);
        front
    }

    /// The instructions behind its phis.
    #[inline(always)]
    pub(crate) fn rest(&self) -> Lines<'_>
        ensures { result.insts.now ≡ drop (prefix_len (λ inst. is_phi inst.op) self.now.insts) self.now.insts }
    {
        self.lines().behind(self.phis)
    }

    /// The register of the first result behind its phis.
    pub(crate) fn next(&self) -> usize
        ensures { result ≡ after_all self.now.first (phis_of self.now.insts) }
    {
        self.next
    }

    /// What its phis copy on the edge from a block, where that is known.
    #[inline(always)]
    pub(crate) fn copies(&self, from: u32) -> Option<&[Copied]>
        ensures { IfSome result (λ copies. AreCopies from self.now.first (phis_of self.now.insts) copies.now) }
    {
        if self.phis == 0 {
            return Some(&[]);
        }
        match copies_on(&self.one, from) {
            None => copies_on(&self.other, from),
            Some(copies) => Some(copies),
        }
    }
}

/// The blocks of a function.
pub(crate) fn landings_of(alloc: Global, func: &Func) -> Result<Vec<Landing<'_>>, Memory>
    ensures { IfOk result (λ list. list.items ≡ sites_of func.now.content) }
{
    let mut list = Vec::with_capacity(alloc, func.blocks().len())?;
    let mut next = func.args().len();
    for block in func.blocks() {
        list.push(Landing::of(alloc, block.insts(), next)?)?;
        let after = after_all(next, block.insts())?;
        next = after;
    }
    Ok(list)
}

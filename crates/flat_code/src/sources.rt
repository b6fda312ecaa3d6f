//! The function that is decoded, with the registers of its lines.

ghost use Rattle.std.specs.Prelude.{◌≡◌, ◌≤◌, ℕ, [], IfOk, length, nat_le};
ghost use Rattle.std.specs.Option.{option_map, option_map_or};
ghost use Rattle.object_meaning.specs.Lines.{numbered, following, after_all, registers_of, retreats};
ghost use Rattle.flat_code.specs.Spots.{AllReady, IsReadyFunction, insts_at, first_at, count_at, passed_spot};
ghost use Rattle.std.specs.List.{list_any};

use crate::spots::{Due, Spot};
use ir_ast::{Func, Inst, Layout};
use sp_ids::{BlockId, Memory};
use std::alloc::Global;
use std::marker::Model;

/// A function, or none, with the layouts of its module, the register of the first result of each block, and last the number
/// of its registers.
#[derive(Drop)]
pub(crate) struct Source<'m> {
    layouts: &'m [Layout],
    func: Option<&'m Func>,
    firsts: Vec<usize>,
}

impl<'m> Model for Source<'m> {
    ghost use Rattle.std.specs.Prelude.{◌≡◌, []};
    ghost use Rattle.std.specs.Option.{option_map, option_map_or};
    ghost use Rattle.object_meaning.specs.Lines.{registers_of};
    ghost use Rattle.flat_code.specs.Spots.{Decoded, IsReadyFunction};

    ghost Value = { Decoded };

    ghost view = { λ source. record { layouts = source.layouts.now; defined = option_map (λ func. func.now.content) source.func } };

    ghost invariant = { λ source. (source.firsts.items ≡ option_map_or (λ func. registers_of func.now.content) source.func []) × IsReadyFunction (option_map (λ func. func.now.content) source.func) };
}

impl<'m> Source<'m> {
    /// The source of a function.
    pub fn of(
        alloc: Global,
        layouts: &'m [Layout],
        func: Option<&'m Func>,
    ) -> Result<Source<'m>, Memory>
        requires { IsReadyFunction (option_map (λ func. func.now.content) func) }
        ensures { IfOk result (λ source. source ≡ record { layouts = layouts.now; defined = option_map (λ func. func.now.content) func.entry }) }
    {
        let firsts = firsts_of(alloc, func)?;
        Ok(Source {
            layouts,
            func,
            firsts,
        })
    }

    /// The layouts of its module.
    pub fn layouts(&self) -> &[Layout]
        ensures { result.now ≡ self.now.layouts }
    {
        self.layouts
    }

    /// The instructions of a block.
    pub fn insts(&self, block: u32) -> &[Inst]
        ensures value { result.now ≡ insts_at self.now.defined block }
        ensures ready { AllReady result.now }
    {
        match self.func {
            None => &[],
            Some(func) => func.insts_in(block),
        }
    }

    /// How many blocks it has; no instructions stand in others.
    pub fn block_count(&self) -> usize
        ensures { (block : ℕ) → result ≤ block → insts_at self.now.defined block ≡ [] }
    {
        match self.func {
            None => 0,
            Some(func) => func.blocks().len(),
        }
    }

    /// The register of the first result of a block.
    pub fn first(&self, block: u32) -> usize
        ensures { result ≡ first_at self.now.defined block }
    {
        self.firsts.get(block as usize).copied().unwrap_or(0)
    }

    /// How many registers it has.
    pub fn registers(&self) -> usize
        ensures { result ≡ count_at self.now.defined }
    {
        self.firsts.last().copied().unwrap_or(0)
    }
}

fn firsts_of(alloc: Global, func: Option<&Func>) -> Result<Vec<usize>, Memory>
    ensures { IfOk result (λ list. list.items ≡ option_map_or (λ func. registers_of func.now.content) func.entry []) }
{
    match func {
        None => Ok(Vec::new(alloc)),
        Some(func) => registers_of(alloc, func),
    }
}

/// The register of the first result of each block, and last the number of all registers.
pub fn registers_of(alloc: Global, func: &Func) -> Result<Vec<usize>, Memory>
    ensures { IfOk result (λ list. list.items ≡ registers_of func.now.content) }
{
    let mut list = Vec::with_capacity(alloc, func.blocks().len())?;
    let mut next = func.args().len();
    for block in func.blocks() {
        list.push(next)?;
        let after = after_all(next, block.insts())?;
        next = after;
    }
    list.push(next)?;
    Ok(list)
}

/// The register after the results of these instructions.
pub fn after_all(first: usize, insts: &[Inst]) -> Result<usize, Memory>
    ensures { IfOk result (λ next. next ≡ after_all first insts.now) }
{
    let mut next = first;
    for inst in insts {
        let after = following(next, inst)?;
        next = after;
    }
    Ok(next)
}

/// The register of the next result after an instruction whose own would be this one.
#[inline(always)]
pub fn following(next: usize, inst: &Inst) -> Result<usize, Memory>
    ensures { IfOk result (λ number. number ≡ following next inst.now) }
{
    if inst.result().is_some() {
        next.checked_add(1).ok_or(Memory)
    } else {
        Ok(next)
    }
}

/// The register that the result of an instruction goes to.
pub(crate) fn register_of(next: usize, inst: &Inst) -> Result<Option<u32>, Memory>
    ensures { IfOk result (λ to. to ≡ (numbered next inst.now).to) }
{
    if inst.result().is_none() {
        return Ok(None);
    }
    if next <= u32::MAX as usize {
        Ok(Some(next as u32))
    } else {
        Err(Memory)
    }
}

/// The spot behind an instruction.
pub(crate) fn passed(spot: Spot, inst: &Inst) -> Result<Spot, Memory>
    ensures { IfOk result (λ next. next ≡ passed_spot spot inst.now) }
{
    let next = following(spot.next, inst)?;
    let at = spot.at.checked_add(1).ok_or(Memory)?;
    Ok(Spot {
        at,
        next,
        due: Due::Line,
        ..spot
    })
}

/// Whether a terminator has an edge to the same or an earlier place than its block.
pub fn retreats(block: u32, inst: &Inst) -> bool
    ensures { result ≡ retreats block inst.now }
{
    inst.op().is_terminator() && any_up_to(inst.labels(), block)
}

fn any_up_to(labels: &[BlockId], block: u32) -> bool
    ensures { result ≡ list_any (λ label. nat_le label.0 block) labels.now }
{
    labels.iter().any(|label| label.0 <= block)
}

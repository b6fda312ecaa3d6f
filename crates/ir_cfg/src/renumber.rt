//! Blocks, values and operands by their numbers in a function that loses blocks.

ghost use Rattle.std.specs.Prelude.{◌≡◌, ◌^◌, ◌<◌, false, length, map, filter, slice_index, slice_index_or, IfOk};
ghost use Rattle.ir_ast.specs.Blocks.{EndsAtTerminator};
ghost use Rattle.ir_cfg.specs.Unreached.{kept_of, new_numbers, operand_kept, label_kept, has_mark, operands_kept, labels_kept, inst_kept, block_kept};

use ir_ast::{Block, Inst, Labels, Op, Operand, Operands, Rest, Ty};
use smallvec::SmallVec;
use sp_ids::{BlockId, Memory, ValueId};
use std::alloc::Global;
use std::marker::Model;

/// Which blocks are kept, and the new numbers of the blocks and values.
#[derive(Drop)]
pub(crate) struct Renumber {
    marks: Vec<bool>,
    blocks: Vec<u32>,
    values: Vec<u32>,
}

impl Model for Renumber {
    ghost use Rattle.ir_cfg.specs.Unreached.{Kept};

    ghost Value = { Kept };

    ghost view = { λ renumber. record {
      marks = renumber.marks.items;
      blocks = renumber.blocks.items;
      values = renumber.values.items;
    } };
}

impl Renumber {
    pub(crate) fn of(alloc: Global, marks: Vec<bool>, values: &[bool]) -> Result<Renumber, Memory>
        requires few_blocks { length marks.items < 2 ^ 32 }
        requires few_values { length values.now < 2 ^ 32 }
        ensures { IfOk result (λ renumber. renumber ≡ record {
          marks = marks.items;
          blocks = new_numbers marks.items;
          values = new_numbers values.now;
        }) }
    {
        let blocks = new_numbers(alloc, marks.as_slice())?;
        let values = new_numbers(alloc, values)?;
        Ok(Renumber {
            marks,
            blocks,
            values,
        })
    }

    /// Whether the block at a place is kept.
    pub(crate) fn keeps(&self, place: usize) -> bool
        ensures { result ≡ slice_index_or self.now.marks place false }
    {
        mark_at(self.marks.as_slice(), place)
    }

    fn has_mark(&self, block: BlockId) -> bool
        ensures { result ≡ has_mark self.now block }
    {
        self.keeps(block.0 as usize)
    }

    fn label(&self, block: BlockId) -> BlockId
        ensures { result ≡ label_kept self.now block }
    {
        BlockId(self.blocks.get(block.0 as usize).copied().unwrap_or(0))
    }

    fn operand(&self, operand: Operand) -> Operand
        ensures { result ≡ operand_kept self.now operand }
    {
        match operand {
            Operand::Value(value) => Operand::Value(self.value(value)),
            other => other,
        }
    }

    fn value(&self, value: ValueId) -> ValueId
        ensures { result ≡ record { 0 = slice_index self.now.values value.0 } }
    {
        ValueId(self.values.get(value.0 as usize).copied().unwrap_or(0))
    }
}

/// The mark at a place, where there is one.
pub(crate) fn mark_at(marks: &[bool], place: usize) -> bool
    ensures { result ≡ slice_index_or marks.now place false }
{
    marks.get(place).copied().unwrap_or(false)
}

// The operands that a phi keeps, one for each label.
fn entries(
    alloc: Global,
    renumber: &Renumber,
    labels: &[BlockId],
    operands: &[Operand],
) -> Result<Operands, Memory>
    ensures { IfOk result (λ kept. kept.items ≡ map (operand_kept renumber.now) (kept_of (map (has_mark renumber.now) labels.now) operands.now)) }
{
    let mut kept = SmallVec::new(alloc);
    for (place, operand) in operands.iter().enumerate() {
        if entry_kept(renumber, labels, place) {
            kept.push(renumber.operand(*operand))?;
        }
    }
    Ok(kept)
}

fn entry_kept(renumber: &Renumber, labels: &[BlockId], place: usize) -> bool
    ensures { result ≡ slice_index_or (map (has_mark renumber.now) labels.now) place false }
{
    match labels.get(place) {
        Some(label) => renumber.has_mark(*label),
        None => false,
    }
}

fn all_operands(
    alloc: Global,
    renumber: &Renumber,
    operands: &[Operand],
) -> Result<Operands, Memory>
    ensures { IfOk result (λ kept. kept.items ≡ map (operand_kept renumber.now) operands.now) }
{
    let mut kept = SmallVec::new(alloc);
    for operand in operands {
        kept.push(renumber.operand(*operand))?;
    }
    Ok(kept)
}

fn operands(
    alloc: Global,
    renumber: &Renumber,
    op: &Op,
    labels: &[BlockId],
    operands: &[Operand],
) -> Result<Operands, Memory>
    ensures { IfOk result (λ kept. kept.items ≡ operands_kept renumber.now op.now labels.now operands.now) }
{
    match op {
        Op::Phi => entries(alloc, renumber, labels, operands),
        _ => all_operands(alloc, renumber, operands),
    }
}

fn phi_labels(alloc: Global, renumber: &Renumber, labels: &[BlockId]) -> Result<Labels, Memory>
    ensures { IfOk result (λ kept. kept.items ≡ map (label_kept renumber.now) (filter (has_mark renumber.now) labels.now)) }
{
    let mut kept = SmallVec::new(alloc);
    for label in labels {
        if renumber.has_mark(*label) {
            kept.push(renumber.label(*label))?;
        }
    }
    Ok(kept)
}

fn all_labels(alloc: Global, renumber: &Renumber, labels: &[BlockId]) -> Result<Labels, Memory>
    ensures { IfOk result (λ kept. kept.items ≡ map (label_kept renumber.now) labels.now) }
{
    let mut kept = SmallVec::new(alloc);
    for label in labels {
        kept.push(renumber.label(*label))?;
    }
    Ok(kept)
}

fn labels(alloc: Global, renumber: &Renumber, op: &Op, labels: &[BlockId]) -> Result<Labels, Memory>
    ensures { IfOk result (λ kept. kept.items ≡ labels_kept renumber.now op.now labels.now) }
{
    match op {
        Op::Phi => phi_labels(alloc, renumber, labels),
        _ => all_labels(alloc, renumber, labels),
    }
}

fn bundle(
    alloc: Global,
    renumber: &Renumber,
    entries: &[(Ty, Operand)],
) -> Result<Vec<(Ty, Operand)>, Memory>
    ensures { IfOk result (λ kept. kept.items ≡ map (λ entry. (entry.0, operand_kept renumber.now entry.1)) entries.now) }
{
    let mut kept = Vec::new(alloc);
    for (ty, operand) in entries {
        kept.push((*ty, renumber.operand(*operand)))?;
    }
    Ok(kept)
}

fn inst(alloc: Global, renumber: &Renumber, inst: Inst) -> Result<Inst, Memory>
    ensures { IfOk result (λ kept. kept ≡ inst_kept renumber.now inst) }
{
    let new_operands = operands(alloc, renumber, inst.op(), inst.labels(), inst.operands())?;
    let new_labels = labels(alloc, renumber, inst.op(), inst.labels())?;
    let new_bundle = bundle(alloc, renumber, inst.bundle())?;
    let new_rest = Rest::of(alloc, new_labels.as_slice(), new_bundle)?;
    let (named, op, ty, _operands, _rest) = inst.into_parts();
    Ok(Inst::of(named, op, ty, new_operands, new_rest))
}

/// The block with its new numbers.
pub(crate) fn block(alloc: Global, renumber: &Renumber, block: Block) -> Result<Block, Memory>
    ensures { IfOk result (λ kept. kept ≡ block_kept renumber.now block) }
{
    let (name, old_insts) = block.into_parts();
    let new_insts = insts(alloc, renumber, old_insts)?;
    Ok(Block::of(name, new_insts))
}

fn insts(alloc: Global, renumber: &Renumber, insts: Vec<Inst>) -> Result<Vec<Inst>, Memory>
    ensures { IfOk result (λ kept. kept.items ≡ map (inst_kept renumber.now) insts.items) }
{
    let mut kept = Vec::new(alloc);
    for one in insts {
        kept.push(inst(alloc, renumber, one)?)?;
    }
    Ok(kept)
}

// How many marks stand before each place.
fn new_numbers(alloc: Global, marks: &[bool]) -> Result<Vec<u32>, Memory>
    requires { length marks.now < 2 ^ 32 }
    ensures { IfOk result (λ numbers. numbers.items ≡ new_numbers marks.now) }
{
    let mut numbers = Vec::new(alloc);
    let mut before = 0;
    for mark in marks {
        numbers.push(before)?;
        if *mark {
            before += 1;
        }
    }
    Ok(numbers)
}

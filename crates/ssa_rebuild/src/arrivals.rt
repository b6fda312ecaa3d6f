//! The numbers of all entries of phis, in the order of the text.

ghost use Rattle.std.specs.Prelude.{◌≡◌, ◌<◌, ◌==◌, ◌++◌, [], ◌∷◌, if◌then◌else◌, length, map, ℕ, IfOk};
ghost use Rattle.std.specs.List.{flat_map};
ghost use Rattle.ir_cfg.specs.Graphs.{graph_of};
ghost use Rattle.ir_ast.specs.declared.ops.Operand.{Operand};
ghost use Rattle.rewriting_forms.specs.Numbered.{preds};
ghost use Rattle.ssa_rebuild.specs.Rows.{entries_for, inserted_entries, phi_entries, entries_all, use_numbers};
ghost use Rattle.ssa_rebuild.specs.Arrivals.{Pops, Takes, HoldsAll, labeled_numbers, phi_numbers, inserted_numbers, arriving_numbers};
ghost use Rattle.ir_ast.specs.Operands.{valued};
ghost use Rattle.statepoint_insert.specs.Groups.{numbers_in};

use crate::lines::is_phi;
use crate::stream::number_of;
use ir_ast::{Func, Inst, Operand};
use ir_cfg::Cfg;
use sp_ids::{BlockId, Memory, ValueId};
use std::alloc::Global;
use version_walk::Packed;

/// Where the next entry of each block stands in its row, and the numbers of the entries so far.
#[derive(Drop)]
pub(crate) struct Arrivals {
    pub(crate) places: Vec<usize>,
    pub(crate) numbers: Vec<u32>,
}

/// The numbers of the entries of all phis in the order of the text, those of inserted phis before those of the block's own; each
/// block's entries stand in its row from these places on.
pub(crate) fn all_arrivals(
    alloc: Global,
    func: &Func,
    cfg: &Cfg,
    joins: &[Vec<ValueId>],
    rows: &[Vec<Packed>],
    places: Vec<usize>,
) -> Result<Vec<u32>, Memory>
    requires cfg { cfg.now ≡ graph_of func.now.content }
    requires joins { length joins.now ≡ length func.now.content.blocks }
    ensures { IfOk result (λ numbers. HoldsAll rows.now places.items numbers.items
        (entries_all (preds func.now.content) (map (λ join. numbers_in join.items) joins.now) 0 func.now.content.blocks)
        (λ here. arriving_numbers here (preds func.now.content) (map (λ join. numbers_in join.items) joins.now) 0 func.now.content.blocks)) }
{
    let mut arrivals = Arrivals {
        places,
        numbers: Vec::new(alloc),
    };
    let mut number = 0;
    for block in func.blocks() {
        let preds = cfg.preds(BlockId(number as u32));
        take_entries(
            rows,
            preds,
            joins[number].as_slice(),
            block.insts(),
            &mut arrivals,
        )?;
        number += 1;
    }
    Ok(arrivals.numbers)
}

fn take_entries(
    rows: &[Vec<Packed>],
    preds: &[BlockId],
    joined: &[ValueId],
    insts: &[Inst],
    arrivals: &mut Arrivals,
) -> Result<(), Memory>
    ensures { IfOk result (λ _. Takes rows.now arrivals.old arrivals.new
        (λ p. flat_map (inserted_entries p (map (λ block. block.0) preds.now)) (numbers_in joined.now) ++ flat_map (phi_entries p) insts.now)
        (λ here. flat_map (inserted_numbers here (map (λ block. block.0) preds.now)) (numbers_in joined.now) ++ flat_map (phi_numbers here) insts.now)) }
{
    take_joined(rows, preds, joined, arrivals)?;
    take_phis(rows, insts, arrivals)?;
    Ok(())
}

fn take_joined(
    rows: &[Vec<Packed>],
    preds: &[BlockId],
    joined: &[ValueId],
    arrivals: &mut Arrivals,
) -> Result<(), Memory>
    ensures { IfOk result (λ _. Takes rows.now arrivals.old arrivals.new
        (λ p. flat_map (inserted_entries p (map (λ block. block.0) preds.now)) (numbers_in joined.now))
        (λ here. flat_map (inserted_numbers here (map (λ block. block.0) preds.now)) (numbers_in joined.now))) }
{
    for value in joined {
        take_inserted(rows, preds, *value, arrivals)?;
    }
    Ok(())
}

fn take_inserted(
    rows: &[Vec<Packed>],
    preds: &[BlockId],
    value: ValueId,
    arrivals: &mut Arrivals,
) -> Result<(), Memory>
    ensures { IfOk result (λ _. Takes rows.now arrivals.old arrivals.new
        (λ p. inserted_entries p (map (λ block. block.0) preds.now) value.0)
        (λ here. inserted_numbers here (map (λ block. block.0) preds.now) value.0)) }
{
    for block in preds {
        take_number(rows, *block, value, arrivals)?;
    }
    Ok(())
}

fn take_phis(rows: &[Vec<Packed>], insts: &[Inst], arrivals: &mut Arrivals) -> Result<(), Memory>
    ensures { IfOk result (λ _. Takes rows.now arrivals.old arrivals.new (λ p. flat_map (phi_entries p) insts.now) (λ here. flat_map (phi_numbers here) insts.now)) }
{
    for inst in insts {
        take_phi(rows, inst, arrivals)?;
    }
    Ok(())
}

fn take_phi(rows: &[Vec<Packed>], inst: &Inst, arrivals: &mut Arrivals) -> Result<(), Memory>
    ensures { IfOk result (λ _. Takes rows.now arrivals.old arrivals.new (λ p. phi_entries p inst.now) (λ here. phi_numbers here inst.now)) }
{
    if is_phi(inst.op()) {
        take_labeled(rows, inst.labels(), inst.operands(), arrivals)?;
    }
    Ok(())
}

fn take_labeled(
    rows: &[Vec<Packed>],
    labels: &[BlockId],
    operands: &[Operand],
    arrivals: &mut Arrivals,
) -> Result<(), Memory>
    ensures { IfOk result (λ _. Takes rows.now arrivals.old arrivals.new (λ p. entries_for p labels.now operands.now) (λ here. labeled_numbers here labels.now operands.now)) }
{
    for place in 0..labels.len().min(operands.len()) {
        take_entry(rows, labels[place], operands[place], arrivals)?;
    }
    Ok(())
}

fn take_entry(
    rows: &[Vec<Packed>],
    label: BlockId,
    operand: Operand,
    arrivals: &mut Arrivals,
) -> Result<(), Memory>
    ensures { IfOk result (λ _. Takes rows.now arrivals.old arrivals.new (λ p. if label.0 == p then operand ∷ [] else []) (λ here. use_numbers (here label.0) (operand ∷ []))) }
{
    match operand {
        Operand::Value(value) => take_number(rows, label, value, arrivals),
        Operand::Int(_) | Operand::Null | Operand::Fun(_) => Ok(()),
    }
}

// The next entry of a block, which is of this value. Where the row has none, it is want of memory.
fn take_number(
    rows: &[Vec<Packed>],
    block: BlockId,
    value: ValueId,
    arrivals: &mut Arrivals,
) -> Result<(), Memory>
    ensures { IfOk result (λ _. Takes rows.now arrivals.old arrivals.new (λ p. if block.0 == p then Operand.Value (valued value.0) ∷ [] else []) (λ here. here block.0 value.0 ∷ [])) }
{
    let at = block.0 as usize;
    if at >= rows.len() || at >= arrivals.places.len() {
        return Err(Memory);
    }
    pop(rows[at].as_slice(), at, arrivals)?;
    Ok(())
}

fn pop(row: &[Packed], block: usize, arrivals: &mut Arrivals) -> Result<(), Memory>
    requires { block < length arrivals.old.places.items }
    ensures { IfOk result (λ _. Pops row.now block arrivals.old arrivals.new) }
{
    let place = arrivals.places[block];
    match row.get(place) {
        None => Err(Memory),
        Some(slot) => {
            arrivals.numbers.push(number_of(slot.slot()))?;
            arrivals.places[block] = place + 1;
            Ok(())
        }
    }
}

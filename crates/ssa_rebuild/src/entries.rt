//! What the entries of phis use, by the block for which they stand.

ghost use Rattle.std.specs.Prelude.{◌≡◌, ◌++◌, ◌==◌, if◌then◌else◌, [], ◌∷◌, map, IfOk};
ghost use Rattle.std.specs.List.{flat_map};
ghost use Rattle.ssa_rebuild.specs.Rows.{Grows, entries_for, inserted_entries, phi_entries};
ghost use Rattle.statepoint_insert.specs.Groups.{numbers_in};

use crate::lines::{is_phi, push_use};
use ir_ast::{Inst, Operand};
use sp_ids::{BlockId, Memory, ValueId};
use version_walk::Packed;

/// Adds the uses of the entries into a block, to the rows of the blocks for which they stand: those of its inserted phis, and then
/// those of its own.
pub(crate) fn add_entries(
    rows: &mut Vec<Vec<Packed>>,
    preds: &[BlockId],
    joined: &[ValueId],
    insts: &[Inst],
) -> Result<(), Memory>
    ensures { IfOk result (λ _. Grows rows.old.items rows.new.items
        (λ p. flat_map (inserted_entries p (map (λ block. block.0) preds.now)) (numbers_in joined.now) ++ flat_map (phi_entries p) insts.now)) }
{
    add_joined(rows, preds, joined)?;
    add_phis(rows, insts)?;
    Ok(())
}

fn add_joined(
    rows: &mut Vec<Vec<Packed>>,
    preds: &[BlockId],
    joined: &[ValueId],
) -> Result<(), Memory>
    ensures { IfOk result (λ _. Grows rows.old.items rows.new.items
        (λ p. flat_map (inserted_entries p (map (λ block. block.0) preds.now)) (numbers_in joined.now))) }
{
    for value in joined {
        add_inserted(rows, preds, *value)?;
    }
    Ok(())
}

fn add_inserted(
    rows: &mut Vec<Vec<Packed>>,
    preds: &[BlockId],
    value: ValueId,
) -> Result<(), Memory>
    ensures { IfOk result (λ _. Grows rows.old.items rows.new.items (λ p. inserted_entries p (map (λ block. block.0) preds.now) value.0)) }
{
    for block in preds {
        add_entry(rows, *block, Operand::Value(value))?;
    }
    Ok(())
}

fn add_phis(rows: &mut Vec<Vec<Packed>>, insts: &[Inst]) -> Result<(), Memory>
    ensures { IfOk result (λ _. Grows rows.old.items rows.new.items (λ p. flat_map (phi_entries p) insts.now)) }
{
    for inst in insts {
        add_phi(rows, inst)?;
    }
    Ok(())
}

fn add_phi(rows: &mut Vec<Vec<Packed>>, inst: &Inst) -> Result<(), Memory>
    ensures { IfOk result (λ _. Grows rows.old.items rows.new.items (λ p. phi_entries p inst.now)) }
{
    if is_phi(inst.op()) {
        add_labeled(rows, inst.labels(), inst.operands())?;
    }
    Ok(())
}

fn add_labeled(
    rows: &mut Vec<Vec<Packed>>,
    labels: &[BlockId],
    operands: &[Operand],
) -> Result<(), Memory>
    ensures { IfOk result (λ _. Grows rows.old.items rows.new.items (λ p. entries_for p labels.now operands.now)) }
{
    for place in 0..labels.len().min(operands.len()) {
        add_entry(rows, labels[place], operands[place])?;
    }
    Ok(())
}

fn add_entry(rows: &mut Vec<Vec<Packed>>, label: BlockId, operand: Operand) -> Result<(), Memory>
    ensures { IfOk result (λ _. Grows rows.old.items rows.new.items (λ p. if label.0 == p then operand ∷ [] else [])) }
{
    let block = label.0 as usize;
    if block < rows.len() {
        push_use(operand, &mut rows[block])?;
    }
    Ok(())
}

//! The slots of lines.

ghost use Rattle.std.specs.Prelude.{◌≡◌, ◌<◌, ◌≤◌, ◌+◌, ◌^◌, ◌++◌, [], ◌∷◌, length, map, slice_index_or, IfOk};
ghost use Rattle.ir_ast.specs.Faults.PhiEdges.{is_phi};
ghost use Rattle.object_meaning.specs.Lines.{following, numbered};
ghost use Rattle.object_meaning.specs.TargetRuns.{plain_lines};
ghost use Rattle.rewriting_forms.specs.Numbered.{is_call};
ghost use Rattle.ssa_rebuild.specs.Rows.{give_slot, use_slot, uses_of, held_in, own_slots, own_uses, plain_slots, call_slots, one_slots, listed_slots, count_of_call, calls_of, group_list};
ghost use Rattle.statepoint_insert.specs.Groups.{numbers_in};

use ir_ast::{Inst, Op, Operand, Ty};
use sp_ids::{Memory, ValueId};
use statepoint_insert::{Group, Relocate};
use version_walk::{Packed, Slot};

/// Adds the slots of these lines of a block, of which the first result is the value `first`, and the first call the one with
/// this number; gives the number of the next call.
pub(crate) fn push_lines(
    insts: &[Inst],
    first: u32,
    groups: &[Group],
    start: usize,
    row: &mut Vec<Packed>,
) -> Result<usize, Memory>
    requires values { first + length insts.now < 2 ^ 32 }
    requires calls { start + length insts.now < 2 ^ 64 }
    ensures row { IfOk result (λ _. row.new.items ≡ row.old.items ++ listed_slots (map group_list groups.now) start (plain_lines first insts.now)) }
    ensures calls { IfOk result (λ after. after ≡ calls_of start (plain_lines first insts.now)) }
{
    let mut next = first;
    let mut call = start;
    for inst in insts {
        let to = result_of(inst, next);
        call = push_line(inst, to, groups, call, row)?;
        next = following(next, inst);
    }
    Ok(call)
}

fn push_line(
    inst: &Inst,
    to: Option<u32>,
    groups: &[Group],
    call: usize,
    row: &mut Vec<Packed>,
) -> Result<usize, Memory>
    requires { call + 1 < 2 ^ 64 }
    ensures row { IfOk result (λ _. row.new.items ≡ row.old.items ++ one_slots (map group_list groups.now) call (record { to = to; inst = inst.now })) }
    ensures call { IfOk result (λ after. after ≡ call + count_of_call (record { to = to; inst = inst.now })) }
{
    if is_call(inst.op()) {
        push_call(inst, to, relocates_at(groups, call), row)?;
        return Ok(call + 1);
    }
    push_plain(inst, to, row)?;
    Ok(call)
}

/// The relocates of a call, or none where there is no such call.
pub(crate) fn relocates_at(groups: &[Group], call: usize) -> &[Relocate]
    ensures { map (λ relocate. relocate.value.0) result.now ≡ slice_index_or (map group_list groups.now) call [] }
{
    match groups.get(call) {
        Some(group) => group.relocates(),
        None => &[],
    }
}

fn push_plain(inst: &Inst, to: Option<u32>, row: &mut Vec<Packed>) -> Result<(), Memory>
    ensures { IfOk result (λ _. row.new.items ≡ row.old.items ++ plain_slots (record { to = to; inst = inst.now })) }
{
    push_own_uses(inst, row)?;
    push_held(inst.bundle(), row)?;
    push_own(to, row)?;
    Ok(())
}

fn push_call(
    inst: &Inst,
    to: Option<u32>,
    relocates: &[Relocate],
    row: &mut Vec<Packed>,
) -> Result<(), Memory>
    ensures { IfOk result (λ _. row.new.items ≡ row.old.items ++ call_slots (map (λ relocate. relocate.value.0) relocates.now) (record { to = to; inst = inst.now })) }
{
    push_uses(inst.operands(), row)?;
    push_entries(relocates, row)?;
    push_held(inst.bundle(), row)?;
    row.push(Packed::of(Slot::Token)?)?;
    push_own(to, row)?;
    push_relocated(relocates, row)?;
    Ok(())
}

fn push_own_uses(inst: &Inst, row: &mut Vec<Packed>) -> Result<(), Memory>
    ensures { IfOk result (λ _. row.new.items ≡ row.old.items ++ uses_of (own_uses inst.now)) }
{
    if !is_phi(inst.op()) {
        push_uses(inst.operands(), row)?;
    }
    Ok(())
}

fn push_uses(operands: &[Operand], row: &mut Vec<Packed>) -> Result<(), Memory>
    ensures { IfOk result (λ _. row.new.items ≡ row.old.items ++ uses_of operands.now) }
{
    for operand in operands {
        push_use(*operand, row)?;
    }
    Ok(())
}

/// Adds the use of an operand, where it is a value.
pub(crate) fn push_use(operand: Operand, row: &mut Vec<Packed>) -> Result<(), Memory>
    ensures { IfOk result (λ _. row.new.items ≡ row.old.items ++ uses_of (operand ∷ [])) }
{
    match operand {
        Operand::Value(value) => row.push(Packed::of(Slot::Use(value))?)?,
        Operand::Int(_) | Operand::Null | Operand::Fun(_) => {}
    }
    Ok(())
}

fn push_held(bundle: &[(Ty, Operand)], row: &mut Vec<Packed>) -> Result<(), Memory>
    ensures { IfOk result (λ _. row.new.items ≡ row.old.items ++ uses_of (held_in bundle.now)) }
{
    for entry in bundle {
        push_use(entry.1, row)?;
    }
    Ok(())
}

fn push_own(to: Option<u32>, row: &mut Vec<Packed>) -> Result<(), Memory>
    ensures { IfOk result (λ _. row.new.items ≡ row.old.items ++ own_slots to) }
{
    match to {
        Some(value) => row.push(Packed::of(Slot::Own(ValueId(value)))?)?,
        None => {}
    }
    Ok(())
}

fn push_entries(relocates: &[Relocate], row: &mut Vec<Packed>) -> Result<(), Memory>
    ensures { IfOk result (λ _. row.new.items ≡ row.old.items ++ map use_slot (map (λ relocate. relocate.value.0) relocates.now)) }
{
    for relocate in relocates {
        row.push(Packed::of(Slot::Use(relocate.value))?)?;
    }
    Ok(())
}

fn push_relocated(relocates: &[Relocate], row: &mut Vec<Packed>) -> Result<(), Memory>
    ensures { IfOk result (λ _. row.new.items ≡ row.old.items ++ map give_slot (map (λ relocate. relocate.value.0) relocates.now)) }
{
    for relocate in relocates {
        row.push(Packed::of(Slot::Give(relocate.value))?)?;
    }
    Ok(())
}

/// Adds the definitions of the phis that are inserted for these pointers.
pub(crate) fn push_joined(values: &[ValueId], row: &mut Vec<Packed>) -> Result<(), Memory>
    ensures { IfOk result (λ _. row.new.items ≡ row.old.items ++ map give_slot (numbers_in values.now)) }
{
    for value in values {
        row.push(Packed::of(Slot::Give(*value))?)?;
    }
    Ok(())
}

/// What an instruction gives, where its own result would be the value `next`.
pub(crate) fn result_of(inst: &Inst, next: u32) -> Option<u32>
    ensures { result ≡ (numbered next inst.now).to }
{
    match inst.result() {
        Some(_) => Some(next),
        None => None,
    }
}

/// The value after the result of an instruction.
pub(crate) fn following(next: u32, inst: &Inst) -> u32
    requires { next + 1 < 2 ^ 32 }
    ensures { result ≡ following next inst.now }
{
    match inst.result() {
        Some(_) => next + 1,
        None => next,
    }
}

/// Whether the operator calls a function that isn't a leaf.
pub(crate) fn is_call(op: &Op) -> bool
    ensures { result ≡ is_call op.now }
{
    match op {
        Op::Call { callee, .. } => !callee.is_leaf(),
        Op::Add
        | Op::Sub
        | Op::Mul
        | Op::Udiv
        | Op::Sdiv
        | Op::Urem
        | Op::Srem
        | Op::And
        | Op::Or
        | Op::Xor
        | Op::Shl
        | Op::Lshr
        | Op::Ashr
        | Op::Icmp(_)
        | Op::Trunc(_)
        | Op::Zext(_)
        | Op::Sext(_)
        | Op::Select
        | Op::Phi
        | Op::Gep { .. }
        | Op::Load
        | Op::Store
        | Op::Statepoint { .. }
        | Op::GcResult
        | Op::GcRelocate
        | Op::Br
        | Op::CondBr
        | Op::Switch
        | Op::Ret
        | Op::Unreachable => false,
    }
}

/// Whether the operator is a phi.
pub(crate) fn is_phi(op: &Op) -> bool
    ensures { result ≡ is_phi op.now }
{
    matches!(op, Op::Phi)
}

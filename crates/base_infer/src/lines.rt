//! The lines that stand for one instruction.

ghost use Rattle.std.specs.Prelude.{◌≡◌, ◌++◌, List, [], ◌∷◌, if◌then◌else◌, IfOk, OnOk};
ghost use Rattle.ir_ast.specs.Insts.{Instruction};
ghost use Rattle.ir_ast.specs.declared.ops.Op.{Op};
ghost use Rattle.base_forms.specs.Lines.{operand_at, kept_line, base_line, check, compared, compared_equal, compared_unequal, lines_for};
ghost use Rattle.base_infer.specs.Before.{lines_before, derived_relation, stands_alone};
ghost use Rattle.base_tables.specs.Tables.{tabled};
ghost use Rattle.base_tables.specs.Kinds.{any_marked};

use crate::parts::{base_line, check_line, name, negation, operand_at, renumber_inst, same_line};
use base_tables::Tables;
use ir_ast::{Inst, Op, Pred};
use sp_ids::Memory;
use std::alloc::Global;

/// Adds the lines for an instruction; its own result or the next one is the value `next`. It is inlined, so that the instruction is moved
/// into the list from where the walk over the old ones put it, and gets its new numbers there.
#[inline(always)]
pub(crate) fn push_lines(
    alloc: Global,
    tables: &Tables,
    next: usize,
    inst: Inst,
    lines: &mut Vec<Inst>,
) -> Result<(), Memory>
    ensures { IfOk result (λ _. lines.new.items ≡ lines.old.items ++ lines_for (tabled tables.now) next inst inst.op) }
{
    match derived_relation(tables, &inst) {
        Some(pred) => push_compared(alloc, tables, next, pred, inst, lines),
        None => {
            push_before(alloc, tables, next, &inst, lines)?;
            push_kept(alloc, tables, inst, lines)
        }
    }
}

// The relation of a compare with a derived operand.
fn derived_relation(tables: &Tables, inst: &Inst) -> Option<Pred>
    ensures { result ≡ derived_relation (tabled tables.now) inst.now inst.now.op }
{
    match inst.op() {
        Op::Icmp(pred) => {
            if !tables.any_derived(inst.operands()) {
                return None;
            }
            Some(*pred)
        }
        Op::Phi
        | Op::Select
        | Op::Load
        | Op::Store
        | Op::Add
        | Op::Sub
        | Op::Mul
        | Op::Udiv
        | Op::Sdiv
        | Op::Urem
        | Op::Srem
        | Op::And
        | Op::Or
        | Op::Xor
        | Op::Shl
        | Op::Lshr
        | Op::Ashr
        | Op::Trunc(_)
        | Op::Zext(_)
        | Op::Sext(_)
        | Op::Gep { .. }
        | Op::Call { .. }
        | Op::Statepoint { .. }
        | Op::GcResult
        | Op::GcRelocate
        | Op::Br
        | Op::CondBr
        | Op::Switch
        | Op::Ret
        | Op::Unreachable => None,
    }
}

// What stands before an instruction that stays.
fn push_before(
    alloc: Global,
    tables: &Tables,
    next: usize,
    inst: &Inst,
    lines: &mut Vec<Inst>,
) -> Result<(), Memory>
    ensures { IfOk result (λ _. lines.new.items ≡ lines.old.items ++ lines_before (tabled tables.now) next inst.now inst.now.op) }
{
    match inst.op() {
        Op::Phi => push_base(alloc, tables, next, false, inst, lines),
        Op::Select => push_base(alloc, tables, next, true, inst, lines),
        Op::Load => push_check(alloc, tables, 0, inst, lines),
        Op::Store => push_check(alloc, tables, 1, inst, lines),
        Op::Icmp(_)
        | Op::Add
        | Op::Sub
        | Op::Mul
        | Op::Udiv
        | Op::Sdiv
        | Op::Urem
        | Op::Srem
        | Op::And
        | Op::Or
        | Op::Xor
        | Op::Shl
        | Op::Lshr
        | Op::Ashr
        | Op::Trunc(_)
        | Op::Zext(_)
        | Op::Sext(_)
        | Op::Gep { .. }
        | Op::Call { .. }
        | Op::Statepoint { .. }
        | Op::GcResult
        | Op::GcRelocate
        | Op::Br
        | Op::CondBr
        | Op::Switch
        | Op::Ret
        | Op::Unreachable => Ok(()),
    }
}

/// Whether an instruction is all that stands for it.
pub(crate) fn stands_alone(tables: &Tables, inst: &Inst) -> bool
    ensures { result ≡ stands_alone (tabled tables.now) inst.now inst.now.op }
{
    match inst.op() {
        Op::Phi | Op::Select | Op::Icmp(_) => !tables.any_derived(inst.operands()),
        Op::Load | Op::Store => false,
        Op::Add
        | Op::Sub
        | Op::Mul
        | Op::Udiv
        | Op::Sdiv
        | Op::Urem
        | Op::Srem
        | Op::And
        | Op::Or
        | Op::Xor
        | Op::Shl
        | Op::Lshr
        | Op::Ashr
        | Op::Trunc(_)
        | Op::Zext(_)
        | Op::Sext(_)
        | Op::Gep { .. }
        | Op::Call { .. }
        | Op::Statepoint { .. }
        | Op::GcResult
        | Op::GcRelocate
        | Op::Br
        | Op::CondBr
        | Op::Switch
        | Op::Ret
        | Op::Unreachable => true,
    }
}

#[inline(always)]
fn push_kept(
    alloc: Global,
    tables: &Tables,
    inst: Inst,
    lines: &mut Vec<Inst>,
) -> Result<(), Memory>
    ensures { IfOk result (λ _. lines.new.items ≡ lines.old.items ++ kept_line (tabled tables.now) inst ∷ []) }
{
    lines.push(inst)?;
    renumber_last(alloc, tables, lines)
}

// Gives the last line the new numbers, where it stands.
#[inline(always)]
fn renumber_last(alloc: Global, tables: &Tables, lines: &mut Vec<Inst>) -> Result<(), Memory>
    ensures { (front : List Instruction) (inst : Instruction) → lines.old.items ≡ front ++ inst ∷ [] → OnOk result (lines.new.items ≡ front ++ kept_line (tabled tables.now) inst ∷ []) }
{
    match lines.last_mut() {
        Some(inst) => renumber_inst(alloc, tables, inst),
        None => Ok(()),
    }
}

// The base of a phi or select, where that is derived.
#[inline(never)]
fn push_base(
    alloc: Global,
    tables: &Tables,
    next: usize,
    is_select: bool,
    inst: &Inst,
    lines: &mut Vec<Inst>,
) -> Result<(), Memory>
    requires { inst.now.op ≡ (if is_select then Op.Select else Op.Phi) }
    ensures { IfOk result (λ _. lines.new.items ≡ lines.old.items
        ++ (if any_marked tables.now.derived inst.now.operands then base_line (tabled tables.now) next inst.now ∷ [] else [])) }
{
    if tables.any_derived(inst.operands()) {
        lines.push(base_line(alloc, tables, next, is_select, inst)?)?;
    }
    Ok(())
}

// A compare with a derived operand.
#[inline(never)]
fn push_compared(
    alloc: Global,
    tables: &Tables,
    next: usize,
    pred: Pred,
    inst: Inst,
    lines: &mut Vec<Inst>,
) -> Result<(), Memory>
    ensures { IfOk result (λ _. lines.new.items ≡ lines.old.items ++ compared (tabled tables.now) next inst pred) }
{
    match pred {
        Pred::Eq => push_equal(alloc, tables, inst, lines),
        Pred::Ne => push_unequal(alloc, tables, next, inst, lines),
        Pred::Ugt
        | Pred::Uge
        | Pred::Ult
        | Pred::Ule
        | Pred::Sgt
        | Pred::Sge
        | Pred::Slt
        | Pred::Sle => push_kept(alloc, tables, inst, lines),
    }
}

fn push_equal(
    alloc: Global,
    tables: &Tables,
    inst: Inst,
    lines: &mut Vec<Inst>,
) -> Result<(), Memory>
    ensures { IfOk result (λ _. lines.new.items ≡ lines.old.items ++ compared_equal (tabled tables.now) inst) }
{
    let first = operand_at(inst.operands(), 0);
    let second = operand_at(inst.operands(), 1);
    let (named, _op, _ty, _operands, _rest) = inst.into_parts();
    lines.push(same_line(alloc, tables, named, first, second)?)?;
    Ok(())
}

fn push_unequal(
    alloc: Global,
    tables: &Tables,
    next: usize,
    inst: Inst,
    lines: &mut Vec<Inst>,
) -> Result<(), Memory>
    ensures { IfOk result (λ _. lines.new.items ≡ lines.old.items ++ compared_unequal (tabled tables.now) next inst) }
{
    let first = operand_at(inst.operands(), 0);
    let second = operand_at(inst.operands(), 1);
    let (named, _op, _ty, _operands, _rest) = inst.into_parts();
    let own = name(alloc, b"sp.s", tables.same_rank(next))?;
    lines.push(same_line(alloc, tables, Some(own), first, second)?)?;
    lines.push(negation(alloc, tables, next, named)?)?;
    Ok(())
}

// The check before an access.
fn push_check(
    alloc: Global,
    tables: &Tables,
    place: usize,
    inst: &Inst,
    lines: &mut Vec<Inst>,
) -> Result<(), Memory>
    ensures { IfOk result (λ _. lines.new.items ≡ lines.old.items ++ check (tabled tables.now) inst.now (operand_at inst.now place) ∷ []) }
{
    let address = operand_at(inst.operands(), place);
    lines.push(check_line(alloc, tables, inst, address)?)?;
    Ok(())
}

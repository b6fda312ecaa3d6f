//! Marks of the values that are pointers.

ghost use Rattle.std.specs.Prelude.{◌≡◌, ◌++◌, ◌<◌, ◌^◌, [], ◌∷◌, if◌then◌else◌, map, filter, is_some, length, IfOk};
ghost use Rattle.std.specs.List.{range_with_len};
ghost use Rattle.ir_ast.specs.Types.{is_pointer};
ghost use Rattle.ir_ast.specs.Values.{value_types, outcome_type};
ghost use Rattle.live_sets.specs.Values.{result_is_pointer};
ghost use Rattle.ir_ast.specs.Operands.{valued};
ghost use Rattle.ir_ast.specs.Lists.{has_mark};

use ir_ast::{Func, Inst, Op, Ty};
use sp_ids::{Memory, ValueId};
use std::alloc::Global;

/// A mark for each value of a function: whether it is a pointer.
pub(crate) fn pointer_marks(alloc: Global, func: &Func) -> Result<Vec<bool>, Memory>
    ensures { IfOk result (λ marks. marks.items ≡ map is_pointer (value_types func.now.content)) }
{
    let mut marks = Vec::new(alloc);
    for arg in func.args() {
        marks.push(is_pointer(arg.ty))?;
    }
    for block in func.blocks() {
        add_results(block.insts(), &mut marks)?;
    }
    Ok(marks)
}

fn is_pointer(ty: Ty) -> bool
    ensures { result ≡ is_pointer ty }
{
    match ty {
        Ty::Ptr => true,
        Ty::Void | Ty::Int(_) | Ty::Token => false,
    }
}

fn add_results(insts: &[Inst], marks: &mut Vec<bool>) -> Result<(), Memory>
    ensures { IfOk result (λ _. marks.new.items ≡ marks.old.items ++ map result_is_pointer (filter (λ inst. is_some inst.result) insts.now)) }
{
    for inst in insts {
        if inst.result().is_some() {
            marks.push(gives_pointer(inst))?;
        }
    }
    Ok(())
}

fn gives_pointer(inst: &Inst) -> bool
    ensures { result ≡ result_is_pointer inst.now }
{
    match inst.op() {
        Op::Icmp(_) | Op::Trunc(_) | Op::Zext(_) | Op::Sext(_) | Op::Statepoint { .. } => false,
        Op::Add
        | Op::Sub
        | Op::Mul
        | Op::Udiv
        | Op::Sdiv
        | Op::Urem
        | Op::Srem
        | Op::And
        | Op::Or
        | Op::Xor
        | Op::Shl
        | Op::Lshr
        | Op::Ashr
        | Op::Select
        | Op::Phi
        | Op::Gep { .. }
        | Op::Load
        | Op::Store
        | Op::Call { .. }
        | Op::GcResult
        | Op::GcRelocate
        | Op::Br
        | Op::CondBr
        | Op::Switch
        | Op::Ret
        | Op::Unreachable => is_pointer(*inst.ty()),
    }
}

/// The marked values, in order.
pub(crate) fn marked(alloc: Global, marks: &[bool]) -> Result<Vec<ValueId>, Memory>
    requires { length marks.now < 2 ^ 32 }
    ensures { IfOk result (λ values. values.items ≡ map valued (filter (has_mark marks.now) (range_with_len 0 (length marks.now)))) }
{
    let mut values = Vec::new(alloc);
    for number in 0..marks.len() {
        keep(marks, number, &mut values)?;
    }
    Ok(values)
}

fn keep(marks: &[bool], number: usize, values: &mut Vec<ValueId>) -> Result<(), Memory>
    requires inside { number < length marks.now }
    requires few { length marks.now < 2 ^ 32 }
    ensures { IfOk result (λ _. values.new.items ≡ values.old.items ++ (if has_mark marks.now number then valued number ∷ [] else [])) }
{
    if marks[number] {
        values.push(ValueId(number as u32))?;
    }
    Ok(())
}

/// Whether a value is marked.
pub(crate) fn is_marked(marks: &[bool], number: usize) -> bool
    ensures { result ≡ has_mark marks.now number }
{
    marks.get(number).copied().unwrap_or(false)
}

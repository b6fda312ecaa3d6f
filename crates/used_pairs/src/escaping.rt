//! The pointers that a line lets out: stored, passed or answered.

ghost use Rattle.std.specs.Prelude.{◌≡◌, IfOk};
ghost use Rattle.pair_facts.specs.Uses.{pointers_of, passed_to, escaping};
ghost use Rattle.used_pairs.specs.Places.{is_pointer_at};

use fact_tables::insts::operand_at;
use ir_ast::{Callee, Inst, Op, Operand, Ty};
use sp_ids::Memory;
use std::alloc::Global;

/// The pointers that a line stores, passes, returns or compares, each of which must be its own base.
pub(crate) fn escaping(alloc: Global, inst: &Inst) -> Result<Vec<Operand>, Memory>
    ensures { IfOk result (λ operands. operands.items ≡ escaping inst.now.op inst.now) }
{
    match inst.op() {
        Op::Store => pointers_of(alloc, &[*inst.ty()], &[inst.operand_at(0)]),
        Op::Ret => pointers_of(alloc, &[*inst.ty()], &[inst.operand_at(0)]),
        Op::Icmp(_) => pointers_of(
            alloc,
            &[*inst.ty(), *inst.ty()],
            &[inst.operand_at(0), inst.operand_at(1)],
        ),
        Op::Call { callee, types } => passed_to(alloc, *callee, types.list(), inst.operands()),
        Op::Statepoint { callee, types, .. } => {
            passed_to(alloc, *callee, types.list(), inst.operands())
        }
        _ => Ok(Vec::new(alloc)),
    }
}

fn passed_to(
    alloc: Global,
    callee: Callee,
    types: &[Ty],
    operands: &[Operand],
) -> Result<Vec<Operand>, Memory>
    ensures { IfOk result (λ passed. passed.items ≡ passed_to callee types.now operands.now) }
{
    match callee {
        Callee::Check | Callee::Same => Ok(Vec::new(alloc)),
        _ => pointers_of(alloc, types, operands),
    }
}

// The operands whose type is a managed pointer.
fn pointers_of(alloc: Global, types: &[Ty], operands: &[Operand]) -> Result<Vec<Operand>, Memory>
    ensures { IfOk result (λ pointers. pointers.items ≡ pointers_of types.now operands.now) }
{
    let mut pointers = Vec::new(alloc);
    for place in 0..operands.len() {
        let operand = operand_at(operands, place);
        if is_pointer_at(types, place) {
            pointers.push(operand)?;
        }
    }
    Ok(pointers)
}

fn is_pointer_at(types: &[Ty], place: usize) -> bool
    ensures { result ≡ is_pointer_at types.now place }
{
    match types.get(place) {
        Some(ty) => ty.is_pointer(),
        None => false,
    }
}

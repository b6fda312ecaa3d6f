//! Loads and stores without their check.

ghost use Rattle.std.specs.Prelude.{◌≡◌, ◌<◌, length};
ghost use Rattle.ir_ast.specs.Cells.{kind_of, type_of};
ghost use Rattle.ir_ast.specs.declared.cells.Cell.{Cell};
ghost use Rattle.object_meaning.specs.Accesses.{cell_of};
ghost use Rattle.pair_facts.specs.Lines.{lines_at};
ghost use Rattle.pair_facts.specs.Uses.{accessed_at, is_checked};
ghost use Rattle.statepoint_verify.specs.Tests.{checks_by, is_check_of, is_unchecked};

use fact_tables::insts::inst_at;
use ir_ast::{Callee, Func, Inst, Op, Operand, Ty};

/// Whether the line at a place is a load or a store without a check of its address and kind directly before it.
pub(crate) fn is_unchecked(func: &Func, block: usize, place: usize) -> bool
    requires block { block < length func.now.content.blocks }
    requires place { place < length (lines_at func.now.content block) }
    ensures { result ≡ is_unchecked (lines_at func.now.content block) place }
{
    let inst = inst_at(func, block, place);
    match accessed_at(inst) {
        Some(address) => !is_checked(func, block, place, address, *inst.ty()),
        None => false,
    }
}

fn accessed_at(inst: &Inst) -> Option<Operand>
    ensures { result ≡ accessed_at inst.now.op inst.now }
{
    match inst.op() {
        Op::Load => Some(inst.operand_at(0)),
        Op::Store => Some(inst.operand_at(1)),
        _ => None,
    }
}

fn is_checked(func: &Func, block: usize, place: usize, address: Operand, ty: Ty) -> bool
    requires block { block < length func.now.content.blocks }
    requires place { place < length (lines_at func.now.content block) }
    ensures { result ≡ is_checked (lines_at func.now.content block) place address ty }
{
    if place == 0 {
        false
    } else {
        checks(inst_at(func, block, place - 1), address, ty)
    }
}

fn checks(inst: &Inst, address: Operand, ty: Ty) -> bool
    ensures { result ≡ checks_by address ty inst.now }
{
    is_check(inst.op())
        && inst.operand_at(1).is_same(address)
        && inst.operand_at(2).is_same(Operand::Int(kind_of(ty)))
}

fn is_check(op: &Op) -> bool
    ensures { result ≡ is_check_of op.now }
{
    match op {
        Op::Call { callee, .. } => matches!(callee, Callee::Check),
        _ => false,
    }
}

// The kind of the cell that has a type: of each cell, so that a cell more isn't taken for another.
fn kind_of(ty: Ty) -> u64
    ensures value { result ≡ kind_of (cell_of ty) }
    ensures each { (cell : Cell) → ty ≡ type_of cell → result ≡ kind_of cell }
{
    match ty {
        Ty::Ptr => 1,
        Ty::Void | Ty::Int(_) | Ty::Token => 0,
    }
}

//! What stands for an operand under a table, and what can stand for a result.

ghost use Rattle.std.specs.Prelude.{◌≡◌, ◌≤◌, [], ◌∷◌, IfSome, map, slice_get};
ghost use Rattle.std.specs.Bool.{OnTrue};
ghost use Rattle.std.specs.List.{list_all};
ghost use Rattle.ir_ast.specs.Operands.{index_in, is_literal};
ghost use Rattle.flat_code.specs.Actions.{ExtendsWell};
ghost use Rattle.folded_forms.specs.Foldable.{chosen};
ghost use Rattle.folded_forms.specs.Folded.{stands_for, stays};
ghost use Rattle.fold_tables.specs.Actions.{GivesLiteral, number_action, number_comparison, number_width};

use crate::pure::is_pure_at;
use flat_code::{Action, computed_number, width_of};
use ir_ast::{Inst, Op, Operand, Pred, Ty};

/// What stands for an operand: itself, where the table has no other.
pub fn stand_for(table: &[Operand], operand: Operand) -> Operand
    ensures { result ≡ stands_for table.now operand }
{
    match operand {
        Operand::Value(id) => table.get(id.0 as usize).copied().unwrap_or(operand),
        Operand::Int(_) | Operand::Null | Operand::Fun(_) => operand,
    }
}

/// Whether a value stands for itself.
pub(crate) fn stays(table: &[Operand], value: usize) -> bool
    ensures { result ≡ stays table.now value }
{
    match table.get(value) {
        None => true,
        Some(Operand::Value(id)) => id.0 as usize == value,
        Some(_) => false,
    }
}

/// Whether an operand stands for itself.
pub(crate) fn is_root(table: &[Operand], operand: Operand) -> bool
    ensures { OnTrue result (stands_for table.now operand ≡ operand) }
{
    match operand {
        Operand::Value(id) => stays(table, id.0 as usize),
        Operand::Int(_) | Operand::Null | Operand::Fun(_) => true,
    }
}

// ---- literals

fn are_literals(table: &[Operand], operands: &[Operand]) -> bool
    ensures { result ≡ list_all is_literal (map (stands_for table.now) operands.now) }
{
    for operand in operands {
        if !is_literal(stand_for(table, *operand)) {
            return false;
        }
    }
    true
}

/// Whether an operand is an integer literal.
pub(crate) fn is_literal(operand: Operand) -> bool
    ensures { result ≡ is_literal operand }
{
    matches!(operand, Operand::Int(_))
}

// The literal at a place under the table, or 0 where there is none.
fn literal_at(table: &[Operand], operands: &[Operand], place: usize) -> u64
    ensures { result ≡ index_in (slice_get (map (stands_for table.now) operands.now) place) }
{
    match operands.get(place) {
        None => 0,
        Some(operand) => number_of(stand_for(table, *operand)),
    }
}

fn number_of(operand: Operand) -> u64
    ensures { result ≡ index_in (Some operand) }
{
    match operand {
        Operand::Int(number) => number,
        Operand::Value(_) | Operand::Null | Operand::Fun(_) => 0,
    }
}

fn number_action(op: &Op, ty: &Ty) -> Option<Action>
    ensures value { result ≡ number_action op.now ty.now }
    ensures extends { IfSome result ExtendsWell }
{
    match op {
        Op::Add => Some(Action::Add),
        Op::Sub => Some(Action::Sub),
        Op::Mul => Some(Action::Mul),
        Op::Udiv => Some(Action::Udiv),
        Op::Sdiv => Some(Action::Sdiv),
        Op::Urem => Some(Action::Urem),
        Op::Srem => Some(Action::Srem),
        Op::And => Some(Action::And),
        Op::Or => Some(Action::Or),
        Op::Xor => Some(Action::Xor),
        Op::Shl => Some(Action::Shl),
        Op::Lshr => Some(Action::Lshr),
        Op::Ashr => Some(Action::Ashr),
        Op::Icmp(pred) => number_comparison(*pred, ty),
        Op::Trunc(_) => Some(Action::Truncate),
        Op::Zext(_) => Some(Action::Widen),
        Op::Sext(to) => Some(Action::SignExtend(width_of(&Ty::Int(*to)))),
        Op::Select
        | Op::Phi
        | Op::Gep { .. }
        | Op::Load
        | Op::Store
        | Op::Call { .. }
        | Op::Statepoint { .. }
        | Op::GcResult
        | Op::GcRelocate
        | Op::Br
        | Op::CondBr
        | Op::Switch
        | Op::Ret
        | Op::Unreachable => None,
    }
}

// Pointers aren't numbers.
fn number_comparison(pred: Pred, ty: &Ty) -> Option<Action>
    ensures value { result ≡ number_comparison pred ty.now }
    ensures extends { IfSome result ExtendsWell }
{
    match ty {
        Ty::Ptr => None,
        Ty::Void | Ty::Int(_) | Ty::Token => Some(Action::Compare(pred)),
    }
}

fn number_width(op: &Op, ty: &Ty) -> u32
    ensures value { result ≡ number_width op.now ty.now }
    ensures some_bits { 1 ≤ result }
    ensures word { result ≤ 64 }
{
    match op {
        Op::Trunc(to) => width_of(&Ty::Int(*to)),
        _ => width_of(ty),
    }
}

fn second_of(table: &[Operand], operands: &[Operand]) -> Option<Operand> {
    match operands.get(1) {
        None => None,
        Some(operand) => Some(stand_for(table, *operand)),
    }
}

/// The literal that a pure operator on numbers gives, where under the table all its operands are literals.
pub fn literal_given(table: &[Operand], inst: &Inst) -> Option<u64>
    ensures { IfSome result (GivesLiteral inst.now.op inst.now.ty (map (stands_for table.now) inst.now.operands)) }
{
    let action = number_action(inst.op(), inst.ty())?;
    if !are_literals(table, inst.operands()) {
        return None;
    }
    if !is_pure_at(inst.op(), inst.ty(), second_of(table, inst.operands())) {
        return None;
    }
    let width = number_width(inst.op(), inst.ty());
    let left = literal_at(table, inst.operands(), 0);
    let right = literal_at(table, inst.operands(), 1);
    match computed_number(action, width, left, right) {
        Ok(number) => Some(number),
        Err(_) => None,
    }
}

// ---- choices

/// The operand that a select chooses, where under the table its condition is a literal: what stands for it.
pub fn chosen(table: &[Operand], operands: &[Operand]) -> Option<Operand>
    ensures { result ≡ chosen (map (stands_for table.now) operands.now) }
{
    match operands {
        [asked, first, second] => chosen_by(
            stand_for(table, *asked),
            stand_for(table, *first),
            stand_for(table, *second),
        ),
        _ => None,
    }
}

fn chosen_by(asked: Operand, first: Operand, second: Operand) -> Option<Operand>
    ensures { result ≡ chosen (asked ∷ first ∷ second ∷ []) }
{
    match asked {
        Operand::Int(0) => Some(second),
        Operand::Int(_) => Some(first),
        Operand::Value(_) | Operand::Null | Operand::Fun(_) => None,
    }
}

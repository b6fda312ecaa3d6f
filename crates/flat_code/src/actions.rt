//! What a line of a module does, decoded.

ghost use Rattle.std.specs.Prelude.{◌≡◌, ◌≤◌, ◌%◌, ◌^◌, ◌*◌, length};
ghost use Rattle.ir_ast.specs.Sizes.{begins_at};
ghost use Rattle.object_meaning.specs.Accesses.{cell_of};
ghost use Rattle.object_meaning.specs.Computing.{element_bytes, field_bytes};
ghost use Rattle.flat_code.specs.Actions.{ExtendsWell};
ghost use Rattle.flat_code.specs.Flats.{flat_line, action_of, comparison, width_at, operand_at, is_straight, IsSizedLine};

use crate::lines::{Action, FlatLine};
use crate::numbers::width_of;
use ir_ast::{Cell, Elem, Inst, Layout, Op, Operand, Pred, Ty};

/// The decoded form of a line, whose result goes to this register.
pub(crate) fn flat_line(layouts: &[Layout], inst: &Inst, to: Option<u32>) -> FlatLine
    ensures line { result ≡ flat_line layouts.now (record { to = to; inst = inst.now }) }
    ensures sized { IsSizedLine result }
{
    FlatLine {
        action: action_of(layouts, inst.op(), inst.ty()),
        width: width_at(inst.op(), inst.ty()),
        to,
        first: operand_at(inst.operands(), 0),
        second: operand_at(inst.operands(), 1),
        third: operand_at(inst.operands(), 2),
    }
}

/// Whether a line takes effect in its frame and on objects alone.
pub(crate) fn is_straight(op: &Op) -> bool
    ensures { result ≡ is_straight op.now }
{
    match op {
        Op::Add
        | Op::Sub
        | Op::Mul
        | Op::Udiv
        | Op::Sdiv
        | Op::Urem
        | Op::Srem
        | Op::And
        | Op::Or
        | Op::Xor
        | Op::Shl
        | Op::Lshr
        | Op::Ashr
        | Op::Icmp(_)
        | Op::Trunc(_)
        | Op::Zext(_)
        | Op::Sext(_)
        | Op::Select
        | Op::Gep { .. }
        | Op::Load
        | Op::Store => true,
        Op::Phi
        | Op::Call { .. }
        | Op::Statepoint { .. }
        | Op::GcResult
        | Op::GcRelocate
        | Op::Br
        | Op::CondBr
        | Op::Switch
        | Op::Ret
        | Op::Unreachable => false,
    }
}

fn action_of(layouts: &[Layout], op: &Op, ty: &Ty) -> Action
    ensures value { result ≡ action_of layouts.now op.now ty.now }
    ensures extends { ExtendsWell result }
{
    match op {
        Op::Add => Action::Add,
        Op::Sub => Action::Sub,
        Op::Mul => Action::Mul,
        Op::Udiv => Action::Udiv,
        Op::Sdiv => Action::Sdiv,
        Op::Urem => Action::Urem,
        Op::Srem => Action::Srem,
        Op::And => Action::And,
        Op::Or => Action::Or,
        Op::Xor => Action::Xor,
        Op::Shl => Action::Shl,
        Op::Lshr => Action::Lshr,
        Op::Ashr => Action::Ashr,
        Op::Icmp(pred) => comparison(*pred, ty),
        Op::Trunc(_) => Action::Truncate,
        Op::Zext(_) => Action::Widen,
        Op::Sext(to) => Action::SignExtend(width_of(&Ty::Int(*to))),
        Op::Select => Action::Select,
        Op::Gep { elem, place, .. } => Action::Advance {
            scale: element_bytes(layouts, *elem),
            fixed: field_bytes(layouts, *elem, *place),
        },
        Op::Load => Action::Load(cell_of(ty)),
        Op::Store => Action::Store(cell_of(ty)),
        Op::Phi
        | Op::Call { .. }
        | Op::Statepoint { .. }
        | Op::GcResult
        | Op::GcRelocate
        | Op::Br
        | Op::CondBr
        | Op::Switch
        | Op::Ret
        | Op::Unreachable => Action::Nothing,
    }
}

fn comparison(pred: Pred, ty: &Ty) -> Action
    ensures value { result ≡ comparison pred ty.now }
    ensures extends { ExtendsWell result }
{
    match ty {
        Ty::Ptr => Action::ComparePointers(pred),
        Ty::Void | Ty::Int(_) | Ty::Token => Action::Compare(pred),
    }
}

fn width_at(op: &Op, ty: &Ty) -> u32
    ensures value { result ≡ width_at op.now ty.now }
    ensures some_bits { 1 ≤ result }
    ensures word { result ≤ 64 }
{
    match op {
        Op::Trunc(to) => width_of(&Ty::Int(*to)),
        Op::Gep { index_width, .. } => width_of(&Ty::Int(*index_width)),
        _ => width_of(ty),
    }
}

/// The operand at a place of a line, or 0 where there is none.
pub(crate) fn operand_at(operands: &[Operand], place: usize) -> Operand
    ensures { result ≡ operand_at operands.now place }
{
    match operands.get(place) {
        None => Operand::Int(0),
        Some(operand) => *operand,
    }
}

fn cell_of(ty: &Ty) -> Cell
    ensures { result ≡ cell_of ty.now }
{
    match ty {
        Ty::Ptr => Cell::Ptr,
        Ty::Void | Ty::Int(_) | Ty::Token => Cell::I64,
    }
}

/// The bytes of an element that `getelementptr` steps over, modulo 2^64.
pub fn element_bytes(layouts: &[Layout], elem: Elem) -> u64
    ensures { result ≡ element_bytes layouts.now elem % 2 ^ 64 }
{
    match elem {
        Elem::Int(width) => u64::from(width / 8),
        Elem::Ptr => 8,
        Elem::Layout(layout) => (Layout::fields_of(layouts, layout).len() as u64).wrapping_mul(8),
    }
}

/// The byte of an element at which the field that `getelementptr` names begins.
pub fn field_bytes(layouts: &[Layout], elem: Elem, place: Option<u32>) -> u64
    ensures { result ≡ field_bytes layouts.now elem place }
{
    match elem {
        Elem::Layout(layout) => match place {
            None => 0,
            Some(place) => begins_at(Layout::fields_of(layouts, layout), place),
        },
        Elem::Int(_) | Elem::Ptr => 0,
    }
}

fn begins_at(fields: &[Cell], place: u32) -> u64
    ensures { result ≡ begins_at fields.now place }
{
    if (place as usize) < fields.len() {
        8 * u64::from(place)
    } else {
        0
    }
}

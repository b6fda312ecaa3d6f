//! Instructions that compute a value from values and can't trap, and those for whose results something else stands.

ghost use Rattle.std.specs.Prelude.{◌≡◌, ◌≤◌, ◌-◌, ◌^◌, filter, is_some};
ghost use Rattle.std.specs.List.{list_all};
ghost use Rattle.ir_ast.specs.Operands.{is_literal};
ghost use Rattle.folded_forms.specs.Foldable.{is_foldable, only, other_than, substitute};
ghost use Rattle.fold_tables.specs.Checks.{agrees, first_of};
ghost use Rattle.folded_forms.specs.Pure.{divides, divides_signed, is_pure, is_pure_at, shifts};
ghost use Rattle.object_meaning.specs.Numbers.{width_of};

use crate::standing::{chosen, is_literal};
use flat_code::width_of;
use ir_ast::{Inst, Op, Operand, Ty};
use sp_ids::ValueId;

/// Whether an instruction computes a value from values and can't trap.
pub fn is_pure(inst: &Inst) -> bool
    ensures { result ≡ is_pure inst.now }
{
    is_pure_at(inst.op(), inst.ty(), inst.operands().get(1).copied())
}

/// Whether an operator with this second operand can't trap at the type of its line.
pub(crate) fn is_pure_at(op: &Op, ty: &Ty, second: Option<Operand>) -> bool
    ensures { result ≡ is_pure_at (width_of ty.now) second op.now }
{
    match op {
        Op::Add
        | Op::Sub
        | Op::Mul
        | Op::And
        | Op::Or
        | Op::Xor
        | Op::Icmp(_)
        | Op::Trunc(_)
        | Op::Zext(_)
        | Op::Sext(_)
        | Op::Select
        | Op::Phi
        | Op::Gep { .. } => true,
        Op::Udiv | Op::Urem => divides(second),
        Op::Sdiv | Op::Srem => divides_signed(width_of(ty), second),
        Op::Shl | Op::Lshr | Op::Ashr => shifts(width_of(ty), second),
        Op::Load
        | Op::Store
        | Op::Call { .. }
        | Op::Statepoint { .. }
        | Op::GcResult
        | Op::GcRelocate
        | Op::Br
        | Op::CondBr
        | Op::Switch
        | Op::Ret
        | Op::Unreachable => false,
    }
}

fn divides(second: Option<Operand>) -> bool
    ensures { result ≡ divides second }
{
    match second {
        Some(Operand::Int(number)) => number != 0,
        _ => false,
    }
}

fn divides_signed(width: u32, second: Option<Operand>) -> bool
    requires some_bits { 1 ≤ width }
    requires word { width ≤ 64 }
    ensures { result ≡ divides_signed width second }
{
    match second {
        Some(Operand::Int(number)) => number != 0 && number != greatest(width),
        _ => false,
    }
}

// The greatest number of a width.
fn greatest(width: u32) -> u64
    requires some_bits { 1 ≤ width }
    requires word { width ≤ 64 }
    ensures { result ≡ 2 ^ width - 1 }
{
    let highest = 1u64 << (width - 1);
    highest - 1 + highest
}

fn shifts(width: u32, second: Option<Operand>) -> bool
    ensures { result ≡ shifts width second }
{
    match second {
        Some(Operand::Int(number)) => number < u64::from(width),
        _ => false,
    }
}

/// Whether an instruction is a pure operator on integer literals, or a select or phi for which another operand stands.
pub(crate) fn is_foldable(value: ValueId, inst: &Inst) -> bool
    ensures { result ≡ is_foldable value.0 inst.now }
{
    (is_pure(inst) && !inst.op().is_phi() && are_literals(inst.operands()))
        || has_substitute(value, inst)
}

fn are_literals(operands: &[Operand]) -> bool
    ensures { result ≡ list_all is_literal operands.now }
{
    for operand in operands {
        if !is_literal(*operand) {
            return false;
        }
    }
    true
}

fn has_substitute(value: ValueId, inst: &Inst) -> bool
    ensures { result ≡ is_some (substitute value.0 inst.now.operands inst.now.op) }
{
    match inst.op() {
        Op::Select => has_choice(value, inst.operands()),
        Op::Phi => have_one_other(value, inst.operands()),
        _ => false,
    }
}

fn has_choice(value: ValueId, operands: &[Operand]) -> bool
    ensures { result ≡ is_some (substitute value.0 operands.now Op.Select) }
{
    match chosen(&[], operands) {
        Some(operand) => is_other(value, operand),
        None => false,
    }
}

/// Whether an operand isn't this value.
pub fn is_other(value: ValueId, operand: Operand) -> bool
    ensures { result ≡ other_than value.0 operand }
{
    !Operand::Value(value).is_same(operand)
}

// Whether those of the operands that aren't the value are all the same, of which there are some.
fn have_one_other(value: ValueId, operands: &[Operand]) -> bool
    ensures { result ≡ is_some (only (filter (other_than value.0) operands.now)) }
{
    let mut first = None;
    for operand in operands {
        if is_other(value, *operand) {
            if !agrees(first, *operand) {
                return false;
            }
            first = first_of(first, *operand);
        }
    }
    first.is_some()
}

fn agrees(first: Option<Operand>, operand: Operand) -> bool
    ensures { result ≡ agrees first operand }
{
    match first {
        None => true,
        Some(one) => one.is_same(operand),
    }
}

fn first_of(first: Option<Operand>, operand: Operand) -> Option<Operand>
    ensures { result ≡ first_of first operand }
{
    match first {
        None => Some(operand),
        Some(one) => Some(one),
    }
}

//! The pairs that `gc_check` and `gc_same` name.

ghost use Rattle.std.specs.Prelude.{◌≡◌, ◌^◌, ◌<◌};
ghost use Rattle.ir_ast.specs.Operands.{callee_of};
ghost use Rattle.pair_facts.specs.Uses.{use_at};
ghost use Rattle.used_pairs.specs.Places.{pair_of, IsChecked, AreCompared};

use fact_tables::insts::operand_at;
use ir_ast::{Callee, Inst, Op, Operand};

/// A pointer, and the base that a line takes for it.
#[derive(Clone, Copy)]
pub(crate) struct Pair {
    pub(crate) address: Operand,
    pub(crate) base: Operand,
}

fn pair_at(operands: &[Operand], place: usize) -> Pair
    requires { place < 2 ^ 63 }
    ensures { pair_of result ≡ use_at operands.now place }
{
    Pair {
        address: operand_at(operands, place + 1),
        base: operand_at(operands, place),
    }
}

fn callee_of(inst: &Inst) -> Option<Callee>
    ensures { result ≡ callee_of inst.now.op }
{
    match inst.op() {
        Op::Call { callee, .. } => Some(*callee),
        Op::Statepoint { callee, .. } => Some(*callee),
        _ => None,
    }
}

/// The pair of a `gc_check`.
pub(crate) fn checked(inst: &Inst) -> Option<Pair>
    ensures { IsChecked inst.now result }
{
    match callee_of(inst) {
        Some(Callee::Check) => Some(pair_at(inst.operands(), 0)),
        _ => None,
    }
}

/// The two pairs of a `gc_same`.
pub(crate) fn compared(inst: &Inst) -> Option<(Pair, Pair)>
    ensures { AreCompared inst.now result }
{
    match callee_of(inst) {
        Some(Callee::Same) => Some((pair_at(inst.operands(), 0), pair_at(inst.operands(), 2))),
        _ => None,
    }
}

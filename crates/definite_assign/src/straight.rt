//! The short way for a function of one block.

ghost use Rattle.std.specs.Prelude.{◌≡◌, ◌+◌, ◌<◌, ◌^◌, true, length, IsTrue, cond, is_some};
ghost use Rattle.std.specs.List.{All};
ghost use Rattle.ir_cfg.specs.DefiniteUses.{UsesAreDefinite};
ghost use Rattle.definite_assign.specs.Straight.{is_below, IsKnown, AreKnown};

use ir_ast::{Func, Inst, Op, Operand};

/// Whether it is one block, whose lines use nothing but arguments and results of lines before. No path is asked for then.
pub(crate) fn is_straight(func: &Func) -> bool
    ensures { IsTrue result → UsesAreDefinite func.now.content }
{
    let blocks = func.blocks();
    if blocks.len() != 1 {
        return false;
    }
    are_known(func.args().len(), blocks[0].insts())
}

// Whether each line uses nothing but values before it, of which so many are arguments.
fn are_known(arguments: usize, insts: &[Inst]) -> bool
    requires arguments { arguments < 2 ^ 30 }
    requires insts { length insts.now < 2 ^ 30 }
    ensures { IsTrue result → AreKnown arguments insts.now (length insts.now) }
{
    let mut known = arguments;
    for inst in insts {
        if !is_known(known, inst) {
            return false;
        }
        known += count_given(inst);
    }
    true
}

fn count_given(inst: &Inst) -> usize
    ensures { result ≡ cond (is_some inst.now.result) 1 0 }
{
    if inst.result().is_some() { 1 } else { 0 }
}

// Whether a line uses nothing but the first values.
fn is_known(limit: usize, inst: &Inst) -> bool
    ensures { IsTrue result → IsKnown limit inst.now }
{
    !matches!(inst.op(), Op::Phi) && inst.bundle().is_empty() && all_below(limit, inst.operands())
}

fn all_below(limit: usize, operands: &[Operand]) -> bool
    ensures { IsTrue result → All (λ operand. is_below limit operand ≡ true) operands.now }
{
    for operand in operands {
        if !is_below(limit, *operand) {
            return false;
        }
    }
    true
}

fn is_below(limit: usize, operand: Operand) -> bool
    ensures { result ≡ is_below limit operand }
{
    match operand {
        Operand::Value(value) => (value.0 as usize) < limit,
        Operand::Int(_) | Operand::Null | Operand::Fun(_) => true,
    }
}

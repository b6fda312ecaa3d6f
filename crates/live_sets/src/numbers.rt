//! The number of the first result of each block.

ghost use Rattle.std.specs.Prelude.{◌≡◌, ◌≤◌, ◌<◌, ◌+◌, length, IfOk};
ghost use Rattle.ir_ast.specs.Funcs.{instructions_of};
ghost use Rattle.object_meaning.specs.Lines.{following, after_all, registers_of};

use ir_ast::{Func, Inst};
use sp_ids::Memory;
use std::alloc::Global;

/// The number of the first result of each block, and last how many values there are.
pub(crate) fn first_numbers(alloc: Global, func: &Func) -> Result<Vec<usize>, Memory>
    ensures { IfOk result (λ numbers. numbers.items ≡ registers_of func.now.content) }
{
    let mut numbers = Vec::new(alloc);
    let mut next = func.args().len();
    for block in func.blocks() {
        numbers.push(next)?;
        next = after(next, block.insts());
    }
    numbers.push(next)?;
    Ok(numbers)
}

/// The number behind the results of these instructions.
pub(crate) fn after(first: usize, insts: &[Inst]) -> usize
    requires { first + length insts.now ≤ 18446744073709551615 }
    ensures { result ≡ after_all first insts.now }
{
    let mut next = first;
    for inst in insts {
        next = following(next, inst);
    }
    next
}

/// The number behind an instruction whose own result would have this one.
pub(crate) fn following(next: usize, inst: &Inst) -> usize
    requires { next < 18446744073709551615 }
    ensures { result ≡ following next inst.now }
{
    match inst.result() {
        Some(_) => next + 1,
        None => next,
    }
}

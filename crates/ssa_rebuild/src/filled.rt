//! Operands over the numbers of a stream.

ghost use Rattle.std.specs.Prelude.{◌≡◌, map, IfOk};
ghost use Rattle.rewriting_forms.specs.Numbered.{named};
ghost use Rattle.ssa_rebuild.specs.Rows.{held_in};
ghost use Rattle.ssa_rebuild.specs.Written.{put, put_left, filled, filled_bundle, left};

use crate::stream::Stream;
use ir_ast::{Operand, Operands, Ty};
use smallvec::SmallVec;
use sp_ids::{Memory, ValueId};
use std::alloc::Global;

fn put(operand: Operand, numbers: &mut Stream<'_>) -> Operand
    ensures value { result ≡ put numbers.old operand }
    ensures rest { numbers.new ≡ put_left numbers.old operand }
{
    match operand {
        Operand::Value(_) => {
            let number = numbers.first();
            numbers.skip(1);
            Operand::Value(ValueId(number))
        }
        Operand::Int(_) | Operand::Null | Operand::Fun(_) => operand,
    }
}

/// Gives each value among the operands the next number.
pub(crate) fn fill(operands: &mut [Operand], numbers: &mut Stream<'_>)
    ensures value { operands.new ≡ filled numbers.old operands.old }
    ensures rest { numbers.new ≡ left numbers.old operands.old }
{
    for operand in operands.iter_mut() {
        *operand = put(*operand, numbers);
    }
}

/// Gives each value among the entries of a bundle the next number.
pub(crate) fn fill_bundle(bundle: &mut [(Ty, Operand)], numbers: &mut Stream<'_>)
    ensures value { bundle.new ≡ filled_bundle numbers.old bundle.old }
    ensures rest { numbers.new ≡ left numbers.old (held_in bundle.old) }
{
    for entry in bundle.iter_mut() {
        *entry = (entry.0, put(entry.1, numbers));
    }
}

/// Values with these numbers, as operands.
pub(crate) fn values(alloc: Global, numbers: &[u32]) -> Result<Operands, Memory>
    ensures { IfOk result (λ operands. operands.items ≡ map (λ number. named number) numbers.now) }
{
    let mut operands = SmallVec::with_capacity(alloc, numbers.len())?;
    for number in numbers {
        operands.push(Operand::Value(ValueId(*number)))?;
    }
    Ok(operands)
}

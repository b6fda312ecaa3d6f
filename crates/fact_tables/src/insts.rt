//! The lines of a function by their places, and operands by theirs.

ghost use Rattle.std.specs.Prelude.{◌≡◌, ◌<◌, length};
ghost use Rattle.pair_facts.specs.Lines.{lines_at, line_in, operand_at};

use ir_ast::{Func, Inst, Operand};

/// The instruction at a place of a block.
pub fn inst_at(func: &Func, block: usize, place: usize) -> &Inst
    requires block { block < length func.now.content.blocks }
    requires place { place < length (lines_at func.now.content block) }
    ensures { result.now ≡ (line_in (lines_at func.now.content block) place).inst }
{
    &func.blocks()[block].insts()[place]
}

/// The operand at a place of a list, or the literal 0 where there is none.
pub fn operand_at(operands: &[Operand], place: usize) -> Operand
    ensures { result ≡ operand_at operands.now place }
{
    operands.get(place).copied().unwrap_or(Operand::Int(0))
}

//! How many words a frame has.
ghost use Rattle.std.specs.Prelude.{◌≡◌, ◌≤◌, ◌<◌, ◌^◌, fold, map, max, count_by};
ghost use Rattle.ir_ast.specs.Funcs.{instructions_of};
ghost use Rattle.frame_forms.specs.FrameSizes.{frame_words, is_named_integer, words_at};

use ir_ast::{Block, Func, Inst, Op, Operand, Ty};

/// How many words the frames of a function have without the return word.
pub(crate) fn frame_words(func: &Func) -> usize
    ensures value { result ≡ frame_words func.now.content }
    ensures small { result < 2 ^ 60 }
{
    most_of_blocks(func.blocks())
}

// The most words that an instruction of these blocks asks for.
fn most_of_blocks(blocks: &[Block]) -> usize
    ensures value { result ≡ fold max 0 (map words_at (instructions_of blocks.now)) }
    ensures small { result < 2 ^ 60 }
{
    let mut most = 0;
    for block in blocks {
        most = most_of(most, block.insts());
    }
    most
}

// The most of this number and the words that these instructions ask for.
fn most_of(start: usize, insts: &[Inst]) -> usize
    requires { start < 2 ^ 60 }
    ensures value { result ≡ fold max start (map words_at insts.now) }
    ensures small { result < 2 ^ 60 }
{
    let mut most = start;
    for inst in insts {
        most = most.max(words_at(inst));
    }
    most
}

fn words_at(inst: &Inst) -> usize
    ensures value { result ≡ words_at inst.now }
    ensures small { result < 2 ^ 60 }
{
    let Op::Statepoint { types, .. } = inst.op() else {
        return 0;
    };
    let live = inst.operands().len().saturating_sub(types.list().len());
    live + named_integers(inst.bundle())
}

// How many integers a bundle names.
fn named_integers(bundle: &[(Ty, Operand)]) -> usize
    ensures value { result ≡ count_by (λ entry. is_named_integer entry.0 entry.1) bundle.now }
    ensures small { result < 2 ^ 59 }
{
    bundle
        .iter()
        .filter(|entry| is_named_integer(entry.0, entry.1))
        .count()
}

pub(crate) fn is_named_integer(ty: Ty, operand: Operand) -> bool
    ensures { result ≡ is_named_integer ty operand }
{
    matches!(ty, Ty::Int(_)) && matches!(operand, Operand::Value(_))
}

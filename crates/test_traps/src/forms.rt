//! Whether a module is of the source form.

ghost use Rattle.std.specs.Prelude.{◌≡◌, ◌↔◌, IsTrue};
ghost use Rattle.std.specs.List.{All};
ghost use Rattle.flat_code.specs.Codes.{IsReadyModule};
ghost use Rattle.flat_code.specs.Spots.{AllReady};
ghost use Rattle.test_traps.specs.Forms.{BlockIsReady, FunctionIsReady};

use ir_ast::{Block, Func, Inst, Module};

/// Whether each of its lines is of the source form.
pub(crate) fn is_source_form(whole: &Module) -> bool
    ensures { IsTrue result → IsReadyModule whole.now.content }
{
    all_funcs(whole.funcs())
}

fn all_funcs(funcs: &[Func]) -> bool
    ensures { IsTrue result → All (λ func. FunctionIsReady func.content) funcs.now }
{
    funcs.iter().all(|func| all_blocks(func.blocks()))
}

fn all_blocks(blocks: &[Block]) -> bool
    ensures { IsTrue result ↔ All BlockIsReady blocks.now }
{
    blocks.iter().all(|block| all_insts(block.insts()))
}

fn all_insts(insts: &[Inst]) -> bool
    ensures { IsTrue result ↔ AllReady insts.now }
{
    insts.iter().all(|inst| !inst.op().is_rewritten())
}

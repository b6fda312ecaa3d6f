//! The first line with a use that some path reaches without its definition.

ghost use Rattle.std.specs.Prelude.{IfOk, IfNone, IfSome};
ghost use Rattle.std.specs.List.{All};
ghost use Rattle.ir_ast.specs.Formed.{IsFormed};
ghost use Rattle.ir_cfg.specs.DefiniteUses.{UsesAreDefinite};
ghost use Rattle.definite_assign.specs.Faults.{IsFirstLine};
ghost use Rattle.ir_types.specs.FirstMissed.{IsFirstMissed};

use definite_assign::definite_in;
use ir_ast::{Func, Module};
use sp_ids::Memory;
use std::alloc::Global;

fn first_missed_in(alloc: Global, func: &Func) -> Result<Option<u32>, Memory>
    requires { IsFormed func.now.content }
    ensures none { IfOk result (λ found. IfNone found (UsesAreDefinite func.now.content)) }
    ensures some { IfOk result (λ found. IfSome found (λ line. IsFirstLine func.now line)) }
{
    definite_in(alloc, func)
}

/// The line of the first instruction, in text order, with a use that some path from the entry of its function reaches
/// without the definition.
pub(crate) fn first_missed(alloc: Global, whole: &Module) -> Result<Option<u32>, Memory>
    requires { All IsFormed whole.now.content.funcs }
    ensures none { IfOk result (λ found. IfNone found (All UsesAreDefinite whole.now.content.funcs)) }
    ensures some { IfOk result (λ found. IfSome found (λ line. IsFirstMissed whole.now line)) }
{
    for func in whole.funcs() {
        if let Some(line) = first_missed_in(alloc, func)? {
            return Ok(Some(line));
        }
    }
    Ok(None)
}

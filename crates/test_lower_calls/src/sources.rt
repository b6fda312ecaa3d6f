//! The source module that a text stands for.

ghost use Rattle.std.specs.Prelude.{◌≤◌, length, IfOk};
ghost use Rattle.sp_ids.specs.declared.limits.TheConstants.{FILE_BYTES};
ghost use Rattle.ir_ast.specs.Formed.{IsFormedModule};
ghost use Rattle.ir_cfg.specs.SourceModules.{IsSourceModule};

use ir_ast::Module;
use ir_reader::{ReadFault, read};
use ir_types::{Fault, TypeFault, typed};
use std::alloc::Global;

/// The module, or the first fault, also one of reading.
pub(crate) fn source(alloc: Global, text: &[u8]) -> Result<Module, TypeFault>
    requires { length text.now ≤ FILE_BYTES }
    ensures source { IfOk result (λ whole. IsSourceModule whole.content) }
    ensures formed { IfOk result (λ whole. IsFormedModule whole.content) }
{
    match read(alloc, text) {
        Ok(raw) => typed(alloc, raw),
        Err(ReadFault::Syntax { line }) => Err(TypeFault::Fault(Fault { line, code: 1 })),
        Err(ReadFault::Limit { line }) => Err(TypeFault::Fault(Fault { line, code: 2 })),
        Err(ReadFault::Memory) => Err(TypeFault::Memory),
    }
}

//! The externals that a module may have to declare, and which of them its lines call.
ghost use Rattle.std.specs.Prelude.{◌≡◌, map};
ghost use Rattle.std.specs.List.{list_any};
ghost use Rattle.ir_ast.specs.Funcs.{content_of};
ghost use Rattle.print_tables.specs.Externals.{is_callee, is_result, is_statepoints, is_relocates, is_call_of, calls};

use ir_ast::{Block, Callee, Func, Inst, Op, Ty};

/// An external, or a family of intrinsics, that a module may have to declare.
#[derive(Clone, Copy)]
pub enum External {
    /// `gc_new` of the layout with this place.
    New(u32),
    Print,
    Read,
    TaskStart,
    Poll,
    Check,
    Same,
    StatepointFamily,
    RelocateFamily,
    /// `gc.result` of the integer type of this width.
    ResultOf(u32),
    /// `gc.result` of the pointer type.
    ResultPointer,
}

fn is_named(external: External, callee: Callee) -> bool
    ensures { result ≡ is_callee external callee }
{
    match external {
        External::New(layout) => match callee {
            Callee::New(other) => layout == other,
            _ => false,
        },
        External::Print => matches!(callee, Callee::Print),
        External::Read => matches!(callee, Callee::Read),
        External::TaskStart => matches!(callee, Callee::TaskStart),
        External::Poll => matches!(callee, Callee::Poll),
        External::Check => matches!(callee, Callee::Check),
        External::Same => matches!(callee, Callee::Same),
        _ => false,
    }
}

fn is_result_of(external: External, ty: Ty) -> bool
    ensures { result ≡ is_result external ty }
{
    match external {
        External::ResultOf(width) => match ty {
            Ty::Int(other) => width == other,
            Ty::Void | Ty::Ptr | Ty::Token => false,
        },
        External::ResultPointer => matches!(ty, Ty::Ptr),
        _ => false,
    }
}

fn is_statepoint(external: External) -> bool
    ensures { result ≡ is_statepoints external }
{
    matches!(external, External::StatepointFamily)
}

fn is_relocate(external: External) -> bool
    ensures { result ≡ is_relocates external }
{
    matches!(external, External::RelocateFamily)
}

// Whether this line calls the external.
fn does_call(external: External, inst: &Inst) -> bool
    ensures { result ≡ is_call_of external inst.now.op inst.now.ty }
{
    match inst.op() {
        Op::Call { callee, .. } => is_named(external, *callee),
        Op::Statepoint { callee, .. } => is_statepoint(external) || is_named(external, *callee),
        Op::GcResult => is_result_of(external, *inst.ty()),
        Op::GcRelocate => is_relocate(external),
        _ => false,
    }
}

/// Whether a line of these functions calls the external.
pub(crate) fn is_called(funcs: &[Func], external: External) -> bool
    ensures { result ≡ calls (map content_of funcs.now) external }
{
    any_calls(funcs, external)
}

fn any_calls(funcs: &[Func], external: External) -> bool
    ensures { result ≡ list_any (λ func. list_any (λ block. list_any (λ inst. is_call_of external inst.op inst.ty) block.insts) func.content.blocks) funcs.now }
{
    funcs.iter().any(|func| func_calls(func, external))
}

fn func_calls(func: &Func, external: External) -> bool
    ensures { result ≡ list_any (λ block. list_any (λ inst. is_call_of external inst.op inst.ty) block.insts) func.now.content.blocks }
{
    func.blocks()
        .iter()
        .any(|block| block_calls(block, external))
}

fn block_calls(block: &Block, external: External) -> bool
    ensures { result ≡ list_any (λ inst. is_call_of external inst.op inst.ty) block.now.insts }
{
    block.insts().iter().any(|inst| does_call(external, inst))
}

//! The first function.

ghost use Rattle.std.specs.Prelude.{◌≡◌, ◌⊎◌, ◌↔◌, IsTrue, IfSome, [], codes, map};
ghost use Rattle.ir_ast.specs.declared.types.Ty.TheVariants.{Int};
ghost use Rattle.ir_ast.specs.Faults.NoMain.{HasMain};
ghost use Rattle.ir_ast.specs.Funcs.{content_of};
ghost use Rattle.ir_verify.specs.Mains.{IsMain};

use ir_ast::{Func, Module, Ty};

fn is_named_main(func: &Func) -> bool
    ensures { IsTrue result ↔ (func.now.content.name ≡ codes "main") }
{
    func.name().bytes() == b"main".as_slice()
}

fn is_status(ty: Ty) -> bool
    ensures { IsTrue result ↔ ((ty ≡ Int 32) ⊎ (ty ≡ Int 64)) }
{
    matches!(ty, Ty::Int(32) | Ty::Int(64))
}

fn is_main(func: &Func) -> bool
    ensures { IsTrue result ↔ IsMain func.now.content }
{
    func.args().is_empty() && is_status(*func.answer())
}

/// Whether the first function named `@main` takes nothing and answers `i32` or `i64`.
pub(crate) fn has_main(module: &Module) -> bool
    ensures { IsTrue result ↔ HasMain «module».now.content }
{
    for func in module.funcs() {
        if is_named_main(func) {
            return is_main(func);
        }
    }
    false
}

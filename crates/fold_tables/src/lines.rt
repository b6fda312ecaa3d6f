//! Instructions with the values that they give.

ghost use Rattle.std.specs.Prelude.{◌≡◌, ◌+◌, ◌<◌, ◌^◌};
ghost use Rattle.object_meaning.specs.Lines.{following};

use ir_ast::Inst;

/// The value after that of an instruction, whose own would be the value `next`.
pub(crate) fn following(next: usize, inst: &Inst) -> usize
    requires { next + 1 < 2 ^ 64 }
    ensures { result ≡ following next inst.now }
{
    if inst.result().is_some() {
        next + 1
    } else {
        next
    }
}

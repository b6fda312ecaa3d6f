//! Where a run begins, which function a new task calls, and what is left of the input.

ghost use Rattle.std.specs.Prelude.{◌≡◌, ◌<◌, IfSome, codes, drop, length, slice_get};
ghost use Rattle.std.specs.List.{position};
ghost use Rattle.std.specs.Str.{bytes_eq};
ghost use Rattle.object_meaning.specs.Calls.{function_in};
ghost use Rattle.object_meaning.specs.Lines.{main_of};

use ir_ast::{Func, Module, Operand};

/// The number of `@main`, or 0 where there is none.
pub fn main_of(module: &Module) -> u32
    ensures { result ≡ main_of «module».now.content }
{
    match main_among(module.funcs()) {
        None => 0,
        Some(place) => place as u32,
    }
}

fn main_among(funcs: &[Func]) -> Option<usize>
    ensures value { result ≡ position (λ func. bytes_eq func.content.name (codes "main")) funcs.now }
    ensures within { IfSome result (λ place. place < length funcs.now) }
{
    funcs.iter().position(|func| is_main(func))
}

fn is_main(func: &Func) -> bool
    ensures { result ≡ bytes_eq func.now.content.name (codes "main") }
{
    func.name().bytes() == b"main".as_slice()
}

/// The function that a `task_start` with these arguments names.
pub fn function_in(operands: &[Operand]) -> u32
    ensures { result ≡ function_in (slice_get operands.now 0) }
{
    match operands.first() {
        Some(Operand::Fun(func)) => func.0,
        _ => 0,
    }
}

/// The number that is read next, if there is one.
pub fn first_of(input: &[i64]) -> Option<i64>
    ensures { result ≡ slice_get input.now 0 }
{
    input.first().copied()
}

/// The input behind the number that is read next.
pub fn rest_of(input: &[i64]) -> &[i64]
    ensures { result.now ≡ drop 1 input.now }
{
    match input {
        [] => &[],
        [_first, rest @ ..] => rest,
    }
}

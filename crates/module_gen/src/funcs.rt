//! The functions of a generated module.

ghost use Rattle.std.specs.Prelude.{◌≡◌, ◌<◌, ◌^◌, map, IfOk};
ghost use Rattle.std.specs.List.{range_with_len};
ghost use Rattle.ir_ast.specs.Funcs.{content_of, lines_of};
ghost use Rattle.ir_cfg.specs.Unreached.{zeros_of};
ghost use Rattle.generated_forms.specs.Bodies.{body};
ghost use Rattle.module_gen.specs.Written.{meant};
ghost use Rattle.generated_forms.specs.Modules.{function, function_at, visits, main_of};

use crate::draws::Draws;
use crate::lines::{Line, numbered_name, write};
use crate::shapes::{Shape, body};
use ir_ast::{Arg, Block, Func, Inst, Name, Operand, Ty};
use sp_ids::{FuncId, Memory, ValueId};
use std::alloc::Global;

/// The functions of all numbers, in their order, with room for one more.
pub(crate) fn functions(alloc: Global, seed: u64, size: u32) -> Result<Vec<Func>, Memory>
    requires { size < 2 ^ 30 }
    ensures content { IfOk result (λ funcs. map content_of funcs.items ≡ map (function_at seed) (range_with_len 0 size)) }
    ensures lines { IfOk result (λ funcs. map lines_of funcs.items ≡ map zeros_of (map content_of funcs.items)) }
{
    let mut draws = Draws::from_seed(seed);
    let mut funcs = Vec::with_capacity(alloc, size as usize + 1)?;
    for place in 0..size {
        let shape = Shape::numbered(draws.draw(Shape::COUNT));
        let constant = draws.draw(shape.bound());
        funcs.push(function(alloc, shape, place, constant)?)?;
    }
    Ok(funcs)
}

fn function(alloc: Global, shape: Shape, place: u32, constant: u64) -> Result<Func, Memory>
    requires { place < 2 ^ 30 }
    ensures content { IfOk result (λ func. func.content ≡ function place (body (meant shape) place constant)) }
    ensures lines { IfOk result (λ func. func.lines ≡ zeros_of func.content) }
{
    let name = numbered_name(alloc, b"g", place + 1)?;
    let mut args = Vec::with_capacity(alloc, 2)?;
    args.push(argument(alloc, b"o", Ty::Ptr)?)?;
    args.push(argument(alloc, b"x", Ty::Int(64))?)?;
    let blocks = body(alloc, shape, place, constant)?;
    Ok(Func::of(name, Ty::Int(64), args, blocks))
}

fn argument(alloc: Global, name: &[u8], ty: Ty) -> Result<Arg, Memory>
    ensures { IfOk result (λ arg. arg ≡ record { name = name.now; ty = ty }) }
{
    Ok(Arg {
        name: Name::of(alloc, name)?,
        ty,
    })
}

/// `@main`, which visits functions of so many numbers.
pub(crate) fn main_function(alloc: Global, size: u32) -> Result<Func, Memory>
    requires { size < 2 ^ 28 }
    ensures content { IfOk result (λ func. func.content ≡ main_of size) }
    ensures lines { IfOk result (λ func. func.lines ≡ zeros_of func.content) }
{
    let mut insts = visits(alloc, size)?;
    insts.push(write(
        alloc,
        Line::Return {
            answer: Operand::Int(0),
        },
    )?)?;
    let mut blocks = Vec::with_capacity(alloc, 1)?;
    blocks.push(Block::of(Name::of(alloc, b"entry")?, insts))?;
    let name = Name::of(alloc, b"main")?;
    Ok(Func::of(name, Ty::Int(64), Vec::new(alloc), blocks))
}

fn visits(alloc: Global, size: u32) -> Result<Vec<Inst>, Memory>
    requires { size < 2 ^ 28 }
    ensures { IfOk result (λ insts. insts.items ≡ visits size) }
{
    let object = ValueId(0);
    let mut insts = Vec::with_capacity(alloc, 2 * size as usize + 2)?;
    insts.push(write(
        alloc,
        Line::New {
            name: b"o",
            count: 1,
        },
    )?)?;
    for place in 0..size {
        let name = numbered_name(alloc, b"v", place + 1)?;
        let call = Line::Call {
            name: name.bytes(),
            func: FuncId(place),
            object,
            number: Operand::Int(u64::from(place) + 1),
        };
        insts.push(write(alloc, call)?)?;
        insts.push(write(
            alloc,
            Line::Print {
                number: ValueId(place + 1),
            },
        )?)?;
    }
    Ok(insts)
}

//! The bodies of generated functions, each over a constant.

ghost use Rattle.std.specs.Prelude.{◌≡◌, ◌<◌, [], ◌∷◌, map, IfOk};
ghost use Rattle.ir_ast.specs.Blocks.{EndsAtTerminator};
ghost use Rattle.generated_forms.specs.Shapes.{making, merging, merged, looping};
ghost use Rattle.module_gen.specs.Written.{written, meant};
ghost use Rattle.generated_forms.specs.Bodies.{shape_of, bound_of, body};

use crate::lines::{Line, write_all};
use ir_ast::{Block, Name, Operand, Ty};
use sp_ids::{BlockId, FuncId, Memory, ValueId};
use std::alloc::Global;

/// What a generated function does.
#[derive(Clone, Copy)]
pub(crate) enum Shape {
    /// It makes two objects, stores the constant in one and reads it back.
    Making,
    /// It adds the constant to a field of its object or of a new one, as a phi chooses, behind a call of the function
    /// before this one.
    Merging,
    /// It adds its number to a field of its object in a loop, as often as the constant says.
    Looping,
}

impl Shape {
    /// How many shapes there are.
    pub(crate) const COUNT: u64 = 3;

    pub(crate) fn numbered(number: u64) -> Shape
        ensures { meant result ≡ shape_of number }
    {
        match number {
            0 => Shape::Making,
            1 => Shape::Merging,
            _ => Shape::Looping,
        }
    }

    /// What the constant is below.
    pub(crate) fn bound(self) -> u64
        ensures bound { result ≡ bound_of (meant self) }
        ensures some { 0 < result }
    {
        match self {
            Shape::Making | Shape::Merging => 100,
            Shape::Looping => 10,
        }
    }
}

/// The first argument, an object.
const OBJECT: ValueId = ValueId(0);

/// The second argument.
const NUMBER: ValueId = ValueId(1);

/// The blocks of a function of this shape at this place.
pub(crate) fn body(
    alloc: Global,
    shape: Shape,
    place: u32,
    constant: u64,
) -> Result<Vec<Block>, Memory>
    ensures { IfOk result (λ blocks. blocks.items ≡ body (meant shape) place constant) }
{
    match shape {
        Shape::Making => making(alloc, constant),
        Shape::Merging => merging(alloc, place, constant),
        Shape::Looping => looping(alloc, constant),
    }
}

fn making(alloc: Global, constant: u64) -> Result<Vec<Block>, Memory>
    ensures { IfOk result (λ blocks. blocks.items ≡ making constant) }
{
    let mut blocks = Vec::with_capacity(alloc, 1)?;
    blocks.push(block(
        alloc,
        b"entry",
        &[
            Line::New {
                name: b"n",
                count: 2,
            },
            Line::Field {
                name: b"p",
                base: ValueId(2),
                element: 1,
            },
            Line::Store {
                what: Operand::Int(constant),
                to: ValueId(3),
            },
            Line::New {
                name: b"q",
                count: 1,
            },
            Line::Load {
                name: b"v",
                from: ValueId(3),
            },
            Line::Add {
                name: b"r",
                left: ValueId(5),
                right: Operand::Value(NUMBER),
            },
            Line::Return {
                answer: Operand::Value(ValueId(6)),
            },
        ],
    )?)?;
    Ok(blocks)
}

fn merging(alloc: Global, place: u32, constant: u64) -> Result<Vec<Block>, Memory>
    ensures { IfOk result (λ blocks. blocks.items ≡ merging place constant) }
{
    let mut blocks = Vec::with_capacity(alloc, 3)?;
    blocks.push(block(
        alloc,
        b"entry",
        &[
            Line::New {
                name: b"n",
                count: 1,
            },
            Line::Field {
                name: b"p1",
                base: OBJECT,
                element: 0,
            },
            Line::Below {
                name: b"c",
                left: NUMBER,
                right: constant,
            },
            Line::Branch {
                test: ValueId(4),
                taken: BlockId(1),
                other: BlockId(2),
            },
        ],
    )?)?;
    blocks.push(block(
        alloc,
        b"l",
        &[
            Line::Field {
                name: b"p2",
                base: ValueId(2),
                element: 0,
            },
            Line::Jump { to: BlockId(2) },
        ],
    )?)?;
    blocks.push(merged(alloc, place, constant)?)?;
    Ok(blocks)
}

// The block of the phi, with the call where there is a function before this one.
fn merged(alloc: Global, place: u32, constant: u64) -> Result<Block, Memory>
    ensures { IfOk result (λ made. made ≡ merged place constant) }
{
    let chosen = Line::Phi {
        name: b"p",
        ty: Ty::Ptr,
        first: Operand::Value(ValueId(3)),
        from: BlockId(0),
        second: ValueId(5),
        other: BlockId(1),
    };
    let load = Line::Load {
        name: b"v",
        from: ValueId(6),
    };
    if place == 0 {
        block(
            alloc,
            b"m",
            &[
                chosen,
                load,
                Line::Add {
                    name: b"r",
                    left: ValueId(7),
                    right: Operand::Int(constant),
                },
                Line::Store {
                    what: Operand::Value(ValueId(8)),
                    to: ValueId(6),
                },
                Line::Return {
                    answer: Operand::Value(ValueId(8)),
                },
            ],
        )
    } else {
        block(
            alloc,
            b"m",
            &[
                chosen,
                Line::Call {
                    name: b"k",
                    func: FuncId(place - 1),
                    object: OBJECT,
                    number: Operand::Value(NUMBER),
                },
                load,
                Line::Add {
                    name: b"r",
                    left: ValueId(8),
                    right: Operand::Int(constant),
                },
                Line::Store {
                    what: Operand::Value(ValueId(9)),
                    to: ValueId(6),
                },
                Line::Return {
                    answer: Operand::Value(ValueId(9)),
                },
            ],
        )
    }
}

fn looping(alloc: Global, constant: u64) -> Result<Vec<Block>, Memory>
    ensures { IfOk result (λ blocks. blocks.items ≡ looping constant) }
{
    let mut blocks = Vec::with_capacity(alloc, 3)?;
    blocks.push(block(
        alloc,
        b"entry",
        &[
            Line::Field {
                name: b"p0",
                base: OBJECT,
                element: 0,
            },
            Line::Jump { to: BlockId(1) },
        ],
    )?)?;
    blocks.push(block(
        alloc,
        b"loop",
        &[
            Line::Phi {
                name: b"i",
                ty: Ty::Int(64),
                first: Operand::Int(0),
                from: BlockId(0),
                second: ValueId(6),
                other: BlockId(1),
            },
            Line::Load {
                name: b"v",
                from: ValueId(2),
            },
            Line::Add {
                name: b"w",
                left: ValueId(4),
                right: Operand::Value(NUMBER),
            },
            Line::Store {
                what: Operand::Value(ValueId(5)),
                to: ValueId(2),
            },
            Line::Add {
                name: b"i1",
                left: ValueId(3),
                right: Operand::Int(1),
            },
            Line::Below {
                name: b"t",
                left: ValueId(6),
                right: constant,
            },
            Line::Branch {
                test: ValueId(7),
                taken: BlockId(1),
                other: BlockId(2),
            },
        ],
    )?)?;
    blocks.push(block(
        alloc,
        b"done",
        &[
            Line::Load {
                name: b"u",
                from: ValueId(2),
            },
            Line::Return {
                answer: Operand::Value(ValueId(8)),
            },
        ],
    )?)?;
    Ok(blocks)
}

fn block(alloc: Global, name: &[u8], lines: &[Line<'_>]) -> Result<Block, Memory>
    requires { EndsAtTerminator (map written lines.now) }
    ensures { IfOk result (λ made. made ≡ record { name = name.now; insts = map written lines.now }) }
{
    let named = Name::of(alloc, name)?;
    Ok(Block::of(named, write_all(alloc, lines)?))
}

//! What the line of each value says of derived pointers.

ghost use Rattle.std.specs.Prelude.{◌≡◌, ◌<◌, ◌^◌, ◌++◌, length, map, IfOk, is_some};
ghost use Rattle.std.specs.List.{filter};
ghost use Rattle.ir_ast.specs.Values.{definitions_of, outcome};
ghost use Rattle.base_tables.specs.Kinds.{kind_of, kind_by};
ghost use Rattle.base_tables.specs.Seen.{seen_shape};

use ir_ast::{Block, Func, Inst, Op, Operand, Pred};
use sp_ids::Memory;
use std::alloc::Global;

/// What a value's line says of derived pointers.
#[derive(Clone, Copy, Debug)]
pub(crate) enum Shape<'a> {
    /// Nothing.
    Plain,
    /// A `getelementptr`, with the pointer that it steps from.
    Step(Option<Operand>),
    /// A phi or a select, with its operands.
    Merge(&'a [Operand]),
    /// An `icmp ne`, with its operands.
    Unequal(&'a [Operand]),
}

/// The shape of each value, by its number.
pub(crate) fn shapes(alloc: Global, func: &Func) -> Result<Vec<Shape<'_>>, Memory>
    ensures kinds { IfOk result (λ shapes. map seen_shape shapes.items ≡ map kind_of (definitions_of func.now.content)) }
    ensures few { IfOk result (λ shapes. length shapes.items < 2 ^ 31) }
{
    let mut shapes = Vec::with_capacity(alloc, room(func))?;
    for _arg in func.args() {
        shapes.push(Shape::Plain)?;
    }
    for block in func.blocks() {
        add_shapes(block, &mut shapes)?;
    }
    Ok(shapes)
}

// Room for as many values as the function can have.
fn room(func: &Func) -> usize {
    let mut room = func.args().len();
    for block in func.blocks() {
        room = room.saturating_add(block.insts().len());
    }
    room
}

fn add_shapes<'a>(block: &'a Block, shapes: &mut Vec<Shape<'a>>) -> Result<(), Memory>
    ensures { IfOk result (λ _. map seen_shape shapes.new.items ≡ map seen_shape shapes.old.items
        ++ map kind_of (map outcome (filter (λ inst. is_some inst.result) block.now.insts))) }
{
    for inst in block.insts() {
        if inst.result().is_some() {
            shapes.push(shape_of(inst))?;
        }
    }
    Ok(())
}

fn shape_of(inst: &Inst) -> Shape<'_>
    ensures { seen_shape result ≡ kind_by inst.now.op inst.now.operands }
{
    match inst.op() {
        Op::Gep { .. } => Shape::Step(inst.operands().first().copied()),
        Op::Phi | Op::Select => Shape::Merge(inst.operands()),
        Op::Icmp(Pred::Ne) => Shape::Unequal(inst.operands()),
        Op::Icmp(
            Pred::Eq
            | Pred::Ugt
            | Pred::Uge
            | Pred::Ult
            | Pred::Ule
            | Pred::Sgt
            | Pred::Sge
            | Pred::Slt
            | Pred::Sle,
        )
        | Op::Add
        | Op::Sub
        | Op::Mul
        | Op::Udiv
        | Op::Sdiv
        | Op::Urem
        | Op::Srem
        | Op::And
        | Op::Or
        | Op::Xor
        | Op::Shl
        | Op::Lshr
        | Op::Ashr
        | Op::Trunc(_)
        | Op::Zext(_)
        | Op::Sext(_)
        | Op::Load
        | Op::Store
        | Op::Call { .. }
        | Op::Statepoint { .. }
        | Op::GcResult
        | Op::GcRelocate
        | Op::Br
        | Op::CondBr
        | Op::Switch
        | Op::Ret
        | Op::Unreachable => Shape::Plain,
    }
}

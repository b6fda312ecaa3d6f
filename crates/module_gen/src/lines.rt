//! The lines of generated functions.

ghost use Rattle.std.specs.Prelude.{◌≡◌, ◌∷◌, [], ◌++◌, map, IfOk, Some, None};
ghost use Rattle.ir_ast.specs.declared.types.Ty.{Ty};
ghost use Rattle.ir_ast.specs.declared.ops.Op.{Op};
ghost use Rattle.generated_forms.specs.Lines.{numbered_name, line};
ghost use Rattle.module_gen.specs.Written.{written};

use ir_ast::{Callee, Elem, Inst, Name, Op, Operand, Pred, Rest, Ty, Types};
use itoa::Buffer;
use smallvec::SmallVec;
use sp_ids::{BlockId, FuncId, Memory, ValueId};
use std::alloc::Global;

/// A line of a generated function, with the name of what it gives. P stands for `ptr addrspace(1)`, `%N` is the module's
/// only layout.
#[derive(Clone, Copy)]
pub(crate) enum Line<'a> {
    /// `%x = call P @gc_new.N(i64 count)`
    New {
        name: &'a [u8],
        count: u64,
    },
    /// `%x = getelementptr %N, P base, i64 element, i32 0`
    Field {
        name: &'a [u8],
        base: ValueId,
        element: u64,
    },
    /// `%x = load i64, P from`
    Load {
        name: &'a [u8],
        from: ValueId,
    },
    /// `store i64 what, P to`
    Store {
        what: Operand,
        to: ValueId,
    },
    /// `%x = add i64 left, right`
    Add {
        name: &'a [u8],
        left: ValueId,
        right: Operand,
    },
    /// `%x = icmp ult i64 left, right`
    Below {
        name: &'a [u8],
        left: ValueId,
        right: u64,
    },
    /// `%x = phi T [ first, %l ], [ second, %m ]`, with the blocks `from` and `other`
    Phi {
        name: &'a [u8],
        ty: Ty,
        first: Operand,
        from: BlockId,
        second: ValueId,
        other: BlockId,
    },
    /// `%x = call i64 @f(P object, i64 number)`
    Call {
        name: &'a [u8],
        func: FuncId,
        object: ValueId,
        number: Operand,
    },
    /// `call void @print_i64(i64 number)`
    Print {
        number: ValueId,
    },
    /// `br label %l`
    Jump {
        to: BlockId,
    },
    /// `br i1 test, label %l, label %m`
    Branch {
        test: ValueId,
        taken: BlockId,
        other: BlockId,
    },
    /// `ret i64 answer`
    Return {
        answer: Operand,
    },
}

/// The instructions of these lines.
pub(crate) fn write_all(alloc: Global, lines: &[Line<'_>]) -> Result<Vec<Inst>, Memory>
    ensures { IfOk result (λ insts. insts.items ≡ map written lines.now) }
{
    let mut insts = Vec::with_capacity(alloc, lines.len())?;
    for line in lines {
        insts.push(write(alloc, *line)?)?;
    }
    Ok(insts)
}

/// The instruction of a line.
pub(crate) fn write(alloc: Global, line: Line<'_>) -> Result<Inst, Memory>
    ensures { IfOk result (λ made. made ≡ written line.entry) }
{
    match line {
        Line::New { name, count } => {
            let op = call_of(alloc, Callee::New(0), &[Ty::Int(64)])?;
            give(alloc, name, op, Ty::Ptr, &[Operand::Int(count)])
        }
        Line::Field {
            name,
            base,
            element,
        } => {
            let op = Op::Gep {
                elem: Elem::Layout(0),
                index_width: 64,
                place: Some(0),
            };
            give(
                alloc,
                name,
                op,
                Ty::Ptr,
                &[Operand::Value(base), Operand::Int(element)],
            )
        }
        Line::Load { name, from } => give(
            alloc,
            name,
            Op::Load,
            Ty::Int(64),
            &[Operand::Value(from)],
        ),
        Line::Store { what, to } => act(
            alloc,
            Op::Store,
            Ty::Int(64),
            &[what, Operand::Value(to)],
            &[],
        ),
        Line::Add { name, left, right } => give(
            alloc,
            name,
            Op::Add,
            Ty::Int(64),
            &[Operand::Value(left), right],
        ),
        Line::Below { name, left, right } => give(
            alloc,
            name,
            Op::Icmp(Pred::Ult),
            Ty::Int(64),
            &[Operand::Value(left), Operand::Int(right)],
        ),
        Line::Phi {
            name,
            ty,
            first,
            from,
            second,
            other,
        } => merge(
            alloc,
            name,
            ty,
            &[first, Operand::Value(second)],
            &[from, other],
        ),
        Line::Call {
            name,
            func,
            object,
            number,
        } => {
            let op = call_of(alloc, Callee::Fun(func), &[Ty::Ptr, Ty::Int(64)])?;
            give(
                alloc,
                name,
                op,
                Ty::Int(64),
                &[Operand::Value(object), number],
            )
        }
        Line::Print { number } => {
            let op = call_of(alloc, Callee::Print, &[Ty::Int(64)])?;
            act(alloc, op, Ty::Void, &[Operand::Value(number)], &[])
        }
        Line::Jump { to } => act(alloc, Op::Br, Ty::Void, &[], &[to]),
        Line::Branch { test, taken, other } => act(
            alloc,
            Op::CondBr,
            Ty::Int(1),
            &[Operand::Value(test)],
            &[taken, other],
        ),
        Line::Return { answer } => act(alloc, Op::Ret, Ty::Int(64), &[answer], &[]),
    }
}

fn call_of(alloc: Global, callee: Callee, types: &[Ty]) -> Result<Op, Memory>
    ensures { IfOk result (λ op. op ≡ Op.Call callee types.now) }
{
    Ok(Op::Call {
        callee,
        types: Types::of(alloc, types)?,
    })
}

// A line that gives a value of its operands.
fn give(alloc: Global, name: &[u8], op: Op, ty: Ty, operands: &[Operand]) -> Result<Inst, Memory>
    ensures { IfOk result (λ made. made ≡ line (Some name.now) op ty operands.now []) }
{
    let named = Name::of(alloc, name)?;
    inst(alloc, Some(named), op, ty, operands, &[])
}

fn merge(
    alloc: Global,
    name: &[u8],
    ty: Ty,
    operands: &[Operand],
    labels: &[BlockId],
) -> Result<Inst, Memory>
    ensures { IfOk result (λ made. made ≡ line (Some name.now) Op.Phi ty operands.now labels.now) }
{
    let named = Name::of(alloc, name)?;
    inst(alloc, Some(named), Op::Phi, ty, operands, labels)
}

// A line without a result.
fn act(
    alloc: Global,
    op: Op,
    ty: Ty,
    operands: &[Operand],
    labels: &[BlockId],
) -> Result<Inst, Memory>
    ensures { IfOk result (λ made. made ≡ line None op ty operands.now labels.now) }
{
    inst(alloc, None, op, ty, operands, labels)
}

fn inst(
    alloc: Global,
    named: Option<Name>,
    op: Op,
    ty: Ty,
    operands: &[Operand],
    labels: &[BlockId],
) -> Result<Inst, Memory>
    ensures { IfOk result (λ made. made ≡ line named op ty operands.now labels.now) }
{
    Ok(Inst::of(
        named,
        op,
        ty,
        SmallVec::from_slice(alloc, operands)?,
        Rest::of(alloc, labels, Vec::new(alloc))?,
    ))
}

/// A name of this front and a number.
pub(crate) fn numbered_name(alloc: Global, front: &[u8], number: u32) -> Result<Name, Memory>
    ensures { IfOk result (λ name. name ≡ numbered_name front.now number) }
{
    let mut buffer = Buffer::new();
    let mut bytes = SmallVec::<u8, 16>::new(alloc);
    bytes.extend_from_slice(front)?;
    bytes.extend_from_slice(buffer.format(number).as_bytes())?;
    Ok(Name::of(alloc, bytes.as_slice())?)
}

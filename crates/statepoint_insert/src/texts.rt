//! The lines of a group.

ghost use Rattle.std.specs.Prelude.{◌≡◌, ◌+◌, ◌-◌, ◌<◌, ◌^◌, ◌++◌, [], ◌∷◌, length, map, decimal, IfOk};
ghost use Rattle.rewriting_forms.specs.Numbered.{named};
ghost use Rattle.statepoint_insert.specs.Texts.{live_entries, statepoint_line, result_lines, relocate_line, relocate_lines, first_rank};

use crate::groups::{Group, Relocate};
use crate::indices::first_rank;
use ir_ast::{Callee, Inst, Name, Op, Operand, Operands, Rest, Ty, Types};
use itoa::Buffer;
use smallvec::SmallVec;
use sp_ids::{Memory, ValueId};
use std::alloc::Global;

/// How many statepoints and relocates of a function stand before a line; their names are `%sp.tN` and `%sp.rN`.
#[derive(Clone, Copy, Debug, PartialEq, Eq)]
pub struct Counts {
    pub tokens: u32,
    pub relocates: u32,
}

/// The parts of a call.
#[derive(Debug, Drop)]
pub struct Call {
    pub named: Option<Name>,
    pub callee: Callee,
    pub types: Types,
    pub ty: Ty,
    pub operands: Operands,
    pub bundle: Vec<(Ty, Operand)>,
}

// `%sp.tN`, with its id, which every statepoint of the profile has.
pub(crate) fn statepoint(
    alloc: Global,
    number: u32,
    has_null: bool,
    live: &[u32],
    callee: Callee,
    types: Types,
    ty: Ty,
    operands: Operands,
    bundle: Vec<(Ty, Operand)>,
) -> Result<Inst, Memory>
    ensures { IfOk result (λ line. line ≡ statepoint_line number has_null live.now callee types ty operands.items bundle.items) }
{
    let named = name(alloc, b"sp.t", number)?;
    let entries = with_entries(operands, has_null, live)?;
    let op = Op::Statepoint {
        id: 2_882_400_000,
        callee,
        types,
    };
    let rest = Rest::of(alloc, &[], bundle)?;
    Ok(Inst::of(Some(named), op, ty, entries, rest))
}

fn with_entries(operands: Operands, has_null: bool, live: &[u32]) -> Result<Operands, Memory>
    ensures { IfOk result (λ after. after.items ≡ operands.items ++ live_entries has_null live.now) }
{
    let mut after = operands;
    after.reserve_exact(live.len().saturating_add(first_rank(has_null) as usize))?;
    if has_null {
        after.push(Operand::Null)?;
    }
    add_values(live, &mut after)?;
    Ok(after)
}

fn add_values(live: &[u32], operands: &mut Operands) -> Result<(), Memory>
    ensures { IfOk result (λ _. operands.new.items ≡ operands.old.items ++ map (λ v. named v) live.now) }
{
    for number in live {
        operands.push(Operand::Value(ValueId(*number)))?;
    }
    Ok(())
}

pub(crate) fn push_result(
    alloc: Global,
    token: u32,
    ty: Ty,
    named: Option<Name>,
    lines: &mut Vec<Inst>,
) -> Result<(), Memory>
    ensures { IfOk result (λ _. lines.new.items ≡ lines.old.items ++ result_lines token ty named) }
{
    if let Some(own) = named {
        let mut operands = SmallVec::new(alloc);
        operands.push(Operand::Value(ValueId(token)))?;
        lines.push(Inst::of(Some(own), Op::GcResult, ty, operands, Rest::nothing()))?;
    }
    Ok(())
}

pub(crate) fn push_relocates(
    alloc: Global,
    token: u32,
    first: u32,
    group: &Group,
    lines: &mut Vec<Inst>,
) -> Result<(), Memory>
    requires { first + length group.now.relocates < 2 ^ 32 - 1 }
    ensures { IfOk result (λ _. lines.new.items ≡ lines.old.items ++ relocate_lines token first (first_rank group.now.has_null) group.now.relocates) }
{
    let mut count = first;
    let mut rank = first_rank(group.has_null()) as u64;
    for relocate in group.relocates() {
        lines.push(relocate_line(alloc, token, count, rank, *relocate)?)?;
        count += 1;
        rank += 1;
    }
    Ok(())
}

fn relocate_line(
    alloc: Global,
    token: u32,
    count: u32,
    rank: u64,
    relocate: Relocate,
) -> Result<Inst, Memory>
    ensures { IfOk result (λ line. line ≡ relocate_line token count rank relocate) }
{
    let named = name(alloc, b"sp.r", count)?;
    let mut operands = SmallVec::new(alloc);
    operands.push(Operand::Value(ValueId(token)))?;
    operands.push(Operand::Int(relocate.base as u64))?;
    operands.push(Operand::Int(rank))?;
    Ok(Inst::of(
        Some(named),
        Op::GcRelocate,
        Ty::Ptr,
        operands,
        Rest::nothing(),
    ))
}

// A name of this front and a number.
fn name(alloc: Global, front: &[u8], number: u32) -> Result<Name, Memory>
    ensures { IfOk result (λ name. name ≡ front.now ++ decimal number) }
{
    let mut buffer = Buffer::new();
    let mut bytes = SmallVec::<u8, 16>::new(alloc);
    bytes.extend_from_slice(front)?;
    bytes.extend_from_slice(buffer.format(number).as_bytes())?;
    Ok(Name::of(alloc, bytes.as_slice())?)
}

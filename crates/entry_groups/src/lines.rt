//! The lines of a block behind the group, and those of the entry.

ghost use Rattle.std.specs.Prelude.{◌≡◌, ◌≤◌, ◌++◌, [], true, false, drop, length, map, slice_index, take, IfOk, OnOk};
ghost use Rattle.ir_ast.specs.Ops.{is_terminator};
ghost use Rattle.entry_groups.specs.Entry.{put, put_line, first_lines, entry_lines, goes_on};
ghost use Rattle.ssa_rebuild.specs.Rows.{group_list};

use ir_ast::{Inst, Op, Operand, Rest, Ty};
use smallvec::SmallVec;
use sp_ids::{Memory, ValueId};
use statepoint_insert::{Call, Counts, Group, push_group};
use std::alloc::Global;
use std::mem;

// Gives lines these numbers, where they stand.
fn put_all(alloc: Global, row: &[u32], lines: &mut [Inst]) -> Result<(), Memory>
    ensures { OnOk result (lines.new ≡ map (put_line row.now) lines.old) }
{
    for inst in lines.iter_mut() {
        put_line(alloc, row, inst)?;
    }
    Ok(())
}

/// The lines with these numbers.
pub(crate) fn with_numbers(
    alloc: Global,
    row: &[u32],
    mut lines: Vec<Inst>,
) -> Result<Vec<Inst>, Memory>
    ensures { IfOk result (λ after. after.items ≡ map (put_line row.now) lines.items) }
{
    put_all(alloc, row, lines.as_mut_slice())?;
    Ok(lines)
}

fn put_line(alloc: Global, row: &[u32], inst: &mut Inst) -> Result<(), Memory>
    ensures { OnOk result (inst.new ≡ put_line row.now inst.old) }
{
    if inst.bundle().is_empty() {
        put_operands(row, inst);
        return Ok(());
    }
    put_with_bundle(alloc, row, inst)
}

// The rarer part of `put_line`.
#[inline(never)]
fn put_with_bundle(alloc: Global, row: &[u32], inst: &mut Inst) -> Result<(), Memory>
    ensures { OnOk result (inst.new ≡ put_line row.now inst.old) }
{
    let old = mem::replace(inst, no_line(alloc));
    *inst = with_bundle(alloc, row, old)?;
    Ok(())
}

fn put_operands(row: &[u32], inst: &mut Inst)
    requires { inst.old.bundle ≡ [] }
    ensures { inst.new ≡ put_line row.now inst.old }
{
    put_each(row, inst.operands_mut());
}

fn no_line(alloc: Global) -> Inst {
    Inst::of(
        None,
        Op::Unreachable,
        Ty::Void,
        SmallVec::new(alloc),
        Rest::nothing(),
    )
}

fn with_bundle(alloc: Global, row: &[u32], inst: Inst) -> Result<Inst, Memory>
    ensures { IfOk result (λ line. line ≡ put_line row.now inst) }
{
    let mut bundle = Vec::from_slice(alloc, inst.bundle())?;
    put_entries(row, bundle.as_mut_slice());
    let rest = Rest::of(alloc, inst.labels(), bundle)?;
    let (named, op, ty, mut operands, _rest) = inst.into_parts();
    put_each(row, operands.as_mut_slice());
    Ok(Inst::of(named, op, ty, operands, rest))
}

fn put_each(row: &[u32], operands: &mut [Operand])
    ensures { operands.new ≡ map (put row.now) operands.old }
{
    for operand in operands.iter_mut() {
        *operand = put(row, *operand);
    }
}

fn put_entries(row: &[u32], entries: &mut [(Ty, Operand)])
    ensures { entries.new ≡ map (λ entry. (entry.0, put row.now entry.1)) entries.old }
{
    for entry in entries.iter_mut() {
        *entry = (entry.0, put(row, entry.1));
    }
}

fn put(row: &[u32], operand: Operand) -> Operand
    ensures { result ≡ put row.now operand }
{
    match operand {
        Operand::Value(value) => Operand::Value(ValueId(number_at(row, value.0 as usize))),
        Operand::Int(word) => Operand::Int(word),
        Operand::Null => Operand::Null,
        Operand::Fun(func) => Operand::Fun(func),
    }
}

fn number_at(row: &[u32], place: usize) -> u32
    ensures { result ≡ slice_index row.now place }
{
    row.get(place).copied().unwrap_or(0)
}

/// The lines of the entry, with its group in place of its first line.
pub(crate) fn entry_lines(
    alloc: Global,
    token: u32,
    group: &Group,
    row: &[u32],
    mut insts: Vec<Inst>,
) -> Result<Vec<Inst>, Memory>
    ensures lines { IfOk result (λ lines. lines.items ≡ entry_lines token group.now row.now insts.items) }
    ensures goes_on { IfOk result (λ _. goes_on insts.items ≡ true) }
{
    if insts.is_empty() {
        return Err(Memory);
    }
    let nothing = no_line(alloc);
    let first = mem::replace(&mut insts[0], nothing);
    let mut front = Vec::with_capacity(alloc, group.relocates().len().saturating_add(1))?;
    push_first(alloc, token, group, first, &mut front)?;
    with_front(alloc, row, insts, front)
}

// The lines with others in place of the first, and with new numbers behind these. Where their list has room they are moved up in it, and no
// memory is touched anew. They are moved before they get their numbers: the move fetches a long list, and the numbers find it in the cache.
fn with_front(
    alloc: Global,
    row: &[u32],
    mut lines: Vec<Inst>,
    front: Vec<Inst>,
) -> Result<Vec<Inst>, Memory>
    requires { 1 ≤ length lines.items }
    ensures { IfOk result (λ after. after.items ≡ front.items ++ map (put_line row.now) (drop 1 lines.items)) }
{
    let behind = front.len();
    lines.splice(0..1, front)?;
    put_behind(alloc, row, behind, &mut lines)?;
    Ok(lines)
}

// Gives lines these numbers, from a place on.
fn put_behind(alloc: Global, row: &[u32], from: usize, lines: &mut Vec<Inst>) -> Result<(), Memory>
    requires { from ≤ length lines.old.items }
    ensures { OnOk result (lines.new.items ≡ take from lines.old.items ++ map (put_line row.now) (drop from lines.old.items)) }
{
    put_all(alloc, row, &mut lines[from..])
}

fn push_first(
    alloc: Global,
    token: u32,
    group: &Group,
    first: Inst,
    lines: &mut Vec<Inst>,
) -> Result<(), Memory>
    ensures lines { IfOk result (λ _. lines.new.items ≡ lines.old.items ++ first_lines token group.now first first.op) }
    ensures goes_on { IfOk result (λ _. is_terminator first.op ≡ false) }
{
    if group.relocates().len() >= 1 << 30 {
        return Err(Memory);
    }
    let live = values(alloc, group)?;
    let bundle = Vec::from_slice(alloc, first.bundle())?;
    let (named, op, ty, operands, _rest) = first.into_parts();
    match op {
        Op::Call { callee, types } => {
            let call = Call {
                named,
                callee,
                types,
                ty,
                operands,
                bundle,
            };
            push_group(
                alloc,
                call,
                group,
                live.as_slice(),
                token,
                no_counts(),
                lines,
            )
        }
        _ => Err(Memory),
    }
}

fn no_counts() -> Counts
    ensures { result ≡ record { tokens = 0; relocates = 0 } }
{
    Counts {
        tokens: 0,
        relocates: 0,
    }
}

fn values(alloc: Global, group: &Group) -> Result<Vec<u32>, Memory>
    ensures { IfOk result (λ values. values.items ≡ group_list group.now) }
{
    let relocates = group.relocates();
    let mut values = Vec::with_capacity(alloc, relocates.len())?;
    for relocate in relocates {
        values.push(relocate.value.0)?;
    }
    Ok(values)
}

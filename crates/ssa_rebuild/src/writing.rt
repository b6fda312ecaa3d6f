//! The lines of the final text.

ghost use Rattle.std.specs.Prelude.{◌≡◌, List, true, false, ◌≤◌, ◌++◌, [], ◌∷◌, ◌+◌, ◌-◌, ◌<◌, ◌^◌, if◌then◌else◌, length, take, drop, decimal, IfOk, OnOk};
ghost use Rattle.ir_ast.specs.declared.ops.Op.{Op};
ghost use Rattle.std.specs.List.{list_any};
ghost use Rattle.ir_ast.specs.Faults.PhiEdges.{is_phi};
ghost use Rattle.statepoint_insert.specs.Groups.{GroupContent};
ghost use Rattle.rewriting_forms.specs.Numbered.{is_call};
ghost use Rattle.ssa_rebuild.specs.Rows.{own_uses};
ghost use Rattle.ssa_rebuild.specs.Written.{filled, left, results_in, phi_uses, entries_left, operands_written, plain_written, plain_left, call_written, call_left, group_at, counts_with, line_written, after, kept_after, with_filled, written, behind, phi_line, phi_after, phi_lines, phis_behind};

use crate::filled::{fill, fill_bundle, values};
use crate::lines::{is_call, is_phi};
use crate::stream::Stream;
use ir_ast::{Callee, Inst, Name, Op, Operand, Operands, Rest, Ty, Types};
use itoa::Buffer;
use smallvec::SmallVec;
use sp_ids::{BlockId, Memory, ValueId};
use statepoint_insert::{Call, Counts, Group, push_group};
use std::alloc::Global;
use std::mem;

/// What is still to be written: the counts of names, the numbers of the block's slots, and those of all entries of phis.
#[derive(Drop)]
pub(crate) struct Writing<'a> {
    pub(crate) counts: Counts,
    pub(crate) joined: u32,
    pub(crate) body: Stream<'a>,
    pub(crate) entries: Stream<'a>,
}

/// Adds the phis that are inserted for these values.
pub(crate) fn push_phis(
    alloc: Global,
    preds: &[BlockId],
    values: &[ValueId],
    writing: &mut Writing<'_>,
    numbers: &mut Vec<u32>,
    lines: &mut Vec<Inst>,
) -> Result<(), Memory>
    ensures lines { IfOk result (λ _. lines.new.items ≡ lines.old.items ++ phi_lines preds.now writing.old values.now) }
    ensures writing { IfOk result (λ _. writing.new ≡ phis_behind preds.now writing.old values.now) }
{
    for _value in values {
        push_phi(alloc, preds, writing, numbers, lines)?;
    }
    Ok(())
}

fn push_phi(
    alloc: Global,
    preds: &[BlockId],
    writing: &mut Writing<'_>,
    numbers: &mut Vec<u32>,
    lines: &mut Vec<Inst>,
) -> Result<(), Memory>
    ensures lines { IfOk result (λ _. lines.new.items ≡ lines.old.items ++ phi_line preds.now writing.old ∷ []) }
    ensures writing { IfOk result (λ _. writing.new ≡ phi_after preds.now writing.old) }
{
    if writing.joined == u32::MAX {
        return Err(Memory);
    }
    writing.entries.next_ones(preds.len(), numbers)?;
    let operands = values(alloc, numbers.as_slice())?;
    let named = name(alloc, b"sp.m", writing.joined)?;
    let rest = Rest::of(alloc, preds, Vec::new(alloc))?;
    lines.push(Inst::of(Some(named), Op::Phi, Ty::Ptr, operands, rest))?;
    writing.body.skip(1);
    writing.joined += 1;
    Ok(())
}

fn name(alloc: Global, front: &[u8], number: u32) -> Result<Name, Memory>
    ensures { IfOk result (λ name. name ≡ front.now ++ decimal number) }
{
    let mut buffer = Buffer::new();
    let mut bytes = SmallVec::<u8, 16>::new(alloc);
    bytes.extend_from_slice(front)?;
    bytes.extend_from_slice(buffer.format(number).as_bytes())?;
    Ok(Name::of(alloc, bytes.as_slice())?)
}

/// Adds the lines of these instructions, with groups in place of calls.
pub(crate) fn push_lines(
    alloc: Global,
    groups: &[Group],
    insts: Vec<Inst>,
    writing: &mut Writing<'_>,
    numbers: &mut Vec<u32>,
    lines: &mut Vec<Inst>,
) -> Result<(), Memory>
    ensures lines { IfOk result (λ _. lines.new.items ≡ lines.old.items ++ written groups.now writing.old insts.items) }
    ensures writing { IfOk result (λ _. writing.new ≡ behind groups.now writing.old insts.items) }
{
    for inst in insts {
        push_line(alloc, groups, inst, writing, numbers, lines)?;
    }
    Ok(())
}

fn push_line(
    alloc: Global,
    groups: &[Group],
    inst: Inst,
    writing: &mut Writing<'_>,
    numbers: &mut Vec<u32>,
    lines: &mut Vec<Inst>,
) -> Result<(), Memory>
    ensures lines { IfOk result (λ _. lines.new.items ≡ lines.old.items ++ line_written groups.now writing.old inst) }
    ensures writing { IfOk result (λ _. writing.new ≡ after groups.now writing.old inst) }
{
    if is_call(inst.op()) {
        return push_call(alloc, groups, inst, writing, numbers, lines);
    }
    let mut line = inst;
    fill_line(alloc, &mut line, writing)?;
    lines.push(line)?;
    Ok(())
}

/// Gives lines without calls their numbers, where they stand.
pub(crate) fn fill_lines(
    alloc: Global,
    lines: &mut [Inst],
    writing: &mut Writing<'_>,
) -> Result<(), Memory>
    requires { list_any (λ inst. is_call inst.op) lines.old ≡ false }
    ensures lines { OnOk result ((groups : List GroupContent) → lines.new ≡ written groups writing.old lines.old) }
    ensures writing { OnOk result ((groups : List GroupContent) → writing.new ≡ behind groups writing.old lines.old) }
{
    for inst in lines.iter_mut() {
        fill_line(alloc, inst, writing)?;
    }
    Ok(())
}

// Gives a line that is kept its numbers, where it stands.
fn fill_line(alloc: Global, inst: &mut Inst, writing: &mut Writing<'_>) -> Result<(), Memory>
    ensures line { OnOk result (inst.new ≡ plain_written writing.old.body writing.old.entries inst.old) }
    ensures writing { OnOk result (writing.new ≡ kept_after writing.old inst.old) }
{
    if stands(inst) {
        fill_standing(inst, writing);
        return Ok(());
    }
    fill_other(alloc, inst, writing)
}

// The rarer part of `fill_line`.
#[inline(never)]
fn fill_other(alloc: Global, inst: &mut Inst, writing: &mut Writing<'_>) -> Result<(), Memory>
    ensures line { OnOk result (inst.new ≡ plain_written writing.old.body writing.old.entries inst.old) }
    ensures writing { OnOk result (writing.new ≡ kept_after writing.old inst.old) }
{
    let old = mem::replace(inst, no_line(alloc));
    *inst = plain(alloc, old, &mut writing.body, &mut writing.entries)?;
    Ok(())
}

// Whether only the operands of a line change, and each of them has a number or stays.
fn stands(inst: &Inst) -> bool
    ensures bundle { result ≡ true → inst.now.bundle ≡ [] }
    ensures labels { result ≡ true → is_phi inst.now.op ≡ true → length inst.now.operands ≤ length inst.now.labels }
{
    inst.bundle().is_empty() && (!is_phi(inst.op()) || inst.operands().len() <= inst.labels().len())
}

fn fill_standing(inst: &mut Inst, writing: &mut Writing<'_>)
    requires bundle { inst.old.bundle ≡ [] }
    requires labels { is_phi inst.old.op ≡ true → length inst.old.operands ≤ length inst.old.labels }
    ensures line { inst.new ≡ plain_written writing.old.body writing.old.entries inst.old }
    ensures writing { writing.new ≡ kept_after writing.old inst.old }
{
    if is_phi(inst.op()) {
        fill_phi(inst, writing);
    } else {
        fill_body(inst, writing);
    }
}

fn fill_phi(inst: &mut Inst, writing: &mut Writing<'_>)
    ensures line { inst.new ≡ with_filled writing.old.entries inst.old }
    ensures writing { writing.new ≡ record writing.old { body = drop (results_in inst.old.result) writing.old.body; entries = left writing.old.entries inst.old.operands } }
{
    let results = results_in(inst.result());
    fill_operands(inst, &mut writing.entries);
    writing.body.skip(results);
}

fn fill_body(inst: &mut Inst, writing: &mut Writing<'_>)
    ensures line { inst.new ≡ with_filled writing.old.body inst.old }
    ensures writing { writing.new ≡ record writing.old { body = drop (results_in inst.old.result) (left writing.old.body inst.old.operands) } }
{
    let results = results_in(inst.result());
    fill_operands(inst, &mut writing.body);
    writing.body.skip(results);
}

fn fill_operands(inst: &mut Inst, numbers: &mut Stream<'_>)
    ensures line { inst.new ≡ with_filled numbers.old inst.old }
    ensures rest { numbers.new ≡ left numbers.old inst.old.operands }
{
    fill(inst.operands_mut(), numbers);
}

fn no_line(alloc: Global) -> Inst {
    Inst::of(
        None,
        Op::Unreachable,
        Ty::Void,
        SmallVec::new(alloc),
        Rest::nothing(),
    )
}

fn plain(
    alloc: Global,
    inst: Inst,
    body: &mut Stream<'_>,
    entries: &mut Stream<'_>,
) -> Result<Inst, Memory>
    ensures line { IfOk result (λ line. line ≡ plain_written body.old entries.old inst) }
    ensures body { IfOk result (λ _. body.new ≡ plain_left body.old inst) }
    ensures entries { IfOk result (λ _. entries.new ≡ entries_left entries.old inst) }
{
    let mut bundle = Vec::from_slice(alloc, inst.bundle())?;
    let (named, op, ty, mut operands, rest) = inst.into_parts();
    fill_own(
        is_phi(&op),
        rest.labels().len(),
        &mut operands,
        body,
        entries,
    );
    fill_bundle(bundle.as_mut_slice(), body);
    body.skip(results_in(&named));
    let rest = Rest::of(alloc, rest.labels(), bundle)?;
    Ok(Inst::of(named, op, ty, operands, rest))
}

// The operands of a phi that have labels, so many, over the numbers of entries, or those of another line over the block's.
fn fill_own(
    is_phi: bool,
    count: usize,
    operands: &mut Operands,
    body: &mut Stream<'_>,
    entries: &mut Stream<'_>,
)
    ensures operands { operands.new.items ≡ (if is_phi then filled entries.old (take count operands.old.items) else filled body.old operands.old.items) }
    ensures body { body.new ≡ left body.old (if is_phi then [] else operands.old.items) }
    ensures entries { entries.new ≡ (if is_phi then left entries.old (take count operands.old.items) else entries.old) }
{
    if is_phi {
        operands.truncate(count);
        fill(operands.as_mut_slice(), entries);
    } else {
        fill(operands.as_mut_slice(), body);
    }
}

fn results_in(named: &Option<Name>) -> usize
    ensures { result ≡ results_in named.now }
{
    match named {
        Some(_) => 1,
        None => 0,
    }
}

fn push_call(
    alloc: Global,
    groups: &[Group],
    inst: Inst,
    writing: &mut Writing<'_>,
    numbers: &mut Vec<u32>,
    lines: &mut Vec<Inst>,
) -> Result<(), Memory>
    requires { is_call inst.op ≡ true }
    ensures lines { IfOk result (λ _. lines.new.items ≡ lines.old.items ++ line_written groups.now writing.old inst) }
    ensures writing { IfOk result (λ _. writing.new ≡ after groups.now writing.old inst) }
{
    match groups.get(writing.counts.tokens as usize) {
        None => Err(Memory),
        Some(group) => {
            let counts = counts_with(writing.counts, group.relocates().len())?;
            write_group(
                alloc,
                group,
                inst,
                writing.counts,
                &mut writing.body,
                numbers,
                lines,
            )?;
            writing.counts = counts;
            Ok(())
        }
    }
}

// The counts behind a group of so many relocates. Where they don't stay below 2^32, it is want of memory.
fn counts_with(counts: Counts, relocates: usize) -> Result<Counts, Memory>
    ensures counts { IfOk result (λ after. after ≡ counts_with counts relocates) }
    ensures room { IfOk result (λ _. counts.relocates + relocates < 2 ^ 32 - 1) }
{
    if counts.tokens == u32::MAX || relocates >= (u32::MAX - counts.relocates) as usize {
        return Err(Memory);
    }
    Ok(Counts {
        tokens: counts.tokens + 1,
        relocates: counts.relocates + relocates as u32,
    })
}

fn write_group(
    alloc: Global,
    group: &Group,
    inst: Inst,
    counts: Counts,
    body: &mut Stream<'_>,
    numbers: &mut Vec<u32>,
    lines: &mut Vec<Inst>,
) -> Result<(), Memory>
    requires { counts.relocates + length group.now.relocates < 2 ^ 32 - 1 }
    ensures lines { IfOk result (λ _. lines.new.items ≡ lines.old.items ++ call_written counts group.now body.old inst inst.op) }
    ensures body { IfOk result (λ _. body.new ≡ call_left (length group.now.relocates) body.old inst) }
{
    let mut bundle = Vec::from_slice(alloc, inst.bundle())?;
    let (named, op, ty, mut operands, _rest) = inst.into_parts();
    let count = group.relocates().len();
    let results = results_in(&named);
    fill(operands.as_mut_slice(), body);
    body.next_ones(count, numbers)?;
    fill_bundle(bundle.as_mut_slice(), body);
    let token = body.first();
    body.skip(1);
    body.skip(results);
    body.skip(count);
    let (callee, types) = parts_of(op)?;
    let call = Call {
        named,
        callee,
        types,
        ty,
        operands,
        bundle,
    };
    push_group(alloc, call, group, numbers.as_slice(), token, counts, lines)
}

// The callee of a call, and the types of its arguments.
fn parts_of(op: Op) -> Result<(Callee, Types), Memory>
    ensures { IfOk result (λ parts. op ≡ Op.Call parts.0 parts.1) }
{
    match op {
        Op::Call { callee, types } => Ok((callee, types)),
        Op::Add
        | Op::Sub
        | Op::Mul
        | Op::Udiv
        | Op::Sdiv
        | Op::Urem
        | Op::Srem
        | Op::And
        | Op::Or
        | Op::Xor
        | Op::Shl
        | Op::Lshr
        | Op::Ashr
        | Op::Icmp(_)
        | Op::Trunc(_)
        | Op::Zext(_)
        | Op::Sext(_)
        | Op::Select
        | Op::Phi
        | Op::Gep { .. }
        | Op::Load
        | Op::Store
        | Op::Statepoint { .. }
        | Op::GcResult
        | Op::GcRelocate
        | Op::Br
        | Op::CondBr
        | Op::Switch
        | Op::Ret
        | Op::Unreachable => Err(Memory),
    }
}

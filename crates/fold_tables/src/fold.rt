//! A function under a table: the lines of replaced values go, operands are put under the table, numbers count what is left.

ghost use Rattle.std.specs.Prelude.{◌≡◌, ◌+◌, ◌<◌, ◌^◌, ◌++◌, List, [], ◌∷◌, length, map, IfOk, OnOk};
ghost use Rattle.ir_ast.specs.Blocks.{EndsAtTerminator};
ghost use Rattle.ir_ast.specs.Funcs.{instructions_of, zeros_of};
ghost use Rattle.object_meaning.specs.Lines.{after_all};
ghost use Rattle.folded_forms.specs.Folded.{folded, folded_blocks, folded_insts, folded_line, folded_lines, folded_operand, numbered};
ghost use Rattle.ir_ast.specs.Insts.{Instruction};
ghost use Rattle.fold_tables.specs.Counts.{AreCounts, stay_count};
ghost use Rattle.fold_tables.specs.Ends.{ends_at};

use crate::lines::following;
use crate::standing::{stand_for, stays};
use ir_ast::{Block, Func, Inst, Op, Operand, Rest, Ty};
use smallvec::SmallVec;
use sp_ids::{Memory, ValueId};
use std::alloc::Global;
use std::mem;

/// The function in which other operands stand for the values that the table replaces, whose lines go. Each line has number 0.
/// Where memory is wanted the function is gone.
pub fn folded(alloc: Global, func: Func, table: &[Operand]) -> Result<Func, Memory>
    requires { length table.now < 2 ^ 32 }
    ensures content { IfOk result (λ after. after.content ≡ folded func.content table.now) }
    ensures lines { IfOk result (λ after. after.lines ≡ zeros_of after.content) }
{
    let counts = counts(alloc, table)?;
    let (name, answer, args, blocks) = func.into_parts();
    let after = folded_blocks(alloc, table, counts.as_slice(), args.len(), blocks)?;
    Ok(Func::of(name, answer, args, after))
}

// How many values stay below each, and last how many do.
fn counts(alloc: Global, table: &[Operand]) -> Result<Vec<u32>, Memory>
    requires { length table.now < 2 ^ 32 }
    ensures { IfOk result (λ counts. AreCounts table.now counts.items) }
{
    let mut counts = Vec::with_capacity(alloc, table.len())?;
    let mut count = 0u32;
    for value in 0..table.len() {
        counts.push(count)?;
        if stays(table, value) {
            count += 1;
        }
    }
    counts.push(count)?;
    Ok(counts)
}

// The number of a value that stays.
fn number_of(table: &[Operand], counts: &[u32], value: u32) -> u32
    requires { AreCounts table.now counts.now }
    ensures { result ≡ stay_count table.now value }
{
    let count = table.len();
    let place = value as usize;
    if place <= count {
        counts[place]
    } else {
        counts[count] + (place - count) as u32
    }
}

fn numbered(table: &[Operand], counts: &[u32], operand: Operand) -> Operand
    requires { AreCounts table.now counts.now }
    ensures { result ≡ numbered table.now operand }
{
    match operand {
        Operand::Value(id) => Operand::Value(ValueId(number_of(table, counts, id.0))),
        Operand::Int(_) | Operand::Null | Operand::Fun(_) => operand,
    }
}

fn folded_operand(table: &[Operand], counts: &[u32], operand: Operand) -> Operand
    requires { AreCounts table.now counts.now }
    ensures { result ≡ folded_operand table.now operand }
{
    numbered(table, counts, stand_for(table, operand))
}

fn fold_operands(table: &[Operand], counts: &[u32], operands: &mut [Operand])
    requires { AreCounts table.now counts.now }
    ensures { operands.new ≡ map (folded_operand table.now) operands.old }
{
    for operand in operands.iter_mut() {
        *operand = folded_operand(table, counts, *operand);
    }
}

fn fold_bundle(table: &[Operand], counts: &[u32], entries: &mut [(Ty, Operand)])
    requires { AreCounts table.now counts.now }
    ensures { entries.new ≡ map (λ entry. (entry.0, folded_operand table.now entry.1)) entries.old }
{
    for entry in entries.iter_mut() {
        *entry = (entry.0, folded_operand(table, counts, entry.1));
    }
}

// Puts the operands of a line under the table, where it stands.
fn fold_line(
    alloc: Global,
    table: &[Operand],
    counts: &[u32],
    inst: &mut Inst,
) -> Result<(), Memory>
    requires { AreCounts table.now counts.now }
    ensures { OnOk result (inst.new ≡ folded_line table.now inst.old) }
{
    if inst.bundle().is_empty() {
        fold_plain(table, counts, inst);
        return Ok(());
    }
    fold_with_bundle(alloc, table, counts, inst)
}

fn fold_plain(table: &[Operand], counts: &[u32], inst: &mut Inst)
    requires counted { AreCounts table.now counts.now }
    requires plain { inst.old.bundle ≡ [] }
    ensures { inst.new ≡ folded_line table.now inst.old }
{
    fold_operands(table, counts, inst.operands_mut());
}

// The rarer part of `fold_line`.
#[inline(never)]
fn fold_with_bundle(
    alloc: Global,
    table: &[Operand],
    counts: &[u32],
    inst: &mut Inst,
) -> Result<(), Memory>
    requires { AreCounts table.now counts.now }
    ensures { OnOk result (inst.new ≡ folded_line table.now inst.old) }
{
    let old = mem::replace(inst, no_line(alloc));
    *inst = bundled(alloc, table, counts, old)?;
    Ok(())
}

fn no_line(alloc: Global) -> Inst {
    Inst::of(
        None,
        Op::Unreachable,
        Ty::Void,
        SmallVec::new(alloc),
        Rest::nothing(),
    )
}

fn bundled(alloc: Global, table: &[Operand], counts: &[u32], inst: Inst) -> Result<Inst, Memory>
    requires { AreCounts table.now counts.now }
    ensures { IfOk result (λ line. line ≡ folded_line table.now inst) }
{
    let mut bundle = Vec::from_slice(alloc, inst.bundle())?;
    fold_bundle(table, counts, bundle.as_mut_slice());
    let rest = Rest::of(alloc, inst.labels(), bundle)?;
    let (named, op, ty, mut operands, _rest) = inst.into_parts();
    fold_operands(table, counts, operands.as_mut_slice());
    Ok(Inst::of(named, op, ty, operands, rest))
}

// The blocks, of which the first result is the value `start`.
fn folded_blocks(
    alloc: Global,
    table: &[Operand],
    counts: &[u32],
    start: usize,
    blocks: Vec<Block>,
) -> Result<Vec<Block>, Memory>
    requires counted { AreCounts table.now counts.now }
    requires few { start + length (instructions_of blocks.items) < 2 ^ 63 }
    ensures { IfOk result (λ after. after.items ≡ folded_blocks table.now start blocks.items) }
{
    let mut after = Vec::with_capacity(alloc, blocks.len())?;
    let mut next = start;
    for block in blocks {
        let (less, behind) = folded_block(alloc, table, counts, next, block)?;
        after.push(less)?;
        next = behind;
    }
    Ok(after)
}

// The block, of which the first result is the value `next`, and the value after its results.
fn folded_block(
    alloc: Global,
    table: &[Operand],
    counts: &[u32],
    next: usize,
    block: Block,
) -> Result<(Block, usize), Memory>
    requires counted { AreCounts table.now counts.now }
    requires few { next + length block.insts < 2 ^ 64 }
    ensures block { IfOk result (λ made. made.0 ≡ record block { insts = folded_insts table.now next block.insts }) }
    ensures behind { IfOk result (λ made. made.1 ≡ after_all next block.insts) }
{
    let (name, insts) = block.into_parts();
    let (lines, behind) = folded_insts(alloc, table, counts, next, insts)?;
    if !ends(lines.as_slice()) {
        return Err(Memory);
    }
    Ok((Block::of(name, lines), behind))
}

// Whether the last of these is a terminator.
fn ends(lines: &[Inst]) -> bool
    ensures { result ≡ ends_at lines.now }
{
    match lines.last() {
        Some(line) => line.op().is_terminator(),
        None => false,
    }
}

fn folded_insts(
    alloc: Global,
    table: &[Operand],
    counts: &[u32],
    start: usize,
    insts: Vec<Inst>,
) -> Result<(Vec<Inst>, usize), Memory>
    requires counted { AreCounts table.now counts.now }
    requires few { start + length insts.items < 2 ^ 64 }
    ensures lines { IfOk result (λ made. made.0.items ≡ folded_insts table.now start insts.items) }
    ensures behind { IfOk result (λ made. made.1 ≡ after_all start insts.items) }
{
    let mut lines = Vec::with_capacity(alloc, insts.len())?;
    let mut next = start;
    for inst in insts {
        let behind = following(next, &inst);
        push_folded(alloc, table, counts, next, inst, &mut lines)?;
        next = behind;
    }
    Ok((lines, next))
}

// Adds the line, whose own result or the next one is the value `next`, under the table, if it stays.
fn push_folded(
    alloc: Global,
    table: &[Operand],
    counts: &[u32],
    next: usize,
    inst: Inst,
    lines: &mut Vec<Inst>,
) -> Result<(), Memory>
    requires { AreCounts table.now counts.now }
    ensures { IfOk result (λ _. lines.new.items ≡ lines.old.items ++ folded_lines table.now next inst) }
{
    if inst.result().is_some() && !stays(table, next) {
        return Ok(());
    }
    lines.push(inst)?;
    fold_last(alloc, table, counts, lines)
}

// Puts the last line under the table, where it stands.
fn fold_last(
    alloc: Global,
    table: &[Operand],
    counts: &[u32],
    lines: &mut Vec<Inst>,
) -> Result<(), Memory>
    requires { AreCounts table.now counts.now }
    ensures { (front : List Instruction) (inst : Instruction) → lines.old.items ≡ front ++ inst ∷ []
        → OnOk result (lines.new.items ≡ front ++ folded_line table.now inst ∷ []) }
{
    match lines.last_mut() {
        Some(inst) => fold_line(alloc, table, counts, inst),
        None => Ok(()),
    }
}

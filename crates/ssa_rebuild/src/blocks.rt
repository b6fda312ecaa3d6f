//! The blocks of the final text.

ghost use Rattle.std.specs.Prelude.{◌≡◌, ◌<◌, ◌^◌, ◌++◌, [], true, false, map, length, List, IfOk, OnOk};
ghost use Rattle.statepoint_insert.specs.Groups.{GroupContent};
ghost use Rattle.std.specs.List.{list_any};
ghost use Rattle.rewriting_forms.specs.Numbered.{is_call};
ghost use Rattle.version_walk.specs.Forest.{list_at};
ghost use Rattle.ssa_rebuild.specs.Written.{blocks_written, block_lines, block_after, phi_lines, phis_behind, written, behind};

use crate::lines::is_call;
use crate::rooms::text_room;
use crate::stream::Stream;
use crate::writing::{Writing, fill_lines, push_lines, push_phis};
use ir_ast::{Block, Inst};
use ir_cfg::Cfg;
use sp_ids::{BlockId, Memory, ValueId};
use statepoint_insert::Group;
use std::alloc::Global;
use version_walk::Packed;

/// The blocks with their inserted phis, and with groups in place of calls, under the numbers of these rows.
pub(crate) fn all_blocks<'a>(
    alloc: Global,
    cfg: &Cfg,
    groups: &[Group],
    joins: &[Vec<ValueId>],
    rows: &'a [Vec<Packed>],
    writing: Writing<'a>,
    blocks: Vec<Block>,
) -> Result<Vec<Block>, Memory>
    requires blocks { length blocks.items ≡ length cfg.now }
    requires few { length blocks.items < 2 ^ 32 }
    ensures { IfOk result (λ after. after.items ≡ blocks_written cfg.now groups.now joins.now rows.now 0 writing.entry blocks.items) }
{
    let mut now = writing;
    let mut numbers = Vec::new(alloc);
    let mut after = Vec::with_capacity(alloc, blocks.len())?;
    let mut number = 0;
    for block in blocks {
        after.push(one_block(
            alloc,
            cfg,
            groups,
            joins,
            rows,
            number,
            block,
            &mut now,
            &mut numbers,
        )?)?;
        number += 1;
    }
    Ok(after)
}

fn one_block<'a>(
    alloc: Global,
    cfg: &Cfg,
    groups: &[Group],
    joins: &[Vec<ValueId>],
    rows: &'a [Vec<Packed>],
    number: u32,
    block: Block,
    writing: &mut Writing<'a>,
    numbers: &mut Vec<u32>,
) -> Result<Block, Memory>
    requires { number < length cfg.now }
    ensures block { IfOk result (λ after. after ≡ record { name = block.name; insts = block_lines cfg.now groups.now joins.now rows.now number writing.old block.insts }) }
    ensures writing { IfOk result (λ _. writing.new ≡ block_after cfg.now groups.now joins.now rows.now number writing.old block.insts) }
{
    let (name, insts) = block.into_parts();
    writing.body = Stream::of(row_at(rows, number as usize));
    let lines = all_lines(
        alloc,
        cfg.preds(BlockId(number)),
        groups,
        join_at(joins, number as usize),
        insts,
        writing,
        numbers,
    )?;
    Ok(Block::of(name, lines))
}

// The lines of a block, those of its inserted phis first. Where nothing is put in, the lines stay where they stand.
fn all_lines(
    alloc: Global,
    preds: &[BlockId],
    groups: &[Group],
    joined: &[ValueId],
    insts: Vec<Inst>,
    writing: &mut Writing<'_>,
    numbers: &mut Vec<u32>,
) -> Result<Vec<Inst>, Memory>
    ensures lines { IfOk result (λ lines. lines.items ≡ phi_lines preds.now writing.old joined.now ++ written groups.now (phis_behind preds.now writing.old joined.now) insts.items) }
    ensures writing { IfOk result (λ _. writing.new ≡ behind groups.now (phis_behind preds.now writing.old joined.now) insts.items) }
{
    if are_kept(joined, insts.as_slice()) {
        let mut lines = insts;
        fill_all(alloc, &mut lines, writing)?;
        return Ok(lines);
    }
    let room = text_room(insts.as_slice(), groups, writing.counts.tokens as usize);
    let mut lines = Vec::with_capacity(alloc, room.saturating_add(joined.len()))?;
    push_phis(alloc, preds, joined, writing, numbers, &mut lines)?;
    push_lines(alloc, groups, insts, writing, numbers, &mut lines)?;
    Ok(lines)
}

fn fill_all(alloc: Global, lines: &mut Vec<Inst>, writing: &mut Writing<'_>) -> Result<(), Memory>
    requires { list_any (λ inst. is_call inst.op) lines.old.items ≡ false }
    ensures lines { OnOk result ((groups : List GroupContent) → lines.new.items ≡ written groups writing.old lines.old.items) }
    ensures writing { OnOk result ((groups : List GroupContent) → writing.new ≡ behind groups writing.old lines.old.items) }
{
    fill_lines(alloc, lines.as_mut_slice(), writing)
}

// Whether no line is put in.
fn are_kept(joined: &[ValueId], insts: &[Inst]) -> bool
    ensures joined { result ≡ true → joined.now ≡ [] }
    ensures calls { result ≡ true → list_any (λ inst. is_call inst.op) insts.now ≡ false }
{
    joined.is_empty() && !has_call(insts)
}

fn has_call(insts: &[Inst]) -> bool
    ensures { result ≡ list_any (λ inst. is_call inst.op) insts.now }
{
    insts.iter().any(|inst| is_call(inst.op()))
}

fn row_at(rows: &[Vec<Packed>], number: usize) -> &[Packed]
    ensures { result.now ≡ list_at rows.now number }
{
    match rows.get(number) {
        Some(row) => row.as_slice(),
        None => &[],
    }
}

fn join_at(joins: &[Vec<ValueId>], number: usize) -> &[ValueId]
    ensures { result.now ≡ list_at joins.now number }
{
    match joins.get(number) {
        Some(join) => join.as_slice(),
        None => &[],
    }
}

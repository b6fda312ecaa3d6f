//! The blocks of a function that waits at its first line alone.

ghost use Rattle.std.specs.Prelude.{◌≡◌, if◌then◌else◌, IfOk};
ghost use Rattle.entry_groups.specs.Entry.{put_block, entry_block, blocks_behind};

use crate::lines::{entry_lines, with_numbers};
use ir_ast::Block;
use sp_ids::Memory;
use statepoint_insert::Group;
use std::alloc::Global;

/// The blocks with these numbers, and with the group in place of the first line, whose token has this number.
pub(crate) fn all_blocks(
    alloc: Global,
    token: u32,
    group: &Group,
    row: &[u32],
    blocks: Vec<Block>,
) -> Result<Vec<Block>, Memory>
    ensures { IfOk result (λ after. after.items ≡ blocks_behind token group.now row.now blocks.items) }
{
    let mut after = Vec::with_capacity(alloc, blocks.len())?;
    for block in blocks {
        let is_entry = after.is_empty();
        after.push(one_block(alloc, token, group, row, is_entry, block)?)?;
    }
    Ok(after)
}

fn one_block(
    alloc: Global,
    token: u32,
    group: &Group,
    row: &[u32],
    is_entry: bool,
    block: Block,
) -> Result<Block, Memory>
    ensures { IfOk result (λ after. after ≡ (if is_entry then entry_block token group.now row.now block else put_block row.now block)) }
{
    if is_entry {
        entry(alloc, token, group, row, block)
    } else {
        later(alloc, row, block)
    }
}

fn entry(
    alloc: Global,
    token: u32,
    group: &Group,
    row: &[u32],
    block: Block,
) -> Result<Block, Memory>
    ensures { IfOk result (λ after. after ≡ entry_block token group.now row.now block) }
{
    let (name, insts) = block.into_parts();
    let lines = entry_lines(alloc, token, group, row, insts)?;
    Ok(Block::of(name, lines))
}

fn later(alloc: Global, row: &[u32], block: Block) -> Result<Block, Memory>
    ensures { IfOk result (λ after. after ≡ put_block row.now block) }
{
    let (name, insts) = block.into_parts();
    let lines = with_numbers(alloc, row, insts)?;
    Ok(Block::of(name, lines))
}

//! The function over its versions.

ghost use Rattle.std.specs.Prelude.{◌≡◌, ◌<◌, ◌^◌, ◌∷◌, [], true, length, IfOk};
ghost use Rattle.ir_ast.specs.Funcs.{instructions_of};
ghost use Rattle.ir_cfg.specs.Unreached.{zeros_of};
ghost use Rattle.rewriting_forms.specs.Rewritten.{rewritten};
ghost use Rattle.entry_groups.specs.Entry.{waits_at_entry};

use crate::blocks::all_blocks;
use crate::numbers::behind_group;
use crate::waits::waits_at_entry;
use ir_ast::{Block, Func};
use sp_ids::Memory;
use statepoint_insert::{Group, Marked};
use std::alloc::Global;

/// The function in SSA form again: each use takes the version of its value that stands there, phis named `%sp.mN` are inserted at
/// the front of the blocks where versions meet, none of them with no operand but itself and one other value, and groups stand in
/// place of calls (Garbage Collection Safepoints in LLVM, "RewriteStatepointsForGC"). Each line has number 0. Where memory is wanted
/// the function is gone.
///
/// A function that waits at its first line alone, as at its poll, keeps its lines where no way comes back to a block: then no versions
/// meet.
pub fn rebuild(alloc: Global, marked: Marked) -> Result<Func, Memory>
    ensures content { IfOk result (λ func. func.content ≡ rewritten marked.before marked.table) }
    ensures zeros { IfOk result (λ func. func.lines ≡ zeros_of func.content) }
{
    if waits_at_entry(marked.func(), marked.groups()) {
        return with_entry_group(alloc, marked);
    }
    thin_phis::rebuild(alloc, marked)
}

fn with_entry_group(alloc: Global, marked: Marked) -> Result<Func, Memory>
    requires { waits_at_entry marked.before marked.groups ≡ true }
    ensures content { IfOk result (λ func. func.content ≡ rewritten marked.before marked.table) }
    ensures zeros { IfOk result (λ func. func.lines ≡ zeros_of func.content) }
{
    let (func, _bases, groups) = marked.into_parts();
    let (name, answer, args, blocks) = func.into_parts();
    let group = only(groups.as_slice())?;
    let others = line_count(blocks.as_slice());
    let row = behind_group(alloc, args.len(), others, group.relocates())?;
    let after = all_blocks(alloc, args.len() as u32, group, row.as_slice(), blocks)?;
    Ok(Func::of(name, answer, args, after))
}

fn only(groups: &[Group]) -> Result<&Group, Memory>
    ensures { IfOk result (λ group. groups.now ≡ group.now ∷ []) }
{
    match groups {
        [group] => Ok(group),
        _ => Err(Memory),
    }
}

fn line_count(blocks: &[Block]) -> usize
    requires { length (instructions_of blocks.now) < 2 ^ 30 }
    ensures { result ≡ length (instructions_of blocks.now) }
{
    let mut count = 0;
    for block in blocks {
        count += block.insts().len();
    }
    count
}

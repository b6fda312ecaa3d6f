//! Whether a function waits at its first line alone, and its edges lead forward.

ghost use Rattle.std.specs.Prelude.{◌≡◌, ◌<◌, [], true, length, map, nat_lt, slice_index_or};
ghost use Rattle.std.specs.List.{list_all};
ghost use Rattle.ir_ast.specs.Edges.{targets};
ghost use Rattle.entry_groups.specs.Entry.{has_no_parts, is_bare, begins_bare, enters_bare, is_one_below, leads_forward, leads_on, waits_at_entry};

use ir_ast::{Block, Func, Inst};
use sp_ids::BlockId;
use statepoint_insert::{Group, Relocate};

/// Whether the only group is that of the first line, it relocates arguments alone, and every edge leads to a later block.
pub(crate) fn waits_at_entry(func: &Func, groups: &[Group]) -> bool
    ensures { result ≡ true → waits_at_entry func.now.content groups.now ≡ true }
{
    enters_bare(func.blocks())
        && (is_one_below(func.args().len(), groups) && leads_forward(func.blocks()))
}

fn enters_bare(blocks: &[Block]) -> bool
    ensures { result ≡ enters_bare blocks.now }
{
    match blocks.first() {
        None => false,
        Some(block) => begins_bare(block.insts()),
    }
}

fn begins_bare(insts: &[Inst]) -> bool
    ensures { result ≡ begins_bare insts.now }
{
    match insts.first() {
        None => false,
        Some(inst) => is_bare(inst),
    }
}

// A call without a result, operands and a bundle.
fn is_bare(inst: &Inst) -> bool
    ensures { result ≡ is_bare inst.now }
{
    inst.op().is_call() && has_no_parts(inst)
}

fn has_no_parts(inst: &Inst) -> bool
    ensures { result ≡ has_no_parts inst.now }
{
    inst.result().is_none() && (inst.operands().is_empty() && inst.bundle().is_empty())
}

fn is_one_below(count: usize, groups: &[Group]) -> bool
    ensures { result ≡ is_one_below count groups.now }
{
    match groups {
        [group] => are_below(count, group.relocates()),
        _ => false,
    }
}

fn are_below(count: usize, relocates: &[Relocate]) -> bool
    ensures { result ≡ list_all (λ relocate. nat_lt relocate.value.0 count) relocates.now }
{
    relocates
        .iter()
        .all(|relocate| (relocate.value.0 as usize) < count)
}

fn leads_forward(blocks: &[Block]) -> bool
    ensures { result ≡ true → leads_forward blocks.now ≡ true }
{
    for number in 0..blocks.len() {
        if !leads_on(blocks, number) {
            return false;
        }
    }
    true
}

fn leads_on(blocks: &[Block], number: usize) -> bool
    requires { number < length blocks.now }
    ensures { result ≡ leads_on blocks.now number }
{
    edges_at(blocks, number)
        .iter()
        .all(|label| number < label.0 as usize)
}

fn edges_at(blocks: &[Block], number: usize) -> &[BlockId]
    requires { number < length blocks.now }
    ensures { result.now ≡ slice_index_or (map targets blocks.now) number [] }
{
    edges_of(&blocks[number])
}

// The labels of the terminator.
fn edges_of(block: &Block) -> &[BlockId]
    ensures { result.now ≡ targets block.now }
{
    match block.insts().last() {
        Some(inst) => inst.labels(),
        None => &[],
    }
}

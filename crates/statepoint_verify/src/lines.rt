//! Faults that the text of a line decides.

ghost use Rattle.std.specs.Prelude.{◌≡◌, ◌<◌, ◌+◌, Some, length, slice_get, IfOk};
ghost use Rattle.ir_cfg.specs.Graphs.{graph_of};
ghost use Rattle.pair_facts.specs.Lines.{lines_at, head_at};
ghost use Rattle.fact_tables.specs.Groups.{IsGroupOf};
ghost use Rattle.statepoint_verify.specs.Marks.{TextFault, AreAll, AreMarked, line_marked};

use crate::accesses::is_unchecked;
use crate::entries::{is_open, loses};
use crate::marks::{Mark, mark_where};
use fact_tables::groups::{Group, group_here};
use fact_tables::insts::inst_at;
use ir_ast::{Block, Func};
use ir_cfg::Cfg;
use since_statepoint::is_reached;
use sp_ids::Memory;
use std::alloc::Global;

/// The faults of a function that its text alone decides.
pub(crate) fn text_marks(alloc: Global, func: &Func, cfg: &Cfg) -> Result<Vec<Mark>, Memory>
    requires { cfg.now ≡ graph_of func.now.content }
    ensures { IfOk result (λ marks. AreAll (TextFault func.now.content) marks.items) }
{
    let mut marks = Vec::new(alloc);
    for (number, block) in func.blocks().iter().enumerate() {
        mark_block(alloc, func, cfg, number, block, &mut marks)?;
    }
    Ok(marks)
}

fn mark_block(
    alloc: Global,
    func: &Func,
    cfg: &Cfg,
    number: usize,
    block: &Block,
    marks: &mut Vec<Mark>,
) -> Result<(), Memory>
    requires edges { cfg.now ≡ graph_of func.now.content }
    requires block { slice_get func.now.content.blocks number ≡ Some block.now }
    requires marks { AreMarked func.now.content number 0 marks.old.items }
    ensures { IfOk result (λ _. AreMarked func.now.content (number + 1) 0 marks.new.items) }
{
    let reached = is_reached(func, cfg, number);
    let mut group = None;
    for place in 0..block.insts().len() {
        group = group_here(alloc, func, number, place, group)?;
        mark_line(func, number, place, reached, &group, marks)?;
    }
    Ok(())
}

fn mark_line(
    func: &Func,
    block: usize,
    place: usize,
    reached: bool,
    group: &Option<Group>,
    marks: &mut Vec<Mark>,
) -> Result<(), Memory>
    requires block { block < length func.now.content.blocks }
    requires place { place < length (lines_at func.now.content block) }
    requires group { IsGroupOf (lines_at func.now.content block) (head_at (lines_at func.now.content block) place) group.now }
    ensures { IfOk result (λ _. marks.new.items ≡ line_marked (lines_at func.now.content block) reached block place marks.old.items) }
{
    let open = is_open(func, block, place, group);
    let unchecked = is_unchecked(func, block, place);
    let plain = inst_at(func, block, place).op().is_call();
    let lost = loses(func, block, place, group);
    mark_where(reached, open, block, place, 2, marks)?;
    mark_where(reached, unchecked, block, place, 3, marks)?;
    mark_where(reached, plain, block, place, 6, marks)?;
    mark_where(true, lost, block, place, 7, marks)?;
    Ok(())
}

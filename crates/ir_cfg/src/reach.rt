//! Marks of the blocks that the entry reaches.

ghost use Rattle.std.specs.Prelude.{◌≡◌, ◌<◌, ◌⊎◌, ℕ, true, length, IfOk};
ghost use Rattle.graph_search.specs.Paths.{Marked};
ghost use Rattle.ir_cfg.specs.Followed.{AreReached, MarksMore};
ghost use Rattle.ir_cfg.specs.Graphs.{graph_of};
ghost use Rattle.ir_cfg.specs.Turned.{LeadsInside};
ghost use Rattle.ir_cfg.specs.Marks.{MarksReached};

use crate::graphs::edges_of;
use crate::rows::Rows;
use graph_search::reached_from;
use ir_ast::Func;
use sp_ids::{BlockId, Memory};
use std::alloc::Global;

/// One mark for each block: whether a path from the entry leads there.
pub(crate) fn marks(alloc: Global, succs: &Rows) -> Result<Vec<bool>, Memory>
    requires inside { LeadsInside succs.now }
    requires entry { 0 < length succs.now }
    ensures { IfOk result (λ marks. MarksReached succs.now marks.items) }
{
    Ok(reached_from(alloc, succs, &[0])?)
}

/// Whether each block but the entry has an edge from an earlier one, so that paths lead to all. Where it hasn't, a path
/// may still lead there.
pub(crate) fn follow(alloc: Global, func: &Func) -> Result<bool, Memory>
    ensures { IfOk result (λ follow. follow ≡ true → AreReached (graph_of func.now.content)) }
{
    let blocks = func.blocks();
    let mut marks = vec![in alloc; false; blocks.len()]?;
    mark(&mut marks, 0);
    for (place, block) in blocks.iter().enumerate() {
        if !marks[place] {
            return Ok(false);
        }
        mark_all(&mut marks, edges_of(block));
    }
    Ok(true)
}

fn mark_all(marks: &mut Vec<bool>, labels: &[BlockId])
    ensures { MarksMore labels.now marks.old.items marks.new.items }
{
    for label in labels {
        mark(marks, label.0 as usize);
    }
}

fn mark(marks: &mut Vec<bool>, place: usize)
    ensures whole { length marks.new.items ≡ length marks.old.items }
    ensures each { (block : ℕ) → Marked marks.new.items block → Marked marks.old.items block ⊎ (block ≡ place) }
{
    if place < marks.len() {
        marks[place] = true;
    }
}

//! The edges of a function's blocks, from their terminators.

ghost use Rattle.std.specs.Prelude.{◌≡◌, ◌<◌, ◌^◌, length, IfOk};
ghost use Rattle.ir_ast.specs.Edges.{targets};
ghost use Rattle.ir_cfg.specs.Graphs.{graph_of};

use crate::rows::Rows;
use ir_ast::{Block, Func};
use sp_ids::{BlockId, Memory};
use std::alloc::Global;

/// The rows of a function's edges.
pub(crate) fn edges(alloc: Global, func: &Func) -> Result<Rows, Memory>
    ensures rows { IfOk result (λ rows. rows ≡ graph_of func.now.content) }
    ensures few { length func.now.content.blocks < 2 ^ 30 }
{
    let mut rows = Rows::new(alloc);
    for block in func.blocks() {
        rows = rows.with_row(edges_of(block))?;
    }
    Ok(rows)
}

/// The labels of the terminator.
pub(crate) fn edges_of(block: &Block) -> &[BlockId]
    ensures { result.now ≡ targets block.now }
{
    match block.insts().last() {
        Some(inst) => inst.labels(),
        None => &[],
    }
}

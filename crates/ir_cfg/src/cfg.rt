//! The graph of a function's blocks: successors, predecessors, what the entry reaches.

ghost use Rattle.std.specs.Prelude.{◌≡◌, ◌<◌, ◌↔◌, length, IfOk, IsTrue, nat_le};
ghost use Rattle.std.specs.List.{list_any};
ghost use Rattle.ir_ast.specs.Formed.{IsFormed};
ghost use Rattle.ir_cfg.specs.Graphs.{graph_of, succs_of, preds_of, numbers_of, Retreats};
ghost use Rattle.ir_cfg.specs.Paths.{Reached};
ghost use Rattle.ir_cfg.specs.PollPoints.{CyclesPoll};

use crate::graphs::edges;
use crate::reach::marks;
use crate::rows::Rows;
use crate::turned::turned;
use graph_search::Edges;
use ir_ast::Func;
use sp_ids::{BlockId, Memory};
use std::alloc::Global;
use std::marker::Model;

/// The edges between the blocks of a function (LLVM Language Reference, "Functions": the control flow
/// graph). Contracts see, for each block in text order, the list of the blocks where its edges lead.
#[derive(Drop)]
pub struct Cfg {
    succs: Rows,
    preds: Rows,
    reached: Vec<bool>,
}

impl Model for Cfg {
    ghost use Rattle.std.specs.Prelude.{List};
    ghost use Rattle.sp_ids.specs.declared.ids.BlockId.{BlockId};
    ghost use Rattle.ir_cfg.specs.Cfgs.{IsCfg};

    ghost Value = { List (List BlockId) };

    ghost view = { λ cfg. cfg.succs };

    ghost invariant = { λ cfg. IsCfg cfg.succs cfg.preds cfg.reached.items };
}

impl Cfg {
    /// The edges of a formed function.
    pub fn of(alloc: Global, func: &Func) -> Result<Cfg, Memory>
        requires { IsFormed func.now.content }
        ensures { IfOk result (λ cfg. cfg ≡ graph_of func.now.content) }
    {
        let succs = edges(alloc, func)?;
        let preds = turned(alloc, &succs)?;
        let reached = marks(alloc, &succs)?;
        Ok(Cfg {
            succs,
            preds,
            reached,
        })
    }

    /// Where the edges of a block lead: one entry per edge, in the order of its labels.
    pub fn succs(&self, block: BlockId) -> &[BlockId]
        requires { block.0 < length self.now }
        ensures { result.now ≡ succs_of self.now block.0 }
    {
        self.succs.row(block.0 as usize)
    }

    /// Where the edges into a block come from: one entry per edge, in text order.
    pub fn preds(&self, block: BlockId) -> &[BlockId]
        requires { block.0 < length self.now }
        ensures { result.now ≡ preds_of self.now block.0 }
    {
        self.preds.row(block.0 as usize)
    }

    /// Whether a path from the entry leads to a block.
    pub fn reached(&self, block: BlockId) -> bool
        requires { block.0 < length self.now }
        ensures { IsTrue result ↔ Reached self.now block.0 }
    {
        self.reached[block.0 as usize]
    }

    /// Whether an edge of a block leads to the same or an earlier place in the text. Where the block is
    /// reached, a poll stands before its terminator. Each cycle of edges between reached blocks has
    /// such a block.
    pub fn retreats(&self, block: BlockId) -> bool
        requires { block.0 < length self.now }
        ensures value { IsTrue result ↔ Retreats self.now block.0 }
        ensures cycles_poll { CyclesPoll self.now }
    {
        any_up_to(self.succs(block), block)
    }
}

/// The blocks by number, for a search along edges.
impl Edges for Cfg {
    ghost rows = { λ cfg. numbers_of cfg };

    fn node_count(&self) -> usize {
        self.succs.node_count()
    }

    fn degree(&self, node: usize) -> usize {
        self.succs.degree(node)
    }

    fn target(&self, node: usize, number: usize) -> usize {
        self.succs.target(node, number)
    }
}

fn any_up_to(blocks: &[BlockId], last: BlockId) -> bool
    ensures { result ≡ list_any (λ block. nat_le block.0 last.0) blocks.now }
{
    blocks.iter().any(|block| block.0 <= last.0)
}

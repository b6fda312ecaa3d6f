//! The facts that fail, spread to all that rest on them.

ghost use Rattle.std.specs.Prelude.{IfOk, map};
ghost use Rattle.graph_search.specs.Edges.{AreInside};
ghost use Rattle.graph_search.specs.Paths.{MarksReached};
ghost use Rattle.base_facts.specs.Asked.{rows_of};

use crate::search::Asked;
use graph_search::{Edges, reached_from};
use sp_ids::Memory;
use std::alloc::Global;

/// The facts as a graph, with an edge from each to those that ask for it.
#[derive(Drop)]
struct Askers<'a> {
    rows: &'a [Vec<usize>],
}

impl Edges for Askers<'_> {
    ghost rows = { λ askers. map (λ row. row.items) askers.rows.now };

    fn node_count(&self) -> usize {
        self.rows.len()
    }

    fn degree(&self, node: usize) -> usize {
        self.rows[node].len()
    }

    fn target(&self, node: usize, number: usize) -> usize {
        self.rows[node][number]
    }
}

/// One mark for each fact: whether it is missed on some path, since it fails or asks for one that is missed.
pub(crate) fn missed(alloc: Global, asked: &Asked) -> Result<Vec<bool>, Memory>
    requires { AreInside (rows_of asked.now) asked.now.failing.items }
    ensures { IfOk result (λ marks. MarksReached (rows_of asked.now) asked.now.failing.items marks.items) }
{
    let askers = Askers {
        rows: &asked.askers,
    };
    Ok(reached_from(alloc, &askers, &asked.failing)?)
}

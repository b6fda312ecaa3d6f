//! Which nodes a search from a start reaches.

ghost use Rattle.std.specs.Prelude.{◌≡◌, ◌<◌, [], length, replicate, true, false, IfOk, slice_get, Some};
ghost use Rattle.std.specs.List.{All};
ghost use Rattle.graph_search.specs.Edges.{targets_of, AreInside};
ghost use Rattle.graph_search.specs.Paths.{MarksReached};
ghost use Rattle.graph_search.specs.Searches.{Finds, FindsAll};

use crate::edges::Edges;
use std::alloc::{AllocError, Global};

// A mark for each node, and the marked nodes in the order in which they were found.
#[derive(Drop)]
pub(crate) struct Search {
    marks: Vec<bool>,
    found: Vec<usize>,
}

/// One mark for each node: whether a path along edges leads there from one of the starts.
pub fn reached_from<E: Edges>(
    alloc: Global,
    edges: &E,
    starts: &[usize],
) -> Result<Vec<bool>, AllocError>
    requires inside { AreInside (E.rows edges.now) starts.now }
    ensures marks { IfOk result (λ marks. MarksReached (E.rows edges.now) starts.now marks.items) }
{
    let mut search = Search::new(alloc, edges.node_count())?;
    search.find_all(starts)?;
    let mut done = 0;
    while done < search.found.len() {
        let node = search.found[done];
        search.follow(edges, node)?;
        done += 1;
    }
    Ok(search.marks)
}

impl Search {
    // No mark on any of so many nodes.
    fn new(alloc: Global, count: usize) -> Result<Search, AllocError>
        ensures marks { IfOk result (λ search. search.marks.items ≡ replicate count false) }
        ensures found { IfOk result (λ search. search.found.items ≡ []) }
    {
        Ok(Search {
            marks: vec![in alloc; false; count]?,
            found: Vec::with_capacity(alloc, count)?,
        })
    }

    fn find(&mut self, node: usize) -> Result<(), AllocError>
        requires { node < length self.old.marks.items }
        ensures { IfOk result (λ _. Finds node self.old self.new) }
    {
        if !self.marks[node] {
            self.marks[node] = true;
            self.found.push(node)?;
        }
        Ok(())
    }

    fn find_all(&mut self, nodes: &[usize]) -> Result<(), AllocError>
        requires { All (λ node. node < length self.old.marks.items) nodes.now }
        ensures { IfOk result (λ _. FindsAll nodes.now self.old self.new) }
    {
        for node in nodes {
            self.find(*node)?;
        }
        Ok(())
    }

    // Finds the nodes where the edges of a node lead.
    fn follow<E: Edges>(&mut self, edges: &E, node: usize) -> Result<(), AllocError>
        requires node { node < length (E.rows edges.now) }
        requires inside { All (λ to. to < length self.old.marks.items) (targets_of (E.rows edges.now) node) }
        ensures { IfOk result (λ _. FindsAll (targets_of (E.rows edges.now) node) self.old self.new) }
    {
        for number in 0..edges.degree(node) {
            self.find(edges.target(node, number))?;
        }
        Ok(())
    }
}

//! Graphs by the edges of their nodes, and a graph without marked nodes.

ghost use Rattle.std.specs.Prelude.{◌≡◌, ◌<◌, ℕ, List, [], length, Some, slice_get, slice_index_or, false};
ghost use Rattle.graph_search.specs.Edges.{targets_of, without};

/// A graph whose nodes are numbered from 0. Contracts see, for each node, the list of the nodes where its edges lead.
pub trait Edges {
    ghost rows: { Self → List (List ℕ) };

    /// How many nodes there are.
    fn node_count(&self) -> usize
        ensures { result ≡ length (rows self.now) };

    /// How many edges leave a node.
    fn degree(&self, node: usize) -> usize
        requires { node < length (rows self.now) }
        ensures { result ≡ length (targets_of (rows self.now) node) };

    /// Where an edge that leaves a node leads. The edges of each node are numbered from 0.
    fn target(&self, node: usize, number: usize) -> usize
        requires node { node < length (rows self.now) }
        requires number { number < length (targets_of (rows self.now) node) }
        ensures { slice_get (targets_of (rows self.now) node) number ≡ Some result };
}

/// A graph without the edges that leave the blocked nodes. A node past the end of the marks isn't blocked.
#[derive(Drop)]
pub struct Without<'a, E> {
    pub edges: &'a E,
    pub blocked: &'a [bool],
}

impl<E: Edges> Edges for Without<'_, E> {
    ghost rows = { λ graph. without graph.blocked.now (E.rows graph.edges.now) };

    fn node_count(&self) -> usize {
        self.edges.node_count()
    }

    fn degree(&self, node: usize) -> usize {
        if is_marked(self.blocked, node) {
            return 0;
        }
        self.edges.degree(node)
    }

    fn target(&self, node: usize, number: usize) -> usize {
        self.edges.target(node, number)
    }
}

fn is_marked(marks: &[bool], node: usize) -> bool
    ensures { result ≡ slice_index_or marks.now node false }
{
    marks.get(node).copied().unwrap_or(false)
}

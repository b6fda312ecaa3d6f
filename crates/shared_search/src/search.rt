//! A search whose marks and lists are used again for the next one.

ghost use Rattle.std.specs.Prelude.{◌≡◌, ◌<◌, ℕ, length, replicate, false, IfOk};
ghost use Rattle.std.specs.List.{All, Contains};
ghost use Rattle.graph_search.specs.Edges.{targets_of, AreInside};
ghost use Rattle.graph_search.specs.Paths.{Marked};
ghost use Rattle.shared_search.specs.Lists.{ListsReached};
ghost use Rattle.shared_search.specs.Searches.{Finds, FindsAll};

use graph_search::Edges;
use std::alloc::AllocError;

/// Finds the nodes that paths along edges lead to from the starts, each once, in place of those that stood there. It takes a mark for each
/// node, none of them set, and leaves none of them set.
pub fn find_reached<E: Edges>(
    edges: &E,
    starts: &[usize],
    marks: &mut Vec<bool>,
    found: &mut Vec<usize>,
) -> Result<(), AllocError>
    requires inside { AreInside (E.rows edges.now) starts.now }
    requires clear { marks.old.items ≡ replicate (length (E.rows edges.now)) false }
    ensures clear { IfOk result (λ _. marks.new.items ≡ marks.old.items) }
    ensures found { IfOk result (λ _. ListsReached (E.rows edges.now) starts.now found.new.items) }
{
    found.clear();
    find_all(starts, marks, found)?;
    let mut done = 0;
    while done < found.len() {
        let node = found[done];
        follow(edges, node, marks, found)?;
        done += 1;
    }
    clear(found.as_slice(), marks);
    Ok(())
}

// Lists a node and marks it, where it has no mark.
fn find(node: usize, marks: &mut Vec<bool>, found: &mut Vec<usize>) -> Result<(), AllocError>
    requires { node < length marks.old.items }
    ensures { IfOk result (λ _. Finds node marks.old.items marks.new.items found.old.items found.new.items) }
{
    if !marks[node] {
        marks[node] = true;
        found.push(node)?;
    }
    Ok(())
}

fn find_all(
    nodes: &[usize],
    marks: &mut Vec<bool>,
    found: &mut Vec<usize>,
) -> Result<(), AllocError>
    requires { All (λ node. node < length marks.old.items) nodes.now }
    ensures { IfOk result (λ _. FindsAll nodes.now marks.old.items marks.new.items found.old.items found.new.items) }
{
    for node in nodes {
        find(*node, marks, found)?;
    }
    Ok(())
}

// Finds the nodes where the edges of a node lead.
fn follow<E: Edges>(
    edges: &E,
    node: usize,
    marks: &mut Vec<bool>,
    found: &mut Vec<usize>,
) -> Result<(), AllocError>
    requires node { node < length (E.rows edges.now) }
    requires inside { All (λ to. to < length marks.old.items) (targets_of (E.rows edges.now) node) }
    ensures { IfOk result (λ _. FindsAll (targets_of (E.rows edges.now) node) marks.old.items marks.new.items found.old.items found.new.items) }
{
    for number in 0..edges.degree(node) {
        find(edges.target(node, number), marks, found)?;
    }
    Ok(())
}

// Takes the marks back, which stand on these nodes alone.
fn clear(nodes: &[usize], marks: &mut Vec<bool>)
    requires inside { All (λ node. node < length marks.old.items) nodes.now }
    requires listed { (node : ℕ) → Marked marks.old.items node → Contains nodes.now node }
    ensures { marks.new.items ≡ replicate (length marks.old.items) false }
{
    for node in nodes {
        marks[*node] = false;
    }
}

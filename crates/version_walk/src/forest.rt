//! Blocks under their only predecessors.

ghost use Rattle.std.specs.Prelude.{◌≡◌, ◌<◌, ◌++◌, [], ◌∷◌, if◌then◌else◌, length, IfOk, ℕ, Some};
ghost use Rattle.std.specs.List.{All};
ghost use Rattle.version_walk.specs.Forest.{list_at, IsForest, AreInside, Adds};

use sp_ids::Memory;
use std::alloc::Global;

/// The blocks without an only predecessor, and of each block those whose only predecessor it is.
#[derive(Drop)]
pub(crate) struct Forest {
    pub(crate) roots: Vec<usize>,
    pub(crate) children: Vec<Vec<usize>>,
}

fn empty_lists(alloc: Global, count: usize) -> Result<Vec<Vec<usize>>, Memory>
    ensures whole { IfOk result (λ lists. length lists.items ≡ count) }
    ensures empty { IfOk result (λ lists. All (λ list. list.items ≡ []) lists.items) }
{
    let mut lists = Vec::with_capacity(alloc, count)?;
    for _ in 0..count {
        lists.push(Vec::new(alloc))?;
    }
    Ok(lists)
}

impl Forest {
    /// The forest of these only predecessors.
    pub(crate) fn of(alloc: Global, parents: &[Option<usize>]) -> Result<Forest, Memory>
        requires { AreInside parents.now }
        ensures whole { IfOk result (λ forest. length forest.children.items ≡ length parents.now) }
        ensures forest { IfOk result (λ forest. IsForest parents.now forest) }
    {
        let mut forest = Forest {
            roots: Vec::new(alloc),
            children: empty_lists(alloc, parents.len())?,
        };
        for block in 0..parents.len() {
            forest.add(block, parents[block])?;
        }
        Ok(forest)
    }

    fn add(&mut self, block: usize, parent: Option<usize>) -> Result<(), Memory>
        requires { (place : ℕ) → parent ≡ Some place → place < length self.old.children.items }
        ensures { IfOk result (λ _. Adds block parent self.old self.new) }
    {
        match parent {
            None => self.roots.push(block)?,
            Some(place) => self.children[place].push(block)?,
        }
        Ok(())
    }
}

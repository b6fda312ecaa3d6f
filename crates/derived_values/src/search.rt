//! The derived values (Garbage Collection Safepoints in LLVM, "Base & Derived Pointers"), by a search from the
//! `getelementptr`s along the uses by phis and selects.

ghost use Rattle.std.specs.Prelude.{◌≡◌, length, map, IfOk};
ghost use Rattle.derived_values.specs.Givens.{seen_giver};
ghost use Rattle.derived_values.specs.Deriveds.{AreMarks};
ghost use Rattle.derived_values.specs.Users.{Notes, AreSources};

use crate::givers::{Giver, Givers};
use crate::users::{add_used, no_users};
use graph_search::{Edges, reached_from};
use sp_ids::Memory;
use std::alloc::{AllocError, Global};

// The results of `getelementptr`s, and for each value the phis and selects that use it, by number.
#[derive(Drop)]
struct Sources {
    steps: Vec<usize>,
    users: Vec<Vec<usize>>,
}

// From each value to its users.
impl Edges for Sources {
    ghost rows = { λ found. map (λ row. row.items) found.users.items };

    fn node_count(&self) -> usize {
        self.users.len()
    }

    fn degree(&self, node: usize) -> usize {
        self.users[node].len()
    }

    fn target(&self, node: usize, number: usize) -> usize {
        self.users[node][number]
    }
}

/// For each value whether it is derived.
pub fn derived_marks<G: Givers>(alloc: Global, givers: &G) -> Result<Vec<bool>, Memory>
    ensures { IfOk result (λ marks. AreMarks (G.givers givers.now) marks.items) }
{
    let found = sources_of(alloc, givers)?;
    Ok(reached_from(alloc, &found, found.steps.as_slice())?)
}

fn sources_of<G: Givers>(alloc: Global, givers: &G) -> Result<Sources, AllocError>
    ensures { IfOk result (λ found. AreSources (G.givers givers.now) (length (G.givers givers.now)) found.steps.items (map (λ row. row.items) found.users.items)) }
{
    let count = givers.count();
    let mut steps = Vec::new(alloc);
    let mut users = no_users(alloc, count)?;
    for value in 0..count {
        note_giver(givers.giver(value), value, &mut steps, &mut users)?;
    }
    Ok(Sources { steps, users })
}

fn note_giver(
    giver: Giver<'_>,
    value: usize,
    steps: &mut Vec<usize>,
    users: &mut Vec<Vec<usize>>,
) -> Result<(), AllocError>
    ensures { IfOk result (λ _. Notes (seen_giver giver.entry) value steps.old.items steps.new.items
        (map (λ row. row.items) users.old.items) (map (λ row. row.items) users.new.items)) }
{
    match giver {
        Giver::Step => {
            steps.push(value)?;
            Ok(())
        }
        Giver::Merge(operands, bundle) => add_used(users, operands, bundle, value),
        Giver::Other => Ok(()),
    }
}

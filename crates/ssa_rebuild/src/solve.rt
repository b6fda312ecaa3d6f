//! The numbers of all slots of a function.

ghost use Rattle.std.specs.Prelude.{◌≡◌, length, map, IfOk};
ghost use Rattle.ir_cfg.specs.Graphs.{graph_of};
ghost use Rattle.rewriting_forms.specs.Names.{full_naming};
ghost use Rattle.live_sets.specs.Joins.{AreJoins};
ghost use Rattle.statepoint_insert.specs.Groups.{groups_of, numbers_in};
ghost use Rattle.ssa_rebuild.specs.Rows.{body_rows, group_list, slots_in};
ghost use Rattle.ssa_rebuild.specs.Solved.{AreNumbered};

use crate::listed::listed;
use crate::numbers::Numbers;
use crate::rows::{add_all_entries, parents};
use ir_cfg::Cfg;
use live_sets::joins;
use sp_ids::{Memory, ValueId};
use statepoint_insert::{Group, Marked};
use std::alloc::Global;
use version_walk::{Packed, answer_blocks};

/// The values for which phis are inserted at the front of each block.
pub(crate) fn joined(alloc: Global, marked: &Marked, cfg: &Cfg) -> Result<Vec<Vec<ValueId>>, Memory>
    requires { cfg.now ≡ graph_of marked.now.before }
    ensures { IfOk result (λ joins. AreJoins marked.now.before marked.now.table joins.items) }
{
    let func = marked.func();
    let bases = marked.bases();
    let marks = listed(alloc, marked.groups())?;
    let joined = joins(alloc, func, cfg, bases, marks.as_slice())?;
    Ok(joined)
}

/// For each block the numbers of the versions that its slots ask for, of which these are those of its lines.
pub(crate) fn solve(
    alloc: Global,
    marked: &Marked,
    cfg: &Cfg,
    joins: &[Vec<ValueId>],
    bodies: Vec<Vec<Packed>>,
) -> Result<Vec<Vec<Packed>>, Memory>
    requires cfg { cfg.now ≡ graph_of marked.now.before }
    requires joins { AreJoins marked.now.before marked.now.table joins.now }
    requires bodies { slots_in bodies.items
        ≡ body_rows (map group_list (groups_of marked.now.before marked.now.table)) (map (λ join. numbers_in join.items) joins.now) 0 (length marked.now.before.args) marked.now.before.blocks }
    ensures { IfOk result (λ answers. AreNumbered marked.now.before marked.now.table (full_naming marked.now.before marked.now.table) answers.items) }
{
    let func = marked.func();
    let mut rows = bodies;
    add_all_entries(func, cfg, joins, &mut rows)?;
    let above = parents(alloc, func, cfg)?;
    let args = func.args().len() as u32;
    let Numbers { starts, own } = Numbers::of(alloc, args, rows.as_slice())?;
    let room = changes_in(marked.groups(), joins);
    let answers = answer_blocks(alloc, above.as_slice(), starts.as_slice(), own, rows, room)?;
    Ok(answers)
}

// How many further definitions there are.
fn changes_in(groups: &[Group], joins: &[Vec<ValueId>]) -> usize {
    let mut count = 0_usize;
    for group in groups {
        count = count.saturating_add(group.relocates().len());
    }
    for join in joins {
        count = count.saturating_add(join.len());
    }
    count
}

//! The versions of a function's values, by their numbers in the final text.

ghost use Rattle.std.specs.Prelude.{◌≡◌, length, map, IfOk};
ghost use Rattle.ir_cfg.specs.Graphs.{graph_of};
ghost use Rattle.rewriting_forms.specs.Names.{full_naming};
ghost use Rattle.live_sets.specs.Joins.{AreJoins};
ghost use Rattle.ssa_rebuild.specs.Arrivals.{entry_numbers};
ghost use Rattle.ssa_rebuild.specs.Solved.{AreNumbered};

use crate::arrivals::all_arrivals;
use crate::rooms::row_rooms;
use crate::rows::bodies;
use crate::solve::{joined, solve};
use ir_cfg::Cfg;
use sp_ids::{Memory, ValueId};
use statepoint_insert::Marked;
use std::alloc::Global;
use version_walk::Packed;

/// What the text of a function is written over: which phis are inserted, and the number of the version that each use takes and each
/// definition gets. A number is the place of a name among all definitions of the final text, arguments first.
#[derive(Drop)]
pub struct Versions {
    /// For each block the pointers that have an inserted phi at its front, in the order of all pointers.
    pub joins: Vec<Vec<ValueId>>,
    /// For each block the numbers of its inserted phis and lines in the order of the text, and behind them those of the entries of
    /// phis that stand for it.
    pub rows: Vec<Vec<Packed>>,
    /// The numbers of all entries of phis in the order of the text; in each block those of inserted phis come first.
    pub entries: Vec<u32>,
}

impl Versions {
    /// The versions with a phi wherever two edges or more lead into a block at whose front a relocated pointer is live
    /// (`full_naming`).
    pub fn of(alloc: Global, marked: &Marked, cfg: &Cfg) -> Result<Versions, Memory>
        requires { cfg.now ≡ graph_of marked.now.before }
        ensures joins { IfOk result (λ versions. AreJoins marked.now.before marked.now.table versions.joins.items) }
        ensures rows { IfOk result (λ versions. AreNumbered marked.now.before marked.now.table (full_naming marked.now.before marked.now.table) versions.rows.items) }
        ensures entries { IfOk result (λ versions. versions.entries.items ≡ entry_numbers marked.now.before marked.now.table (full_naming marked.now.before marked.now.table)) }
    {
        let joins = joined(alloc, marked, cfg)?;
        let (rows, entries) = all_numbers(alloc, marked, cfg, joins.as_slice())?;
        Ok(Versions {
            joins,
            rows,
            entries,
        })
    }
}

// The numbers of each block's slots, and those of all entries of phis in the order of the text.
fn all_numbers(
    alloc: Global,
    marked: &Marked,
    cfg: &Cfg,
    joins: &[Vec<ValueId>],
) -> Result<(Vec<Vec<Packed>>, Vec<u32>), Memory>
    requires cfg { cfg.now ≡ graph_of marked.now.before }
    requires joins { AreJoins marked.now.before marked.now.table joins.now }
    ensures rows { IfOk result (λ numbers. AreNumbered marked.now.before marked.now.table (full_naming marked.now.before marked.now.table) numbers.0.items) }
    ensures entries { IfOk result (λ numbers. numbers.1.items ≡ entry_numbers marked.now.before marked.now.table (full_naming marked.now.before marked.now.table)) }
{
    let func = marked.func();
    let groups = marked.groups();
    let rooms = row_rooms(alloc, func, cfg, groups, joins)?;
    let bodies = bodies(alloc, func, groups, joins, rooms.as_slice())?;
    let places = lengths(alloc, bodies.as_slice())?;
    let rows = solve(alloc, marked, cfg, joins, bodies)?;
    let entries = all_arrivals(alloc, func, cfg, joins, rows.as_slice(), places)?;
    Ok((rows, entries))
}

fn lengths(alloc: Global, rows: &[Vec<Packed>]) -> Result<Vec<usize>, Memory>
    ensures { IfOk result (λ lengths. lengths.items ≡ map (λ row. length row.items) rows.now) }
{
    let mut lengths = Vec::with_capacity(alloc, rows.len())?;
    for row in rows {
        lengths.push(row.len())?;
    }
    Ok(lengths)
}

//! The function over its versions, without phis that no version needs.

ghost use Rattle.std.specs.Prelude.{◌≡◌, IfOk};
ghost use Rattle.ir_cfg.specs.Graphs.{graph_of};
ghost use Rattle.live_sets.specs.Joins.{AreJoins};
ghost use Rattle.phi_webs.specs.Settled.{AnswersBecomes};
ghost use Rattle.rewriting_forms.specs.Names.{full_naming, least_naming};
ghost use Rattle.rewriting_forms.specs.Rewritten.{rewritten_with};
ghost use Rattle.ssa_rebuild.specs.Arrivals.{entry_numbers};
ghost use Rattle.ssa_rebuild.specs.Solved.{AreNumbered};
ghost use Rattle.ssa_rebuild.specs.Versions.{AreVersions};
ghost use Rattle.thin_phis.specs.Runs.{IsThinned, web_in};
ghost use Rattle.ir_ast.specs.Funcs.{zeros_of};

use crate::entries::thin_entries;
use crate::numbers::Renumbering;
use crate::rows::{thin_joins, thin_rows};
use crate::webs::web;
use ir_ast::Func;
use ir_cfg::Cfg;
use phi_webs::settle;
use sp_ids::Memory;
use ssa_rebuild::{Versions, with_versions};
use statepoint_insert::Marked;
use std::alloc::Global;

/// The function in SSA form again: each use takes the version of its value that stands there, phis named `%sp.mN` stand at the front of
/// the blocks where versions meet, and groups stand in place of calls (Garbage Collection Safepoints in LLVM,
/// "RewriteStatepointsForGC"). No phi stays that has no operand but itself and one other version ("Simple and Efficient Construction of
/// Static Single Assignment Form", Braun and others). Each line has number 0. Where memory is wanted the function is gone.
pub fn rebuild(alloc: Global, marked: Marked) -> Result<Func, Memory>
    ensures content { IfOk result (λ func. func.content ≡ rewritten_with marked.before marked.table (least_naming marked.before marked.table)) }
    ensures zeros { IfOk result (λ func. func.lines ≡ zeros_of func.content) }
{
    let cfg = Cfg::of(alloc, marked.func())?;
    let full = Versions::of(alloc, &marked, &cfg)?;
    let least = thinned(alloc, &marked, &cfg, full)?;
    with_versions(alloc, marked, &cfg, least)
}

// The versions without phis that no version needs.
fn thinned(
    alloc: Global,
    marked: &Marked,
    cfg: &Cfg,
    versions: Versions,
) -> Result<Versions, Memory>
    requires cfg { cfg.now ≡ graph_of marked.now.before }
    requires joins { AreJoins marked.now.before marked.now.table versions.joins.items }
    requires rows { AreNumbered marked.now.before marked.now.table (full_naming marked.now.before marked.now.table) versions.rows.items }
    requires entries { versions.entries.items ≡ entry_numbers marked.now.before marked.now.table (full_naming marked.now.before marked.now.table) }
    ensures { IfOk result (λ after. AreVersions marked.now.before marked.now.table (least_naming marked.now.before marked.now.table) after) }
{
    let func = marked.func();
    let numbers = settled(alloc, func, cfg, &versions)?;
    if numbers.all_stay() {
        return Ok(versions);
    }
    let after = without_phis(alloc, func, cfg, &versions, &numbers)?;
    Ok(after)
}

// What each number becomes where phis go that have no operand but themselves and one other version.
fn settled(
    alloc: Global,
    func: &Func,
    cfg: &Cfg,
    versions: &Versions,
) -> Result<Renumbering, Memory>
    requires { cfg.now ≡ graph_of func.now.content }
    ensures { IfOk result (λ numbers. AnswersBecomes (web_in versions.now.joins.items versions.now.rows.items cfg.now versions.now.entries.items 0 func.now.content.blocks) numbers) }
{
    let web = web(
        alloc,
        func,
        cfg,
        versions.joins.as_slice(),
        versions.rows.as_slice(),
        versions.entries.as_slice(),
    )?;
    let ends = settle(alloc, web.as_slice())?;
    let numbers = Renumbering::of(alloc, ends)?;
    Ok(numbers)
}

// What is left of versions where phis go.
fn without_phis(
    alloc: Global,
    func: &Func,
    cfg: &Cfg,
    versions: &Versions,
    numbers: &Renumbering,
) -> Result<Versions, Memory>
    requires { cfg.now ≡ graph_of func.now.content }
    ensures { IfOk result (λ after. IsThinned func.now.content cfg.now numbers.now versions.now after) }
{
    let joins = versions.joins.as_slice();
    let rows = versions.rows.as_slice();
    let entries = versions.entries.as_slice();
    Ok(Versions {
        joins: thin_joins(alloc, joins, rows, numbers)?,
        rows: thin_rows(alloc, joins, rows, numbers)?,
        entries: thin_entries(alloc, func, cfg, joins, rows, entries, numbers)?,
    })
}

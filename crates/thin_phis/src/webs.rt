//! The web of the inserted phis of a function, over the numbers of its versions.

ghost use Rattle.std.specs.Prelude.{◌≡◌, ◌++◌, map, IfOk};
ghost use Rattle.ir_cfg.specs.Graphs.{graph_of};
ghost use Rattle.phi_webs.specs.Settled.{web_of};
ghost use Rattle.ssa_rebuild.specs.Answers.{number_of};
ghost use Rattle.thin_phis.specs.Runs.{phis_over, behind_phis, behind_entries, web_in};

use crate::entries::{Entries, entry_count};
use crate::rows::{inserted, number_of};
use ir_ast::{Func, Inst};
use ir_cfg::Cfg;
use phi_webs::PhiRow;
use sp_ids::{BlockId, Memory, ValueId};
use std::alloc::Global;
use version_walk::Packed;

/// The inserted phis of a function in the order of the text, each with the entries that it takes.
pub(crate) fn web<'a>(
    alloc: Global,
    func: &Func,
    cfg: &Cfg,
    joins: &[Vec<ValueId>],
    rows: &[Vec<Packed>],
    entries: &'a [u32],
) -> Result<Vec<PhiRow<'a>>, Memory>
    requires { cfg.now ≡ graph_of func.now.content }
    ensures { IfOk result (λ web. web_of web.items ≡ web_in joins.now rows.now cfg.now entries.now 0 func.now.content.blocks) }
{
    let mut web = Vec::new(alloc);
    let mut rest = Entries::of(entries);
    let mut number = 0;
    for block in func.blocks() {
        let width = cfg.preds(BlockId(number as u32)).len();
        add_phis(inserted(joins, rows, number), width, &mut rest, &mut web)?;
        skip_own(block.insts(), &mut rest);
        number += 1;
    }
    Ok(web)
}

fn add_phis<'a>(
    slots: &[Packed],
    width: usize,
    rest: &mut Entries<'a>,
    web: &mut Vec<PhiRow<'a>>,
) -> Result<(), Memory>
    ensures web { IfOk result (λ _. web_of web.new.items ≡ web_of web.old.items ++ phis_over width (map number_of slots.now) rest.old) }
    ensures rest { IfOk result (λ _. rest.new ≡ behind_phis width (map number_of slots.now) rest.old) }
{
    for slot in slots {
        let operands = rest.next_ones(width);
        web.push(PhiRow {
            name: number_of(slot.slot()),
            operands,
        })?;
    }
    Ok(())
}

// Leaves the entries of the phis among these lines out.
fn skip_own(insts: &[Inst], rest: &mut Entries<'_>)
    ensures { rest.new ≡ behind_entries insts.now rest.old }
{
    for inst in insts {
        rest.next_ones(entry_count(inst));
    }
}

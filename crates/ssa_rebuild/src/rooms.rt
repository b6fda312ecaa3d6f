//! How much room lists need, so that it is taken once.

ghost use Rattle.std.specs.Prelude.{◌≡◌};
ghost use Rattle.ir_cfg.specs.Graphs.{graph_of};

use crate::lines::{is_call, is_phi, relocates_at};
use ir_ast::{Func, Inst};
use ir_cfg::Cfg;
use sp_ids::{BlockId, Memory, ValueId};
use statepoint_insert::Group;
use std::alloc::Global;

/// Room for the slots of each block, those of entries of phis included.
pub(crate) fn row_rooms(
    alloc: Global,
    func: &Func,
    cfg: &Cfg,
    groups: &[Group],
    joins: &[Vec<ValueId>],
) -> Result<Vec<usize>, Memory>
    requires { cfg.now ≡ graph_of func.now.content }
{
    let mut rooms = vec![in alloc; 0_usize; func.blocks().len()]?;
    let mut call = 0;
    for number in 0..func.blocks().len() {
        let joined = joined_at(joins, number);
        grow(&mut rooms, number, joined);
        for block in cfg.preds(BlockId(number as u32)) {
            grow(&mut rooms, block.0 as usize, joined);
        }
        call = add_lines(
            func.blocks()[number].insts(),
            number,
            groups,
            call,
            &mut rooms,
        );
    }
    Ok(rooms)
}

// Adds the slots of the lines of a block, of which the first call has this number; gives the number of the next call.
fn add_lines(
    insts: &[Inst],
    block: usize,
    groups: &[Group],
    start: usize,
    rooms: &mut Vec<usize>,
) -> usize {
    let mut call = start;
    let mut room = insts.len();
    for inst in insts {
        if is_phi(inst.op()) {
            for label in inst.labels() {
                grow(rooms, label.0 as usize, 1);
            }
        } else {
            room = room.saturating_add(inst.operands().len());
        }
        room = room.saturating_add(inst.bundle().len());
        if is_call(inst.op()) {
            let count = relocates_at(groups, call).len();
            room = room.saturating_add(count.saturating_add(count).saturating_add(1));
            call = call.saturating_add(1);
        }
    }
    grow(rooms, block, room);
    call
}

fn grow(rooms: &mut Vec<usize>, block: usize, count: usize) {
    if block < rooms.len() {
        rooms[block] = rooms[block].saturating_add(count);
    }
}

fn joined_at(joins: &[Vec<ValueId>], block: usize) -> usize {
    match joins.get(block) {
        Some(join) => join.len(),
        None => 0,
    }
}

/// The room of a block, or none past the end.
pub(crate) fn room_at(rooms: &[usize], block: usize) -> usize {
    rooms.get(block).copied().unwrap_or(0)
}

/// Room for the lines of these instructions, with groups in place of calls, of which the first has this number.
pub(crate) fn text_room(insts: &[Inst], groups: &[Group], start: usize) -> usize {
    let mut room = insts.len();
    let mut call = start;
    for inst in insts {
        if is_call(inst.op()) {
            room = room
                .saturating_add(relocates_at(groups, call).len())
                .saturating_add(results_in(inst));
            call = call.saturating_add(1);
        }
    }
    room
}

fn results_in(inst: &Inst) -> usize {
    match inst.result() {
        Some(_) => 1,
        None => 0,
    }
}

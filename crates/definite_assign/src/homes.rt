//! Where the result of each instruction stands.

ghost use Rattle.std.specs.Prelude.{◌≡◌, ◌+◌, ◌<◌, ◌^◌, Some, length, IfOk, slice_get};
ghost use Rattle.ir_ast.specs.Funcs.{instructions_of, IsSmall};
ghost use Rattle.ir_cfg.specs.DefiniteUses.{Stands, text_place};
ghost use Rattle.definite_assign.specs.Homes.{AreHomes};

use ir_ast::{Func, Inst};
use sp_ids::{BlockId, Memory};
use std::alloc::Global;

/// Where the definition of a value stands: in this block, at this place of the function's text.
#[derive(Clone, Copy)]
pub(crate) struct Home {
    pub(crate) block: BlockId,
    pub(crate) place: u32,
}

/// Where the result of each instruction stands, in text order.
pub(crate) fn homes(alloc: Global, func: &Func) -> Result<Vec<Home>, Memory>
    ensures { IfOk result (λ homes. AreHomes func.now.content (length (instructions_of func.now.content.blocks)) homes.items) }
{
    let mut homes = Vec::with_capacity(alloc, room_for(func))?;
    let mut place = 0;
    for (number, block) in func.blocks().iter().enumerate() {
        add_block(func, number, place, &mut homes)?;
        place += block.insts().len();
    }
    Ok(homes)
}

// Room for the result of each instruction.
fn room_for(func: &Func) -> usize {
    let mut room: usize = 0;
    for block in func.blocks() {
        room = room.saturating_add(block.insts().len());
    }
    room
}

fn add_block(func: &Func, number: usize, start: usize, homes: &mut Vec<Home>) -> Result<(), Memory>
    requires number { number < length func.now.content.blocks }
    requires start { start ≡ text_place func.now.content number 0 }
    requires homes { AreHomes func.now.content start homes.old.items }
    ensures { IfOk result (λ _. AreHomes func.now.content (text_place func.now.content (number + 1) 0) homes.new.items) }
{
    let block = &func.blocks()[number];
    for (index, inst) in block.insts().iter().enumerate() {
        add_result(func, number, index, start + index, inst, homes)?;
    }
    Ok(())
}

fn add_result(
    func: &Func,
    number: usize,
    index: usize,
    place: usize,
    inst: &Inst,
    homes: &mut Vec<Home>,
) -> Result<(), Memory>
    requires small { IsSmall func.now.content.args func.now.content.blocks }
    requires stands { Stands func.now.content number index inst.now }
    requires place { place ≡ text_place func.now.content number index }
    requires homes { AreHomes func.now.content place homes.old.items }
    ensures { IfOk result (λ _. AreHomes func.now.content (place + 1) homes.new.items) }
{
    if inst.result().is_some() {
        homes.push(Home {
            block: BlockId(number as u32),
            place: place as u32,
        })?;
    }
    Ok(())
}

//! The block and the place of each instruction, by its number in the text.

ghost use Rattle.std.specs.Prelude.{◌≡◌, ◌+◌, IfOk, length, slice_get, Some};
ghost use Rattle.ir_ast.specs.Funcs.{instructions_of};
ghost use Rattle.ir_cfg.specs.DefiniteUses.{text_place};
ghost use Rattle.place_facts.specs.Spots.{AreSpots, KnowsSpots};

use ir_ast::{Block, Func};
use sp_ids::Memory;
use std::alloc::Global;

/// Where an instruction stands.
#[derive(Clone, Copy)]
pub(crate) struct Spot {
    /// The number of its block.
    pub(crate) block: usize,
    /// Its place in the block.
    pub(crate) place: usize,
}

/// Where each instruction stands, in text order.
pub(crate) fn spots(alloc: Global, func: &Func) -> Result<Vec<Spot>, Memory>
    ensures { IfOk result (λ spots. KnowsSpots func.now.content spots.items) }
{
    let mut spots = Vec::new(alloc);
    for (number, block) in func.blocks().iter().enumerate() {
        add_block(func, number, block, &mut spots)?;
    }
    Ok(spots)
}

fn add_block(func: &Func, number: usize, block: &Block, spots: &mut Vec<Spot>) -> Result<(), Memory>
    requires block { slice_get func.now.content.blocks number ≡ Some block.now }
    requires spots { AreSpots func.now.content (text_place func.now.content number 0) spots.old.items }
    ensures { IfOk result (λ _. AreSpots func.now.content (text_place func.now.content (number + 1) 0) spots.new.items) }
{
    for place in 0..block.insts().len() {
        spots.push(Spot {
            block: number,
            place,
        })?;
    }
    Ok(())
}

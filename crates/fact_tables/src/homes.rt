//! The block and the place that give each value.

ghost use Rattle.std.specs.Prelude.{◌≡◌, ◌+◌, Some, None, length, replicate, IfOk, slice_get};
ghost use Rattle.object_meaning.specs.Lines.{insts_in};
ghost use Rattle.fact_tables.specs.Homes.{KnowsHomes, home_in};

use ir_ast::{Block, Func, Inst};
use sp_ids::Memory;
use std::alloc::Global;

/// Where the definition of a value stands: in this block, at this place of it.
#[derive(Clone, Copy)]
pub struct Home {
    /// The number of the block.
    pub block: usize,
    /// The place among the lines of the block.
    pub place: usize,
}

/// Where each value of a function is defined; arguments have no home.
pub fn homes(alloc: Global, func: &Func) -> Result<Vec<Option<Home>>, Memory>
    ensures { IfOk result (λ homes. KnowsHomes func.now.content (length func.now.content.blocks) 0 homes.items) }
{
    let mut homes = without_homes(alloc, func.args().len())?;
    for (number, block) in func.blocks().iter().enumerate() {
        add_block(func, number, block, &mut homes)?;
    }
    Ok(homes)
}

fn without_homes(alloc: Global, count: usize) -> Result<Vec<Option<Home>>, Memory>
    ensures { IfOk result (λ homes. homes.items ≡ replicate count None) }
{
    let mut homes = Vec::new(alloc);
    for _ in 0..count {
        homes.push(None)?;
    }
    Ok(homes)
}

fn add_block(
    func: &Func,
    number: usize,
    block: &Block,
    homes: &mut Vec<Option<Home>>,
) -> Result<(), Memory>
    requires block { slice_get func.now.content.blocks number ≡ Some block.now }
    requires homes { KnowsHomes func.now.content number 0 homes.old.items }
    ensures { IfOk result (λ _. KnowsHomes func.now.content (number + 1) 0 homes.new.items) }
{
    for (place, inst) in block.insts().iter().enumerate() {
        add_result(func, number, place, inst, homes)?;
    }
    Ok(())
}

fn add_result(
    func: &Func,
    number: usize,
    place: usize,
    inst: &Inst,
    homes: &mut Vec<Option<Home>>,
) -> Result<(), Memory>
    requires inst { slice_get (insts_in func.now.content number) place ≡ Some inst.now }
    requires homes { KnowsHomes func.now.content number place homes.old.items }
    ensures { IfOk result (λ _. KnowsHomes func.now.content number (place + 1) homes.new.items) }
{
    if inst.result().is_some() {
        homes.push(Some(Home {
            block: number,
            place,
        }))?;
    }
    Ok(())
}

/// Where a value is defined.
pub fn home_of(homes: &[Option<Home>], value: u32) -> Option<Home>
    ensures { result ≡ home_in homes.now value }
{
    homes.get(value as usize).copied().flatten()
}

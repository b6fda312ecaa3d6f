//! The uses that only paths can show to be definite.

ghost use Rattle.std.specs.Prelude.{◌≡◌, ◌+◌, ◌<◌, ◌^◌, ◌++◌, Some, length, map, IfOk, slice_get};
ghost use Rattle.std.specs.List.{flat_map};
ghost use Rattle.ir_ast.specs.Funcs.{instructions_of, IsSmall};
ghost use Rattle.ir_ast.specs.Formed.{IsFormed};
ghost use Rattle.ir_cfg.specs.DefiniteUses.{Stands, text_place};
ghost use Rattle.definite_assign.specs.Homes.{AreHomes};
ghost use Rattle.definite_assign.specs.Asked.{home_of, far_use, asked, asked_by, entry_asked, entries_asked};
ghost use Rattle.definite_assign.specs.FarUses.{AreFarUses};

use crate::homes::Home;
use ir_ast::{Func, Inst, Op, Operand, Ty};
use sp_ids::{BlockId, Memory};
use std::alloc::Global;

/// A use of a value that only paths can show to be definite: it asks for the value in a block, and the
/// value's definition doesn't stand before it there.
#[derive(Clone, Copy)]
pub(crate) struct FarUse {
    /// The block of the definition.
    pub(crate) home: BlockId,
    /// The block where the value is asked for.
    pub(crate) block: BlockId,
    /// The place of the instruction in the function's text.
    pub(crate) place: u32,
}

/// Where a value is asked for: in this block, before this place of the text.
#[derive(Clone, Copy)]
pub(crate) struct Spot {
    block: BlockId,
    before: u32,
}

/// The uses of a function that aren't definite at once, in text order.
pub(crate) fn far_uses(alloc: Global, func: &Func, homes: &[Home]) -> Result<Vec<FarUse>, Memory>
    requires formed { IsFormed func.now.content }
    requires homes { AreHomes func.now.content (length (instructions_of func.now.content.blocks)) homes.now }
    ensures { IfOk result (λ uses. AreFarUses func.now.content (length (instructions_of func.now.content.blocks)) uses.items) }
{
    let mut uses = Vec::new(alloc);
    let mut place = 0;
    for (number, block) in func.blocks().iter().enumerate() {
        add_block(func, homes, number, place, &mut uses)?;
        place += block.insts().len();
    }
    Ok(uses)
}

fn add_block(
    func: &Func,
    homes: &[Home],
    number: usize,
    start: usize,
    uses: &mut Vec<FarUse>,
) -> Result<(), Memory>
    requires formed { IsFormed func.now.content }
    requires homes { AreHomes func.now.content (length (instructions_of func.now.content.blocks)) homes.now }
    requires number { number < length func.now.content.blocks }
    requires start { start ≡ text_place func.now.content number 0 }
    requires uses { AreFarUses func.now.content start uses.old.items }
    ensures { IfOk result (λ _. AreFarUses func.now.content (text_place func.now.content (number + 1) 0) uses.new.items) }
{
    let block = &func.blocks()[number];
    for (index, inst) in block.insts().iter().enumerate() {
        add_line(func, homes, number, index, start + index, inst, uses)?;
    }
    Ok(())
}

fn add_line(
    func: &Func,
    homes: &[Home],
    number: usize,
    index: usize,
    place: usize,
    inst: &Inst,
    uses: &mut Vec<FarUse>,
) -> Result<(), Memory>
    requires formed { IsFormed func.now.content }
    requires homes { AreHomes func.now.content (length (instructions_of func.now.content.blocks)) homes.now }
    requires small { IsSmall func.now.content.args func.now.content.blocks }
    requires stands { Stands func.now.content number index inst.now }
    requires place { place ≡ text_place func.now.content number index }
    requires uses { AreFarUses func.now.content place uses.old.items }
    ensures { IfOk result (λ _. AreFarUses func.now.content (place + 1) uses.new.items) }
{
    let arguments = func.args().len();
    ask_line(
        homes,
        arguments,
        BlockId(number as u32),
        place as u32,
        inst,
        uses,
    )
}

fn ask_line(
    homes: &[Home],
    arguments: usize,
    block: BlockId,
    place: u32,
    inst: &Inst,
    uses: &mut Vec<FarUse>,
) -> Result<(), Memory>
    ensures { IfOk result (λ _. uses.new.items ≡ uses.old.items ++ asked_by homes.now arguments block place inst.now) }
{
    match inst.op() {
        Op::Phi => ask_entries(
            homes,
            arguments,
            place,
            inst.labels(),
            inst.operands(),
            uses,
        ),
        _ => ask_operands(
            homes,
            arguments,
            Spot {
                block,
                before: place,
            },
            place,
            inst,
            uses,
        ),
    }
}

// An entry of a phi asks for its value at the end of the block of its label.
fn ask_entries(
    homes: &[Home],
    arguments: usize,
    place: u32,
    labels: &[BlockId],
    operands: &[Operand],
    uses: &mut Vec<FarUse>,
) -> Result<(), Memory>
    ensures { IfOk result (λ _. uses.new.items ≡ uses.old.items ++ entries_asked homes.now arguments place labels.now operands.now) }
{
    for (index, operand) in operands.iter().enumerate() {
        let label = label_at(labels, index);
        ask_entry(homes, arguments, place, label, *operand, uses)?;
    }
    Ok(())
}

fn label_at(labels: &[BlockId], index: usize) -> Option<BlockId>
    ensures { result ≡ slice_get labels.now index }
{
    labels.get(index).copied()
}

fn ask_entry(
    homes: &[Home],
    arguments: usize,
    place: u32,
    label: Option<BlockId>,
    operand: Operand,
    uses: &mut Vec<FarUse>,
) -> Result<(), Memory>
    ensures { IfOk result (λ _. uses.new.items ≡ uses.old.items ++ entry_asked homes.now arguments place label operand) }
{
    match label {
        Some(block) => {
            let end = Spot {
                block,
                before: u32::MAX,
            };
            ask(homes, arguments, end, place, operand, uses)
        }
        None => Ok(()),
    }
}

fn ask_operands(
    homes: &[Home],
    arguments: usize,
    spot: Spot,
    place: u32,
    inst: &Inst,
    uses: &mut Vec<FarUse>,
) -> Result<(), Memory>
    ensures { IfOk result (λ _. uses.new.items ≡ uses.old.items ++ flat_map (asked homes.now arguments spot place) (inst.now.operands ++ map (λ entry. entry.1) inst.now.bundle)) }
{
    ask_each(homes, arguments, spot, place, inst.operands(), uses)?;
    ask_bundle(homes, arguments, spot, place, inst.bundle(), uses)
}

fn ask_each(
    homes: &[Home],
    arguments: usize,
    spot: Spot,
    place: u32,
    operands: &[Operand],
    uses: &mut Vec<FarUse>,
) -> Result<(), Memory>
    ensures { IfOk result (λ _. uses.new.items ≡ uses.old.items ++ flat_map (asked homes.now arguments spot place) operands.now) }
{
    for operand in operands {
        ask(homes, arguments, spot, place, *operand, uses)?;
    }
    Ok(())
}

fn ask_bundle(
    homes: &[Home],
    arguments: usize,
    spot: Spot,
    place: u32,
    bundle: &[(Ty, Operand)],
    uses: &mut Vec<FarUse>,
) -> Result<(), Memory>
    ensures { IfOk result (λ _. uses.new.items ≡ uses.old.items ++ flat_map (asked homes.now arguments spot place) (map (λ entry. entry.1) bundle.now)) }
{
    for (_, operand) in bundle {
        ask(homes, arguments, spot, place, *operand, uses)?;
    }
    Ok(())
}

fn ask(
    homes: &[Home],
    arguments: usize,
    spot: Spot,
    place: u32,
    operand: Operand,
    uses: &mut Vec<FarUse>,
) -> Result<(), Memory>
    ensures { IfOk result (λ _. uses.new.items ≡ uses.old.items ++ asked homes.now arguments spot place operand) }
{
    match operand {
        Operand::Value(value) => {
            let home = home_of(homes, arguments, value.0 as usize);
            add_far(home, spot, place, uses)
        }
        _ => Ok(()),
    }
}

fn add_far(home: Option<Home>, spot: Spot, place: u32, uses: &mut Vec<FarUse>) -> Result<(), Memory>
    ensures { IfOk result (λ _. uses.new.items ≡ uses.old.items ++ far_use home spot place) }
{
    match home {
        Some(home) => add_from(home, spot, place, uses),
        None => Ok(()),
    }
}

fn add_from(home: Home, spot: Spot, place: u32, uses: &mut Vec<FarUse>) -> Result<(), Memory>
    ensures { IfOk result (λ _. uses.new.items ≡ uses.old.items ++ far_use (Some home) spot place) }
{
    if home.block.0 == spot.block.0 && home.place < spot.before {
        return Ok(());
    }
    uses.push(FarUse {
        home: home.block,
        block: spot.block,
        place,
    })?;
    Ok(())
}

// Where a value is defined; an argument stands before all blocks.
fn home_of(homes: &[Home], arguments: usize, value: usize) -> Option<Home>
    ensures { result ≡ home_of homes.now arguments value }
{
    if value < arguments {
        return None;
    }
    homes.get(value - arguments).copied()
}

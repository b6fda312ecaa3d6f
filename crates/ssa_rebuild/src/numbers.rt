//! The numbers of definitions in the final text.

ghost use Rattle.std.specs.Prelude.{◌≡◌, ◌<◌, ◌+◌, ◌^◌, ◌++◌, ◌∷◌, [], length, IfOk};
ghost use Rattle.std.specs.List.{range_with_len};
ghost use Rattle.version_walk.specs.Slots.{next_behind};
ghost use Rattle.ssa_rebuild.specs.Rows.{owns, starts_of, all_owns, slots_in};
ghost use Rattle.version_walk.specs.Walks.{HasRoom};

use sp_ids::Memory;
use std::alloc::Global;
use version_walk::{Packed, Slot};

/// The number of the first definition of each block, and that of each value's own definition.
#[derive(Drop)]
pub(crate) struct Numbers {
    pub(crate) starts: Vec<u32>,
    pub(crate) own: Vec<u32>,
}

impl Numbers {
    /// The numbers for these slots of all blocks, behind those of so many arguments. Where a number isn't below 2^32, it is want of
    /// memory.
    pub(crate) fn of(alloc: Global, args: u32, rows: &[Vec<Packed>]) -> Result<Numbers, Memory>
        ensures starts { IfOk result (λ numbers. numbers.starts.items ≡ starts_of args (slots_in rows.now)) }
        ensures own { IfOk result (λ numbers. numbers.own.items ≡ range_with_len 0 args ++ all_owns args (slots_in rows.now)) }
        ensures room { IfOk result (λ numbers. HasRoom numbers.starts.items rows.now) }
    {
        let mut numbers = Numbers {
            starts: Vec::with_capacity(alloc, rows.len())?,
            own: rising(alloc, args)?,
        };
        let mut next = args;
        for row in rows {
            next = push_row(row.as_slice(), next, &mut numbers)?;
        }
        Ok(numbers)
    }
}

fn rising(alloc: Global, count: u32) -> Result<Vec<u32>, Memory>
    ensures { IfOk result (λ numbers. numbers.items ≡ range_with_len 0 count) }
{
    let mut numbers = Vec::new(alloc);
    for number in 0..count {
        numbers.push(number)?;
    }
    Ok(numbers)
}

fn push_row(row: &[Packed], first: u32, numbers: &mut Numbers) -> Result<u32, Memory>
    ensures starts { IfOk result (λ _. numbers.new.starts.items ≡ numbers.old.starts.items ++ first ∷ []) }
    ensures own { IfOk result (λ _. numbers.new.own.items ≡ numbers.old.own.items ++ owns first row.now) }
    ensures next { IfOk result (λ next. next ≡ next_behind first row.now) }
    ensures room { IfOk result (λ _. first + length row.now < 2 ^ 32) }
{
    if row.len() > (u32::MAX - first) as usize {
        return Err(Memory);
    }
    numbers.starts.push(first)?;
    let next = push_owns(row, first, &mut numbers.own)?;
    Ok(next)
}

fn push_owns(row: &[Packed], first: u32, own: &mut Vec<u32>) -> Result<u32, Memory>
    requires { first + length row.now < 2 ^ 32 }
    ensures own { IfOk result (λ _. own.new.items ≡ own.old.items ++ owns first row.now) }
    ensures next { IfOk result (λ next. next ≡ next_behind first row.now) }
{
    let mut next = first;
    for slot in row {
        next = push_own(slot.slot(), next, own)?;
    }
    Ok(next)
}

fn push_own(slot: Slot, next: u32, own: &mut Vec<u32>) -> Result<u32, Memory>
    requires { next + 1 < 2 ^ 32 }
    ensures own { IfOk result (λ _. own.new.items ≡ own.old.items ++ owns next (slot ∷ [])) }
    ensures next { IfOk result (λ after. after ≡ next_behind next (slot ∷ [])) }
{
    match slot {
        Slot::Own(_) => {
            own.push(next)?;
            Ok(next + 1)
        }
        Slot::Give(_) | Slot::Token => Ok(next + 1),
        Slot::Use(_) | Slot::Number(_) => Ok(next),
    }
}

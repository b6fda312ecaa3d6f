//! The numbers of values behind a group at the front.

ghost use Rattle.std.specs.Prelude.{◌≡◌, ◌+◌, ◌<◌, ◌^◌, ◌++◌, length, slice_set, IfOk};
ghost use Rattle.std.specs.List.{range_with_len};
ghost use Rattle.entry_groups.specs.Entry.{moved, behind_group};

use sp_ids::Memory;
use statepoint_insert::Relocate;
use std::alloc::Global;

/// The numbers of so many arguments and so many other values behind a group with these relocates.
pub(crate) fn behind_group(
    alloc: Global,
    args: usize,
    others: usize,
    relocates: &[Relocate],
) -> Result<Vec<u32>, Memory>
    requires args { args < 2 ^ 30 }
    requires others { others < 2 ^ 30 }
    ensures { IfOk result (λ row. row.items ≡ behind_group args others relocates.now) }
{
    if relocates.len() >= 1 << 30 {
        return Err(Memory);
    }
    let mut row = Vec::with_capacity(alloc, args + others)?;
    push_range(0, args, &mut row)?;
    push_range(args + (relocates.len() + 1), others, &mut row)?;
    move_all(args as u32 + 1, relocates, &mut row);
    Ok(row)
}

fn push_range(first: usize, count: usize, row: &mut Vec<u32>) -> Result<(), Memory>
    requires { first + count < 2 ^ 32 }
    ensures { IfOk result (λ _. row.new.items ≡ row.old.items ++ range_with_len first count) }
{
    for place in 0..count {
        row.push((first + place) as u32)?;
    }
    Ok(())
}

// Each relocate takes the next number.
fn move_all(first: u32, relocates: &[Relocate], row: &mut Vec<u32>)
    requires { first + length relocates.now < 2 ^ 32 }
    ensures { row.new.items ≡ moved first relocates.now row.old.items }
{
    let mut next = first;
    for relocate in relocates {
        put_number(relocate.value.0 as usize, next, row);
        next += 1;
    }
}

fn put_number(place: usize, number: u32, row: &mut Vec<u32>)
    ensures { row.new.items ≡ slice_set row.old.items place number }
{
    if place < row.len() {
        row[place] = number;
    }
}

//! Numbers that are taken one after another.

ghost use Rattle.std.specs.Prelude.{◌≡◌, ◌++◌, take, drop, slice_index, map, IfOk};
ghost use Rattle.ssa_rebuild.specs.Answers.{number_of};

use sp_ids::Memory;
use std::alloc::Global;
use std::marker::Model;
use version_walk::{Packed, Slot};

/// Numbers in the order of the text: the slots of those that are still to be taken. Contracts see the list of the numbers.
#[derive(Drop)]
pub(crate) struct Stream<'a> {
    slots: &'a [Packed],
}

impl<'a> Model for Stream<'a> {
    ghost use Rattle.std.specs.Prelude.{ℕ, List, map};
    ghost use Rattle.ssa_rebuild.specs.Answers.{number_of};

    ghost Value = { List ℕ };

    ghost view = { λ stream. map number_of stream.slots.now };
}

impl<'a> Stream<'a> {
    /// The numbers of all of these slots.
    pub(crate) fn of(slots: &'a [Packed]) -> Stream<'a>
        ensures { result ≡ map number_of slots.now }
    {
        Stream { slots }
    }

    /// The next number, or 0 where all are taken.
    pub(crate) fn first(&self) -> u32
        ensures { result ≡ slice_index self.now 0 }
    {
        match self.slots.first() {
            Some(slot) => number_of(slot.slot()),
            None => 0,
        }
    }

    /// Leaves so many numbers out.
    pub(crate) fn skip(&mut self, count: usize)
        ensures { self.new ≡ drop count self.old }
    {
        let behind = count.min(self.slots.len());
        self.slots = &self.slots[behind..];
    }

    /// Takes so many numbers, or all where fewer are left, in place of those that stood in the list.
    pub(crate) fn next_ones(&mut self, count: usize, taken: &mut Vec<u32>) -> Result<(), Memory>
        ensures taken { IfOk result (λ _. taken.new.items ≡ take count self.old) }
        ensures rest { IfOk result (λ _. self.new ≡ drop count self.old) }
    {
        let behind = count.min(self.slots.len());
        taken.clear();
        push_numbers(&self.slots[..behind], taken)?;
        self.slots = &self.slots[behind..];
        Ok(())
    }
}

fn push_numbers(slots: &[Packed], numbers: &mut Vec<u32>) -> Result<(), Memory>
    ensures { IfOk result (λ _. numbers.new.items ≡ numbers.old.items ++ map number_of slots.now) }
{
    for slot in slots {
        numbers.push(number_of(slot.slot()))?;
    }
    Ok(())
}

/// Answered slots of these numbers.
pub(crate) fn slots_of(alloc: Global, numbers: &[u32]) -> Result<Vec<Packed>, Memory>
    ensures { IfOk result (λ slots. map number_of slots.items ≡ numbers.now) }
{
    let mut slots = Vec::with_capacity(alloc, numbers.len())?;
    for number in numbers {
        slots.push(Packed::of(Slot::Number(*number))?)?;
    }
    Ok(slots)
}

/// The number of an answered slot.
pub(crate) fn number_of(slot: Slot) -> u32
    ensures { result ≡ number_of slot }
{
    match slot {
        Slot::Number(number) => number,
        Slot::Use(_) | Slot::Own(_) | Slot::Give(_) | Slot::Token => 0,
    }
}

//! The version of each value that stands at a place.

ghost use Rattle.std.specs.Prelude.{◌≡◌, ◌<◌, ◌+◌, ◌^◌, length, take, drop, IfOk};
ghost use Rattle.std.specs.Option.{option_to_list};
ghost use Rattle.version_walk.specs.Slots.{given, next_after, current_after, answered, current_behind, taken_back};
ghost use Rattle.version_walk.specs.Versions.{IsLogged};

use crate::lists::{at, put};
use crate::slots::{Packed, Slot};
use sp_ids::{Memory, ValueId};

/// A value, and the number that its version had before a definition.
#[derive(Clone, Copy)]
pub(crate) struct Change {
    pub(crate) value: ValueId,
    pub(crate) number: u32,
}

/// The number of each value's version, and the changes that brought them about.
#[derive(Drop)]
pub(crate) struct Versions {
    pub(crate) current: Vec<u32>,
    pub(crate) log: Vec<Change>,
}

impl Versions {
    /// Answers the slots of a block, of which the first definition has the number `start`.
    pub(crate) fn answer_all(&mut self, row: &mut Vec<Packed>, start: u32) -> Result<(), Memory>
        requires { start + length row.old.items < 2 ^ 32 }
        ensures row { IfOk result (λ _. row.new.items ≡ answered self.old.current.items start row.old.items) }
        ensures current { IfOk result (λ _. self.new.current.items ≡ current_behind self.old.current.items start row.old.items) }
        ensures log { IfOk result (λ _. IsLogged self.old self.new) }
    {
        let mut next = start;
        for place in 0..row.len() {
            let slot = row[place].slot();
            let number = self.answer(slot, next)?;
            row[place] = Packed::of(Slot::Number(number))?;
            next = next_after(slot, next);
        }
        Ok(())
    }

    // The number for a slot; a definition has the number `next`.
    fn answer(&mut self, slot: Slot, next: u32) -> Result<u32, Memory>
        ensures number { IfOk result (λ number. number ≡ given self.old.current.items next slot) }
        ensures current { IfOk result (λ _. self.new.current.items ≡ current_after self.old.current.items next slot) }
        ensures log { IfOk result (λ _. IsLogged self.old self.new) }
    {
        match slot {
            Slot::Use(value) => Ok(at(self.current.as_slice(), value.0 as usize)),
            Slot::Own(value) | Slot::Give(value) => {
                self.give(value, next)?;
                Ok(next)
            }
            Slot::Token => Ok(next),
            Slot::Number(number) => Ok(number),
        }
    }

    fn give(&mut self, value: ValueId, number: u32) -> Result<(), Memory>
        ensures current { IfOk result (λ _. self.new.current.items ≡ current_after self.old.current.items number (Slot.Give value)) }
        ensures log { IfOk result (λ _. IsLogged self.old self.new) }
    {
        let place = value.0 as usize;
        let before = at(self.current.as_slice(), place);
        if before == number {
            return Ok(());
        }
        self.log.push(Change {
            value,
            number: before,
        })?;
        put(place, number, &mut self.current);
        Ok(())
    }

    /// Takes back all changes but the first ones.
    pub(crate) fn take_back(&mut self, count: usize)
        ensures log { self.new.log.items ≡ take count self.old.log.items }
        ensures current { self.new.current.items ≡ taken_back (drop count self.old.log.items) self.old.current.items }
    {
        while self.log.len() > count {
            let last = self.log.pop();
            self.restore(last);
        }
    }

    // Gives a value the number back that it had before a change.
    fn restore(&mut self, last: Option<Change>)
        ensures log { self.new.log ≡ self.old.log }
        ensures current { self.new.current.items ≡ taken_back (option_to_list last) self.old.current.items }
    {
        if let Some(change) = last {
            put(change.value.0 as usize, change.number, &mut self.current);
        }
    }
}

fn next_after(slot: Slot, next: u32) -> u32
    requires { next + 1 < 2 ^ 32 }
    ensures { result ≡ next_after next slot }
{
    match slot {
        Slot::Own(_) | Slot::Give(_) | Slot::Token => next + 1,
        Slot::Use(_) | Slot::Number(_) => next,
    }
}

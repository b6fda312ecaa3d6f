//! What the lines of a block ask of the numbers of values.

ghost use Rattle.std.specs.Prelude.{◌≡◌, ◌<◌, ◌^◌, IfOk};
ghost use Rattle.version_walk.specs.Packed.{of_kind};

use sp_ids::{Memory, ValueId};
use std::marker::Model;

/// A place of a line that has a number, or wants one.
#[derive(Clone, Copy)]
pub enum Slot {
    /// A use of a value.
    Use(ValueId),
    /// The definition of a value.
    Own(ValueId),
    /// A further definition of a value, by an inserted phi or a relocate.
    Give(ValueId),
    /// A definition of a token.
    Token,
    /// The number that was found.
    Number(u32),
}

/// A slot in four bytes. Contracts see the `Slot`.
#[derive(Drop)]
pub struct Packed {
    // The number, and what is asked of it in the lowest bits.
    code: u32,
}

impl Model for Packed {
    ghost use Rattle.version_walk.specs.Packed.{slot_of};
    ghost use Rattle.version_walk.specs.declared.slots.Slot.{Slot};

    ghost Value = { Slot };

    ghost view = { λ packed. slot_of packed.code };
}

impl Packed {
    /// The slot. Where its number isn't below 2^29, it is want of memory.
    pub fn of(slot: Slot) -> Result<Packed, Memory>
        ensures { IfOk result (λ packed. packed ≡ slot) }
    {
        match slot {
            Slot::Use(value) => coded(0, value.0),
            Slot::Own(value) => coded(1, value.0),
            Slot::Give(value) => coded(2, value.0),
            Slot::Token => coded(3, 0),
            Slot::Number(number) => coded(4, number),
        }
    }

    /// The slot that it stands for.
    pub fn slot(&self) -> Slot
        ensures { result ≡ self.now }
    {
        let number = self.code / 8;
        match self.code % 8 {
            0 => Slot::Use(ValueId(number)),
            1 => Slot::Own(ValueId(number)),
            2 => Slot::Give(ValueId(number)),
            3 => Slot::Token,
            _ => Slot::Number(number),
        }
    }
}

fn coded(kind: u32, number: u32) -> Result<Packed, Memory>
    requires { kind < 8 }
    ensures { IfOk result (λ packed. packed ≡ of_kind kind number) }
{
    if number >= 1 << 29 {
        return Err(Memory);
    }
    Ok(Packed {
        code: number * 8 + kind,
    })
}

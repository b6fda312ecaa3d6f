//! What registers and cells hold.

/// An integer, or a managed pointer, in 16 bytes. A pointer is an object by its number, or 0 for none, and an offset
/// modulo 2^64, its bits. Contracts speak of its `datum`.
#[derive(Clone, Copy, Debug, PartialEq, Eq)]
pub struct Word {
    pub is_pointer: bool,
    pub object: u32,
    pub bits: u64,
}

impl Word {
    ghost use Rattle.std.specs.Prelude.{◌≡◌, true, false};
    ghost use Rattle.object_store.specs.Words.{datum};
    ghost use Rattle.object_meaning.specs.Registers.{number_in, pointer_in};

    /// This number.
    pub fn of(number: u64) -> Word
        ensures { result ≡ record { is_pointer = false; object = 0; bits = number } }
    {
        Word {
            is_pointer: false,
            object: 0,
            bits: number,
        }
    }

    /// A pointer to an object, with an offset.
    pub fn to(object: u32, offset: u64) -> Word
        ensures { result ≡ record { is_pointer = true; object = object; bits = offset } }
    {
        Word {
            is_pointer: true,
            object,
            bits: offset,
        }
    }

    /// The number that it is, or 0.
    pub fn number(self) -> u64
        ensures { result ≡ number_in (datum self) }
    {
        if self.is_pointer { 0 } else { self.bits }
    }

    /// The object that it points to, or 0.
    pub fn object(self) -> u32
        ensures { result ≡ (pointer_in (datum self)).object }
    {
        if self.is_pointer { self.object } else { 0 }
    }

    /// The offset in it, or 0.
    pub fn offset(self) -> u64
        ensures { result ≡ (pointer_in (datum self)).offset }
    {
        if self.is_pointer { self.bits } else { 0 }
    }
}

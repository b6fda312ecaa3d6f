//! Bytes that wait for a put.
ghost use Rattle.std.specs.Prelude.{◌≡◌, ℕ, ◌+◌, ◌≤◌, ◌++◌, List, [], length, take};
ghost use Rattle.piece_writer.specs.declared.held.TheConstants.{MOST_HELD};

use std::marker::Model;

/// How many bytes are held at most.
pub(crate) const MOST_HELD: usize = 8_192;

/// Bytes that wait for a put, in a buffer of fixed size. Contracts see their list.
#[derive(Drop)]
pub(crate) struct Held {
    bytes: [u8; MOST_HELD],
    count: usize,
}

impl Model for Held {
    ghost Value = { List ℕ };

    ghost view = { λ held. take held.count held.bytes };

    ghost invariant = { λ held. held.count ≤ MOST_HELD };
}

impl Held {
    /// No bytes.
    pub(crate) fn new() -> Held
        ensures { result ≡ [] }
    {
        Held {
            bytes: [0; MOST_HELD],
            count: 0,
        }
    }

    /// The bytes.
    pub(crate) fn bytes(&self) -> &[u8]
        ensures { result.now ≡ self.now }
    {
        &self.bytes[..self.count]
    }

    /// How many bytes more can be held.
    #[inline(always)]
    pub(crate) fn room(&self) -> usize
        ensures { result + length self.now ≡ MOST_HELD }
    {
        MOST_HELD - self.count
    }

    /// Holds these bytes too.
    #[inline(always)]
    pub(crate) fn add(&mut self, bytes: &[u8])
        requires { length self.old + length bytes.now ≤ MOST_HELD }
        ensures { self.new ≡ self.old ++ bytes.now }
    {
        let end = self.count + bytes.len();
        self.bytes[self.count..end].copy_from_slice(bytes);
        self.count = end;
    }

    /// Holds nothing any more.
    pub(crate) fn clear(&mut self)
        ensures { self.new ≡ [] }
    {
        self.count = 0;
    }
}

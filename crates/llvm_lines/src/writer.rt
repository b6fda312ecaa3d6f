//! Lines that are written word by word, each with the line that it comes from.

use itoa::Buffer;
use sp_ids::Memory;
use sp_ids::limits::FILE_BYTES;
use std::alloc::Global;

/// Lines that were written, and where they come from.
#[derive(Drop)]
pub(crate) struct Writer {
    pub(crate) text: Vec<u8>,
    /// The line that each of them was lifted from.
    pub(crate) origins: Vec<u32>,
    /// The line that is being lifted.
    pub(crate) line: u32,
    /// The first line that changed, or 0.
    pub(crate) changed: u32,
}

impl Writer {
    pub(crate) fn new(alloc: Global) -> Writer {
        Writer {
            text: Vec::new(alloc),
            origins: Vec::new(alloc),
            line: 0,
            changed: 0,
        }
    }

    /// Whether what was written is within the limit.
    pub(crate) fn has_room(&self) -> bool {
        self.text.len() as u64 <= FILE_BYTES
    }

    /// The line that is being lifted changes.
    pub(crate) fn note_change(&mut self) {
        if self.changed == 0 {
            self.changed = self.line;
        }
    }

    /// Puts a word, and a blank behind it.
    pub(crate) fn word(&mut self, word: &[u8]) -> Result<(), Memory> {
        self.text.extend_from_slice(word)?;
        self.text.push(b' ')?;
        Ok(())
    }

    /// Puts bytes as they are.
    pub(crate) fn bytes(&mut self, bytes: &[u8]) -> Result<(), Memory> {
        self.text.extend_from_slice(bytes)?;
        Ok(())
    }

    pub(crate) fn number(&mut self, number: u64) -> Result<(), Memory> {
        let mut room = Buffer::new();
        self.text.extend_from_slice(room.format(number).as_bytes())?;
        Ok(())
    }

    /// Ends the line.
    pub(crate) fn end(&mut self) -> Result<(), Memory> {
        self.text.push(b'\n')?;
        self.origins.push(self.line)?;
        Ok(())
    }
}

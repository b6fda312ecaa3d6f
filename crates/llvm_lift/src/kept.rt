//! A sink that keeps all that is put.
ghost use Rattle.std.specs.Prelude.{◌≡◌, ◌≤◌, Some, None, OnOk, OnErr};
ghost use Rattle.tool_io.specs.Counts.{Rose};
ghost use Rattle.tool_io.specs.Sink.{append_known, AppendsFront};

use std::alloc::Global;
use tool_io::{Failed, Sink};

/// A sink that keeps all that is put, and fails where memory that is wanted can't be had.
#[derive(Drop)]
pub(crate) struct Kept {
    bytes: Vec<u8>,
    faults: u64,
}

impl Kept {
    ghost use Rattle.std.specs.Prelude.{◌≡◌, []};

    pub(crate) fn new(alloc: Global) -> Kept
        ensures { result.bytes.items ≡ [] }
    {
        Kept {
            bytes: Vec::new(alloc),
            faults: 0,
        }
    }

    pub(crate) fn into_bytes(self) -> Vec<u8>
        ensures { result ≡ self.bytes }
    {
        self.bytes
    }
}

impl Sink for Kept {
    ghost written = { λ kept. Some kept.bytes.items };

    ghost puts = { λ _. None };

    ghost faults = { λ kept. kept.faults };

    fn put(&mut self, bytes: &[u8]) -> Result<(), Failed> {
        match self.bytes.extend_from_slice(bytes) {
            Ok(()) => Ok(()),
            Err(_) => {
                self.faults = self.faults.saturating_add(1);
                Err(Failed)
            }
        }
    }
}

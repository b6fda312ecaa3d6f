//! A sink in memory that keeps each piece by itself.
ghost use Rattle.std.specs.Prelude.{◌≡◌, ◌++◌, ◌∷◌, ◌≤◌, [], Some, map, OnOk, OnErr};
ghost use Rattle.std.specs.List.{concat};
ghost use Rattle.tool_io.specs.Counts.{Rose};
ghost use Rattle.tool_io.specs.NotedPieces.{no_pieces};
ghost use Rattle.tool_io.specs.Sink.{append_known, AppendsFront};
ghost use Rattle.tool_io.specs.Told.{add_told};

use crate::{Failed, Sink};
use sp_ids::Memory;
use std::alloc::Global;
use std::marker::Model;

/// A sink in memory that keeps the pieces that were put, each by itself, and tells them. It fails where
/// memory is refused, and then adds nothing.
#[derive(Drop)]
pub struct NotedSink {
    alloc: Global,
    pieces: Vec<Vec<u8>>,
    faults: u64,
}

impl Model for NotedSink {
    ghost use Rattle.std.specs.Prelude.{map};
    ghost use Rattle.tool_io.specs.NotedPieces.{NotedPieces};

    ghost Value = { NotedPieces };

    ghost view = { λ s. record { pieces = map (λ piece. piece.items) s.pieces.items; faults = s.faults } };
}

impl NotedSink {
    /// A sink that nothing was put into.
    pub fn new(alloc: Global) -> NotedSink
        ensures { result ≡ no_pieces }
    {
        NotedSink {
            alloc,
            pieces: Vec::new(alloc),
            faults: 0,
        }
    }

    /// The pieces that were put, in order.
    pub fn pieces(&self) -> &[Vec<u8>]
        ensures { map (λ piece. piece.items) result.now ≡ self.now.pieces }
    {
        &self.pieces
    }

    fn keep(&mut self, bytes: &[u8]) -> Result<(), Memory>
        ensures ok { OnOk result (self.new ≡ record self.old { pieces = self.old.pieces ++ bytes.now ∷ [] }) }
        ensures err { OnErr result (self.new ≡ self.old) }
    {
        self.pieces.push(Vec::from_slice(self.alloc, bytes)?)?;
        Ok(())
    }
}

impl Sink for NotedSink {
    ghost written = { λ sink. Some (concat sink.pieces) };

    ghost puts = { λ sink. Some sink.pieces };

    ghost faults = { λ sink. sink.faults };

    fn put(&mut self, bytes: &[u8]) -> Result<(), Failed>
        ensures count { self.old.faults ≤ self.new.faults }
        ensures ok { OnOk result (Some (concat self.new.pieces) ≡ append_known (Some (concat self.old.pieces)) bytes.now) }
        ensures err { OnErr result (AppendsFront (Some (concat self.old.pieces)) (Some (concat self.new.pieces)) bytes.now) }
        ensures failed { OnErr result (Rose self.old.faults self.new.faults) }
        ensures noted { OnOk result (Some self.new.pieces ≡ add_told (Some self.old.pieces) bytes.now) }
        ensures unnoted { OnErr result (Some self.new.pieces ≡ Some self.old.pieces) }
    {
        match self.keep(bytes) {
            Ok(()) => Ok(()),
            Err(Memory) => {
                self.faults = self.faults.saturating_add(1);
                Err(Failed)
            }
        }
    }
}

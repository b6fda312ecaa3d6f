//! A sink in memory that keeps its bytes and fails where it was told to.
ghost use Rattle.std.specs.Prelude.{◌≡◌, ◌++◌, ◌∷◌, ◌↔◌, ◌≤◌, [], Some, None, IfOk, OnOk, OnErr, IsErr, IsSome, IsNone};
ghost use Rattle.tool_io.specs.Counts.{Rose};
ghost use Rattle.tool_io.specs.Sink.{append_known, AppendsFront};
ghost use Rattle.tool_io.specs.SinkInMemory.{adds_of, cut_of, after_put};

use crate::{Failed, Sink};
use sp_ids::Memory;
use std::alloc::Global;
use std::marker::Model;

// A call that is to fail, by its number, and how many bytes of its piece it still adds.
#[derive(Clone, Copy)]
pub(crate) struct FailingPut {
    call: u64,
    adds: usize,
}

/// A sink in memory that keeps its bytes, and fails where it was told to.
#[derive(Drop)]
pub struct MemSink {
    bytes: Vec<u8>,
    room: usize,
    failing: Vec<FailingPut>,
    calls: u64,
    faults: u64,
}

impl Model for MemSink {
    ghost use Rattle.std.specs.Prelude.{◌≤◌, vec_len, vec_capacity};
    ghost use Rattle.tool_io.specs.SinkInMemory.{SinkInMemory};

    ghost Value = { SinkInMemory };

    ghost view = { λ s. record { bytes = s.bytes.items; room = s.room; failing = s.failing.items; calls = s.calls; faults = s.faults } };

    ghost invariant = { λ s. (vec_len s.bytes ≤ s.room) × (s.room ≤ vec_capacity s.bytes) };
}

impl MemSink {
    ghost use Rattle.tool_io.specs.SinkInMemory.{adds_of, empty_sink};

    /// A sink that may hold `room` bytes, for which memory is taken here. No call on it is to fail.
    pub fn new(alloc: Global, room: usize) -> Result<MemSink, Memory>
        ensures { IfOk result (λ sink. sink ≡ empty_sink room) }
    {
        Ok(MemSink {
            bytes: Vec::with_capacity(alloc, room)?,
            room,
            failing: Vec::new(alloc),
            calls: 0,
            faults: 0,
        })
    }

    /// Lets the call of this number fail, where calls are numbered from 1. Where its piece fits in
    /// the room it still adds the first `adds` bytes, or all of a shorter piece.
    pub fn fail_put(&mut self, call: u64, adds: usize) -> Result<(), Memory>
        requires unnamed { IsNone (adds_of self.old.failing call) }
        ensures ok { OnOk result (self.new ≡ record self.old { failing = self.old.failing ++ record { call = call; adds = adds } ∷ [] }) }
        ensures err { OnErr result (self.new ≡ self.old) }
    {
        self.failing.push(FailingPut { call, adds })?;
        Ok(())
    }

    /// The bytes that were added so far.
    pub fn bytes(&self) -> &[u8]
        ensures { result.now ≡ self.now.bytes }
    {
        &self.bytes
    }
}

// How many bytes the call of this number still adds, where it is to fail.
fn adds(failing: &[FailingPut], call: u64) -> Option<usize>
    ensures { result ≡ adds_of failing.now call }
{
    failing
        .iter()
        .find(|put| put.call == call)
        .map(|put| put.adds)
}

impl Sink for MemSink {
    ghost written = { λ sink. Some sink.bytes };

    ghost puts = { λ _. None };

    ghost faults = { λ sink. sink.faults };

    fn put(&mut self, bytes: &[u8]) -> Result<(), Failed>
        ensures fails { IsErr result ↔ IsSome (cut_of self.old bytes.now) }
        ensures after { self.new ≡ after_put self.old bytes.now }
        ensures count { self.old.faults ≤ self.new.faults }
        ensures ok { OnOk result (Some self.new.bytes ≡ append_known (Some self.old.bytes) bytes.now) }
        ensures err { OnErr result (AppendsFront (Some self.old.bytes) (Some self.new.bytes) bytes.now) }
        ensures failed { OnErr result (Rose self.old.faults self.new.faults) }
    {
        self.calls = self.calls.saturating_add(1);
        let cut = if self.room - self.bytes.len() < bytes.len() {
            Some(0)
        } else {
            adds(&self.failing, self.calls)
        };
        match cut {
            None => {
                self.bytes.extend_from_slice(bytes).unwrap();
                Ok(())
            }
            Some(count) => {
                let front = &bytes[..count.min(bytes.len())];
                self.bytes.extend_from_slice(front).unwrap();
                self.faults = self.faults.saturating_add(1);
                Err(Failed)
            }
        }
    }
}

//! Standard output and standard error as sinks.
ghost use Rattle.std.specs.Prelude.{◌≡◌, ◌≤◌, None, OnOk, OnErr};
ghost use Rattle.std.specs.Io.KnownBytes.{Appends};
ghost use Rattle.tool_io.specs.Counts.{raised, Rose};
ghost use Rattle.tool_io.specs.Sink.{WritesFront};

use crate::{Failed, Sink};
use std::io;
use std::io::{Printer, Write};
use std::marker::Model;

/// Standard output as a sink. It tells no bytes.
#[derive(Drop)]
pub struct OutSink<W: Write> {
    to: W,
    faults: u64,
}

/// Standard error as a sink. It tells no bytes.
#[derive(Drop)]
pub struct NoteSink<W: Write> {
    to: W,
    faults: u64,
}

impl<W: Write> Model for OutSink<W> {
    ghost use Rattle.tool_io.specs.Adapters.{CountedWriter};

    ghost Value = { CountedWriter };

    ghost view = { λ sink. record { known = W.contents sink.to; faults = sink.faults } };
}

impl<W: Write> Model for NoteSink<W> {
    ghost use Rattle.tool_io.specs.Adapters.{CountedWriter};

    ghost Value = { CountedWriter };

    ghost view = { λ sink. record { known = W.contents sink.to; faults = sink.faults } };
}

impl<'a, P: Print> OutSink<Printer<'a, P>> {
    /// The standard output of this runtime. No call was made on it.
    pub fn new(rt: &'a P) -> OutSink<Printer<'a, P>>
        ensures { result ≡ record { known = None; faults = 0 } }
    {
        OutSink {
            to: io::writer(rt),
            faults: 0,
        }
    }
}

impl<W: Write> NoteSink<W> {
    /// Standard error, as `rt.stderr()` gives it. No call was made on it.
    pub fn new(to: W) -> NoteSink<W>
        ensures { result ≡ record { known = W.contents to; faults = 0 } }
    {
        NoteSink { to, faults: 0 }
    }
}

impl<W: Write> Sink for OutSink<W> {
    ghost written = { λ _. None };

    ghost puts = { λ _. None };

    ghost faults = { λ sink. sink.faults };

    fn put(&mut self, bytes: &[u8]) -> Result<(), Failed>
        ensures count { self.old.faults ≤ self.new.faults }
        ensures steady { OnOk result (self.new.faults ≡ self.old.faults) }
        ensures whole { OnOk result (Appends self.old.known self.new.known bytes.now) }
        ensures front { OnErr result (WritesFront self.old.known self.new.known bytes.now) }
        ensures failed { OnErr result (Rose self.old.faults self.new.faults) }
    {
        put_counted(&mut self.to, &mut self.faults, bytes)
    }
}

impl<W: Write> Sink for NoteSink<W> {
    ghost written = { λ _. None };

    ghost puts = { λ _. None };

    ghost faults = { λ sink. sink.faults };

    fn put(&mut self, bytes: &[u8]) -> Result<(), Failed>
        ensures count { self.old.faults ≤ self.new.faults }
        ensures steady { OnOk result (self.new.faults ≡ self.old.faults) }
        ensures whole { OnOk result (Appends self.old.known self.new.known bytes.now) }
        ensures front { OnErr result (WritesFront self.old.known self.new.known bytes.now) }
        ensures failed { OnErr result (Rose self.old.faults self.new.faults) }
    {
        put_counted(&mut self.to, &mut self.faults, bytes)
    }
}

// Writes all of the bytes, and counts where that fails.
fn put_counted<W: Write>(to: &mut W, faults: &mut u64, bytes: &[u8]) -> Result<(), Failed>
    ensures count { faults.old ≤ faults.new }
    ensures steady { OnOk result (faults.new ≡ faults.old) }
    ensures counted { OnErr result (faults.new ≡ raised faults.old) }
    ensures whole { OnOk result (Appends (W.contents to.old) (W.contents to.new) bytes.now) }
    ensures front { OnErr result (WritesFront (W.contents to.old) (W.contents to.new) bytes.now) }
{
    let written = write_whole(to, bytes);
    if written.is_err() {
        *faults = faults.saturating_add(1);
    }
    written
}

// Writes all of the bytes, whatever part of them a write takes. A write that takes none fails.
fn write_whole<W: Write>(to: &mut W, bytes: &[u8]) -> Result<(), Failed>
    ensures whole { OnOk result (Appends (W.contents to.old) (W.contents to.new) bytes.now) }
    ensures front { OnErr result (WritesFront (W.contents to.old) (W.contents to.new) bytes.now) }
{
    let mut rest = bytes;
    while !rest.is_empty() {
        match to.write(rest) {
            Ok(0) | Err(_) => return Err(Failed),
            Ok(count) => rest = &rest[count..],
        }
    }
    Ok(())
}

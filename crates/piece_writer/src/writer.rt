//! A writer that gathers pieces.
ghost use Rattle.std.specs.Prelude.{◌≡◌, ◌++◌, [], true, false, OnOk, OnErr};
ghost use Rattle.std.proofs.Common.{◌∙◌, refl};
ghost use Rattle.tool_io.specs.Told.{add_told};
ghost use Rattle.piece_writer.specs.Writing.{writing, ended, IsInto, Grew, Fell, Adds, Takes, Falls, Fails};
ghost use Rattle.piece_writer.specs.WritingLaws.{Grew-nothing, Grew-both, Fell-first, Fell-second, LackRoom-first, LackRoom-second, Waits-nothing, Waits-both};

use crate::PieceSink;
use crate::held::Held;
use tool_io::{Failed, Sink};

/// A writer that gathers the pieces of a text in a buffer of fixed size, and puts them into a sink
/// together. A piece that is longer than the buffer is put whole. After a failed put nothing more is
/// put. `finish` ends the text.
#[derive(Drop)]
pub struct PieceWriter<'a, S> {
    out: &'a mut S,
    held: Held,
    failed: bool,
}

impl<'a, S: Sink> PieceWriter<'a, S> {
    /// A writer into this sink, which holds nothing.
    pub fn new(out: &'a mut S) -> PieceWriter<'a, S>
        ensures into { IsInto out.entry result }
        ensures fresh { writing S.written S.faults result ≡ ended (S.written out.old) (S.faults out.old) false }
        ensures unput { S.puts result.out.now ≡ S.puts out.old }
    {
        PieceWriter {
            out,
            held: Held::new(),
            failed: false,
        }
    }

    // Puts the bytes that are held.
    fn put_held(&mut self) -> Result<(), Failed>
        requires { self.old.failed ≡ false }
        ensures ok { OnOk result (Adds S.written S.faults self.old self.new []) }
        ensures empty { OnOk result (self.new.held ≡ []) }
        ensures err { OnErr result (Falls S.written S.faults self.old self.new []) }
    {
        self.failed = true;
        self.out.put(self.held.bytes())?;
        self.held.clear();
        self.failed = false;
        Ok(())
    }

    // Puts the bytes that are held, and then holds these or puts them. It is called once for a whole buffer, so that the way on
    // which bytes are held stays short. That a put failed is found here: until then, what is held after it is put nowhere.
    #[cold]
    #[inline(never)]
    fn put_past(&mut self, bytes: &[u8]) -> Result<(), Failed>
        ensures ok { OnOk result (Adds S.written S.faults self.old self.new bytes.now) }
        ensures err { OnErr result (Falls S.written S.faults self.old self.new bytes.now) }
    {
        if self.failed {
            return Err(Failed);
        }
        self.put_held()?;
        if bytes.len() <= self.held.room() {
            self.held.add(bytes);
            return Ok(());
        }
        self.put_now(bytes)
    }

    // Holds these bytes, or puts what is held first.
    #[inline(always)]
    fn hold(&mut self, bytes: &[u8]) -> Result<(), Failed>
        ensures ok { OnOk result (Takes S.written S.puts S.faults self.old self.new bytes.now) }
        ensures err { OnErr result (Fails S.written S.faults self.old self.new bytes.now) }
    {
        if bytes.len() <= self.held.room() {
            self.held.add(bytes);
            return Ok(());
        }
        self.put_past(bytes)
    }

    // Holds two texts that have no room together, each on its own.
    #[cold]
    #[inline(never)]
    fn hold_each(&mut self, first: &[u8], second: &[u8]) -> Result<(), Failed>
        ensures ok { OnOk result (Takes S.written S.puts S.faults self.old self.new (first.now ++ second.now)) }
        ensures err { OnErr result (Fails S.written S.faults self.old self.new (first.now ++ second.now)) }
    {
        self.hold(first)?;
        self.hold(second)
    }

    // Puts these bytes, where none is held.
    fn put_now(&mut self, bytes: &[u8]) -> Result<(), Failed>
        requires sound { self.old.failed ≡ false }
        requires empty { self.old.held ≡ [] }
        ensures ok { OnOk result (Adds S.written S.faults self.old self.new bytes.now) }
        ensures err { OnErr result (Falls S.written S.faults self.old self.new bytes.now) }
    {
        self.failed = true;
        self.out.put(bytes)?;
        self.failed = false;
        Ok(())
    }

    /// Puts what is held, by one call, unless a put failed before.
    pub fn finish(self) -> Result<(), Failed>
        ensures ok { OnOk result (Grew (writing S.written S.faults self.entry) (ended (S.written self.exit.0.now) (S.faults self.exit.0.now) false) []) }
        ensures err { OnErr result (Fell (writing S.written S.faults self.entry) (ended (S.written self.exit.0.now) (S.faults self.exit.0.now) true) []) }
        ensures once { OnOk result (S.puts self.exit.0.now ≡ add_told (S.puts self.entry.out.now) self.entry.held) }
        ensures unput { OnErr result (S.puts self.exit.0.now ≡ S.puts self.entry.out.now) }
    {
        let PieceWriter { out, held, failed } = self;
        if failed {
            Err(Failed)
        } else {
            out.put(held.bytes())
        }
    }
}

impl<S: Sink> PieceSink for PieceWriter<'_, S> {
    ghost took = { Takes S.written S.puts S.faults };

    ghost failed_within = { Fails S.written S.faults };

    ghost took_nothing = { λ now. (refl, Grew-nothing (writing S.written S.faults now), Waits-nothing now.held (S.puts now.out.now)) };

    ghost took_both = { λ old mid new first second one two. (two.0 ∙ one.0, Grew-both _ _ _ first second one.1 two.1, Waits-both _ _ _ _ first second one.2 _ _ two.2) };

    ghost failed_in_first = { λ old new first second failed. (failed.0, Fell-first _ _ first second failed.1, LackRoom-first old.held first second failed.2) };

    ghost failed_in_second = { λ old mid new first second one failed. (failed.0 ∙ one.0, Fell-second _ _ _ first second one.1 failed.1, LackRoom-second _ _ _ _ first second one.2 failed.2) };

    #[inline(always)]
    fn put(&mut self, bytes: &[u8]) -> Result<(), Failed> {
        self.hold(bytes)
    }

    #[inline(always)]
    fn put_both(&mut self, first: &[u8], second: &[u8]) -> Result<(), Failed> {
        let room = self.held.room();
        if first.len() <= room && second.len() <= room - first.len() {
            self.held.add(first);
            self.held.add(second);
            return Ok(());
        }
        self.hold_each(first, second)
    }
}

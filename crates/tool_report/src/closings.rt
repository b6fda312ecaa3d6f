//! The line that closes a run.
ghost use Rattle.std.specs.Prelude.{◌≡◌, ◌≤◌, ◌++◌, length, OnOk, OnErr};
ghost use Rattle.tool_io.specs.Counts.{Rose};
ghost use Rattle.tool_io.specs.Sink.{append_known, AppendsFront};
ghost use Rattle.tool_io.specs.Told.{add_told};
ghost use Rattle.tool_report.specs.Closings.{closing_line, counts, end_words, in_function, trap_name};

use crate::numbers::SignedDecimal;
use piece_writer::{Bytes, Decimal, Piece, PieceSink, put_text};
use sp_ids::{End, Trap};
use tool_io::{Failed, Sink};

/// Puts the line that closes a run which ended so after these steps and events. The function's name is
/// shown at a trap, poison and a lost frame. After `Failed`, which comes only where the sink's count of
/// faults rose, a front of the line was added. A line of at most 8,192 bytes is put by one call.
pub fn closing<O: Sink>(
    end: End,
    func: &[u8],
    steps: u64,
    events: u64,
    out: &mut O,
) -> Result<(), Failed>
    ensures ok { OnOk result (O.written out.new ≡ append_known (O.written out.old) (closing_line end func.now steps events)) }
    ensures err { OnErr result (AppendsFront (O.written out.old) (O.written out.new) (closing_line end func.now steps events)) }
    ensures failed { OnErr result (Rose (O.faults out.old) (O.faults out.new)) }
    ensures count { O.faults out.old ≤ O.faults out.new }
    ensures by_one_put { length (closing_line end func.now steps events) ≤ 8192 → OnOk result (O.puts out.new ≡ add_told (O.puts out.old) (closing_line end func.now steps events)) }
    ensures unput { length (closing_line end func.now steps events) ≤ 8192 → OnErr result (O.puts out.new ≡ O.puts out.old) }
{
    put_text(&(EndWords { end, func }, Counts { steps, events }), out)
}

// How a run ended.
#[derive(Clone, Copy)]
struct EndWords<'a> {
    end: End,
    func: &'a [u8],
}

impl Piece for EndWords<'_> {
    ghost text = { λ piece. end_words piece.end piece.func.now };

    fn put_into<W: PieceSink>(&self, out: &mut W) -> Result<(), Failed> {
        let place = InFunction(self.func);
        match self.end {
            End::Return(number) => (Bytes(b"= return "), SignedDecimal(number)).put_into(out),
            End::Trap(trap) => { (Bytes(b"= trap "), Bytes(trap_name(trap)), place).put_into(out) }
            End::OutOfSteps => out.put(b"= out of steps"),
            End::Poison => (Bytes(b"= poison"), place).put_into(out),
            End::LostFrame => (Bytes(b"= lost frame"), place).put_into(out),
        }
    }
}

// The function that ran last.
#[derive(Clone, Copy)]
struct InFunction<'a>(&'a [u8]);

impl Piece for InFunction<'_> {
    ghost text = { λ piece. in_function piece.0.now };

    fn put_into<W: PieceSink>(&self, out: &mut W) -> Result<(), Failed> {
        (Bytes(b" in @"), Bytes(self.0)).put_into(out)
    }
}

// The steps and events so far.
#[derive(Clone, Copy)]
struct Counts {
    steps: u64,
    events: u64,
}

impl Piece for Counts {
    ghost text = { λ piece. counts piece.steps piece.events };

    fn put_into<W: PieceSink>(&self, out: &mut W) -> Result<(), Failed> {
        (
            Bytes(b" steps "),
            Decimal(self.steps),
            Bytes(b" events "),
            Decimal(self.events),
            Bytes(b"\n"),
        )
            .put_into(out)
    }
}

fn trap_name(trap: Trap) -> &'static [u8]
    ensures { result.now ≡ trap_name trap }
{
    match trap {
        Trap::Div => b"div",
        Trap::Overflow => b"overflow",
        Trap::Shift => b"shift",
        Trap::Unreachable => b"unreachable",
        Trap::Null => b"null",
        Trap::Bounds => b"bounds",
        Trap::Kind => b"kind",
        Trap::Count => b"count",
        Trap::Full => b"full",
        Trap::Input => b"input",
        Trap::Depth => b"depth",
        Trap::Tasks => b"tasks",
    }
}

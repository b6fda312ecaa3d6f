//! What is said on standard error where the work doesn't come to its end.
ghost use Rattle.std.specs.Prelude.{◌≡◌, ◌≤◌, ◌++◌, codes, decimal, length, OnOk, OnErr};
ghost use Rattle.tool_io.specs.Counts.{Rose};
ghost use Rattle.tool_io.specs.Sink.{append_known, AppendsFront};
ghost use Rattle.tool_io.specs.Told.{add_told};
ghost use Rattle.tool_report.specs.Notes.{note_text};

use crate::names::{check_name, map_name, module_name, plan_name};
use piece_writer::{Bytes, Decimal, Piece, PieceSink, put_text};
use tool_io::{Failed, Sink};

/// A refusal, as standard error tells it.
#[derive(Clone, Copy, Debug)]
pub enum Note<'a> {
    /// A fault of a module's text: its line, and its code.
    Module { line: u32, code: u8 },
    /// The words give no command.
    Usage,
    /// The file could not be read.
    ReadFault { file: &'a [u8] },
    /// Standard output failed.
    WriteFault,
    /// Memory was wanted and could not be had.
    Memory,
    /// A fault of a plan's text: its line, and its code.
    Plan { line: u32, code: u8 },
    /// The line at which an input goes wrong.
    Input { line: u32 },
    /// A fault that the verifier found: its line, and its code.
    Check { line: u32, code: u8 },
    /// A fault of a stack map's bytes: its position, and its code.
    Map { at: u64, code: u8 },
    /// The file is longer than the limit.
    TooLong { file: &'a [u8] },
}

/// Puts the line of a refusal. After `Failed`, which comes only where the sink's count of faults rose, a
/// front of the line was added. A line of at most 8,192 bytes is put by one call.
pub fn note_line<O: Sink>(note: Note<'_>, notes: &mut O) -> Result<(), Failed>
    ensures ok { OnOk result (O.written notes.new ≡ append_known (O.written notes.old) (note_text note.entry)) }
    ensures err { OnErr result (AppendsFront (O.written notes.old) (O.written notes.new) (note_text note.entry)) }
    ensures failed { OnErr result (Rose (O.faults notes.old) (O.faults notes.new)) }
    ensures count { O.faults notes.old ≤ O.faults notes.new }
    ensures by_one_put { length (note_text note.entry) ≤ 8192 → OnOk result (O.puts notes.new ≡ add_told (O.puts notes.old) (note_text note.entry)) }
    ensures unput { length (note_text note.entry) ≤ 8192 → OnErr result (O.puts notes.new ≡ O.puts notes.old) }
{
    put_text(&Line(note), notes)
}

// The line of a refusal.
#[derive(Clone, Copy)]
struct Line<'a>(Note<'a>);

impl Piece for Line<'_> {
    ghost text = { λ piece. note_text piece.0 };

    fn put_into<W: PieceSink>(&self, out: &mut W) -> Result<(), Failed> {
        match self.0 {
            Note::Module { line, code } => {
                let wrong = Coded(code, module_name(code));
                (Bytes(b"module line "), Decimal(u64::from(line)), wrong).put_into(out)
            }
            Note::Usage => out.put(b"usage: statepoint COMMAND WORDS\n"),
            Note::ReadFault { file } => (
                Bytes(b"read fault: "),
                Bytes(file),
                Bytes(b"\n"),
            ).put_into(out),
            Note::WriteFault => out.put(b"write fault\n"),
            Note::Memory => out.put(b"out of memory\n"),
            Note::Plan { line, code } => {
                let wrong = Coded(code, plan_name(code));
                (Bytes(b"plan line "), Decimal(u64::from(line)), wrong).put_into(out)
            }
            Note::Input { line } => {
                (
                    Bytes(b"input line "),
                    Decimal(u64::from(line)),
                    Bytes(b"\n"),
                )
                    .put_into(out)
            }
            Note::Check { line, code } => {
                let wrong = Coded(code, check_name(code));
                (Bytes(b"check line "), Decimal(u64::from(line)), wrong).put_into(out)
            }
            Note::Map { at, code } => {
                let wrong = Coded(code, map_name(code));
                (Bytes(b"map byte "), Decimal(at), wrong).put_into(out)
            }
            Note::TooLong { file } => (Bytes(b"too long: "), Bytes(file), Bytes(b"\n")).put_into(
                out,
            ),
        }
    }
}

// A code, and the name of the fault.
#[derive(Clone, Copy)]
struct Coded<'a>(u8, &'a [u8]);

impl Piece for Coded<'_> {
    ghost text = { λ piece. codes ": " ++ (decimal piece.0 ++ (codes " " ++ (piece.1.now ++ codes "\n"))) };

    fn put_into<W: PieceSink>(&self, out: &mut W) -> Result<(), Failed> {
        (
            Bytes(b": "),
            Decimal(u64::from(self.0)),
            Bytes(b" "),
            Bytes(self.1),
            Bytes(b"\n"),
        )
            .put_into(out)
    }
}

//! The lines of frames that wait.

ghost use Rattle.std.specs.Prelude.{◌≡◌, ◌≤◌, reverse, OnOk, OnErr};
ghost use Rattle.tool_io.specs.Counts.{Rose};
ghost use Rattle.std.specs.List.{All};
ghost use Rattle.tool_io.specs.Sink.{append_known, AppendsFront};
ghost use Rattle.piece_writer.specs.LinePuts.{IsShort, PutsFirst, PutsLines, told_by};
ghost use Rattle.waiting_frames.specs.Frames.{frames_below, exit_frame};
ghost use Rattle.waiting_frames.specs.Shown.{frame_lines, frame_text, frames_lines, frames_text, bundle_text};

use crate::bundles::{bundle_at, name_of};
use crate::frames::{Saved, Spot};
use crate::shown::Entries;
use flat_code::Code;
use ir_ast::{Operand, Ty};
use object_store::Word;
use piece_writer::{Bytes, Decimal, Each, Led, Piece, PieceSink, put_text};
use tool_io::{Failed, Sink};

/// Puts what the frames that wait show at a trap: for each whose call has a bundle a line with its number, from 1 for the newest, its
/// function and the values of the bundle, each by its type. They stand oldest first, and these are
/// their registers. It takes no memory.
///
/// After `Failed`, which comes only where the sink's count of faults rose, a front of the lines was added. Where none has more than
/// 8,192 bytes, each is put by one call.
pub fn show_frames<O: Sink>(
    code: &Code,
    saved: &[Saved],
    registers: &[Word],
    out: &mut O,
) -> Result<(), Failed>
    ensures ok { OnOk result (O.written out.new ≡ append_known (O.written out.old) (frames_text code.now 1 (frames_below (reverse saved.now) registers.now))) }
    ensures err { OnErr result (AppendsFront (O.written out.old) (O.written out.new) (frames_text code.now 1 (frames_below (reverse saved.now) registers.now))) }
    ensures by_one_put { All IsShort (frames_lines code.now 1 (frames_below (reverse saved.now) registers.now)) → OnOk result (PutsLines (told_by O.written O.puts out.old) (told_by O.written O.puts out.new) (frames_lines code.now 1 (frames_below (reverse saved.now) registers.now))) }
    ensures cut { All IsShort (frames_lines code.now 1 (frames_below (reverse saved.now) registers.now)) → OnErr result (PutsFirst (told_by O.written O.puts out.old) (told_by O.written O.puts out.new) (frames_lines code.now 1 (frames_below (reverse saved.now) registers.now))) }
    ensures failed { OnErr result (Rose (O.faults out.old) (O.faults out.new)) }
    ensures count { O.faults out.old ≤ O.faults out.new }
{
    let mut left = registers;
    for place in 0..saved.len() {
        let frame = saved[saved.len() - 1 - place];
        let at = (frame.base as usize).min(left.len());
        let (below, own) = left.split_at(at);
        show_frame(code, place as u64 + 1, frame.spot, own, out)?;
        left = below;
    }
    Ok(())
}

// Puts the line of a frame with this number and these registers, where its call has a bundle.
fn show_frame<O: Sink>(
    code: &Code,
    number: u64,
    spot: Spot,
    registers: &[Word],
    out: &mut O,
) -> Result<(), Failed>
    ensures ok { OnOk result (O.written out.new ≡ append_known (O.written out.old) (frame_text code.now number (exit_frame code.now (record { spot = spot; registers = registers.now })))) }
    ensures err { OnErr result (AppendsFront (O.written out.old) (O.written out.new) (frame_text code.now number (exit_frame code.now (record { spot = spot; registers = registers.now })))) }
    ensures by_one_put { All IsShort (frame_lines code.now number (exit_frame code.now (record { spot = spot; registers = registers.now }))) → OnOk result (PutsLines (told_by O.written O.puts out.old) (told_by O.written O.puts out.new) (frame_lines code.now number (exit_frame code.now (record { spot = spot; registers = registers.now })))) }
    ensures cut { All IsShort (frame_lines code.now number (exit_frame code.now (record { spot = spot; registers = registers.now }))) → OnErr result (PutsFirst (told_by O.written O.puts out.old) (told_by O.written O.puts out.new) (frame_lines code.now number (exit_frame code.now (record { spot = spot; registers = registers.now })))) }
    ensures failed { OnErr result (Rose (O.faults out.old) (O.faults out.new)) }
    ensures count { O.faults out.old ≤ O.faults out.new }
{
    let bundle = bundle_at(code, spot);
    if bundle.is_empty() {
        return Ok(());
    }
    let line = BundleLine {
        number,
        name: name_of(code, spot.func),
        registers,
        bundle,
    };
    put_text(&line, out)
}

// The line of a frame of a function with this name, whose call has this bundle.
#[derive(Clone, Copy)]
struct BundleLine<'a> {
    number: u64,
    name: &'a [u8],
    registers: &'a [Word],
    bundle: &'a [(Ty, Operand)],
}

impl Piece for BundleLine<'_> {
    ghost text = { λ line. bundle_text line.number line.name.now line.registers.now line.bundle.now };

    fn put_into<W: PieceSink>(&self, out: &mut W) -> Result<(), Failed> {
        let values = Led {
            separator: b" ",
            row: Each {
                printer: Entries {
                    registers: self.registers,
                },
                elements: self.bundle,
            },
        };
        (
            Bytes(b"! "),
            Decimal(self.number),
            Bytes(b" @"),
            Bytes(self.name),
            values,
            Bytes(b"\n"),
        )
            .put_into(out)
    }
}

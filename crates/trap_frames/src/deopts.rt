//! The line of a frame that waits where a run traps.
ghost use Rattle.std.specs.Prelude.{◌≡◌, ◌≤◌, length, OnOk, OnErr};
ghost use Rattle.tool_io.specs.Counts.{Rose};
ghost use Rattle.tool_io.specs.Sink.{append_known, AppendsFront};
ghost use Rattle.tool_io.specs.Told.{add_told};
ghost use Rattle.trap_frames.specs.DeoptLines.{deopt_line, shown_text};

use itoa::Buffer;
use piece_writer::{Bytes, Decimal, Each, Led, Piece, PieceSink, Printer, put_text};
use sp_ids::ObjId;
use tool_io::{Failed, Sink};

/// What is shown of a value: a number, or how far behind the front of an object it points.
#[derive(Clone, Copy, Debug, PartialEq, Eq)]
pub enum Shown {
    Number(i64),
    Inside { obj: ObjId, offset: u64 },
}

impl Piece for Shown {
    ghost text = { shown_text };

    fn put_into<W: PieceSink>(&self, out: &mut W) -> Result<(), Failed> {
        match *self {
            Shown::Number(number) => {
                let mut buffer = Buffer::new();
                out.put(buffer.format(number).as_bytes())
            }
            Shown::Inside { obj, offset } => {
                (Decimal(obj.0), Bytes(b"+"), Decimal(offset)).put_into(out)
            }
        }
    }
}

/// Puts the line of a frame that waits, by its number, from 1 for the caller of the running one, with its function's name and
/// the values that its call carries. After `Failed`, which comes only where the sink's count of faults rose, a front of the
/// line was added. A line of at most 8,192 bytes is put by one call, also where that call fails.
#[tactic(auto, unfolding(crate::specs::DeoptLines::deopt_line))]
pub fn deopt_line<O: Sink>(
    frame: u32,
    func: &[u8],
    values: &[Shown],
    out: &mut O,
) -> Result<(), Failed>
    ensures ok { OnOk result (O.written out.new ≡ append_known (O.written out.old) (deopt_line frame func.now values.now)) }
    ensures err { OnErr result (AppendsFront (O.written out.old) (O.written out.new) (deopt_line frame func.now values.now)) }
    ensures failed { OnErr result (Rose (O.faults out.old) (O.faults out.new)) }
    ensures count { O.faults out.old ≤ O.faults out.new }
    ensures by_one_put { length (deopt_line frame func.now values.now) ≤ 8192 → OnOk result (O.puts out.new ≡ add_told (O.puts out.old) (deopt_line frame func.now values.now)) }
    ensures unput { length (deopt_line frame func.now values.now) ≤ 8192 → OnErr result (O.puts out.new ≡ O.puts out.old) }
{
    let values = Led {
        separator: b" ",
        row: Each {
            printer: ShownPrinter,
            elements: values,
        },
    };
    put_text(
        &(
            Bytes(b"! "),
            Decimal(u64::from(frame)),
            Bytes(b" @"),
            Bytes(func),
            values,
            Bytes(b"\n"),
        ),
        out,
    )
}

// Puts what is shown of a value.
#[derive(Clone, Copy)]
struct ShownPrinter;

impl Printer<Shown> for ShownPrinter {
    ghost element_text = { λ printer. shown_text };

    fn put_element<W: PieceSink>(&self, element: &Shown, out: &mut W) -> Result<(), Failed> {
        element.put_into(out)
    }
}

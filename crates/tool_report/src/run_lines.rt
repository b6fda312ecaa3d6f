//! The lines of a run's trace, and those that tell where its objects stand in the end.
ghost use Rattle.std.specs.Prelude.{◌≡◌, ◌≤◌, ◌+◌, ◌++◌, length, codes, decimal, OnOk, OnErr};
ghost use Rattle.tool_io.specs.Counts.{Rose};
ghost use Rattle.tool_io.specs.Sink.{append_known, AppendsFront};
ghost use Rattle.tool_io.specs.Told.{add_told};
ghost use Rattle.tool_report.specs.RunLines.{event_kind, event_line, moved_line, place_line, slot_line, verdict_name};

use arrayvec::ArrayVec;
use itoa::Buffer;
use moving_heap::Verdict;
use piece_writer::{Bytes, Decimal, put_text};
use sp_ids::{ObjId, TaskId};
use tool_io::{Failed, Sink};

/// Puts the line of an event, a poll or a new object, with the verdict on its group of moves. After `Failed`, which comes only
/// where the sink's count of faults rose, a front of the line was added. The line is put by one call.
pub fn event_line<O: Sink>(
    event: u64,
    poll: bool,
    verdict: Verdict,
    out: &mut O,
) -> Result<(), Failed>
    ensures ok { OnOk result (O.written out.new ≡ append_known (O.written out.old) (event_line event poll verdict)) }
    ensures err { OnErr result (AppendsFront (O.written out.old) (O.written out.new) (event_line event poll verdict)) }
    ensures failed { OnErr result (Rose (O.faults out.old) (O.faults out.new)) }
    ensures count { O.faults out.old ≤ O.faults out.new }
    ensures by_one_put { OnOk result (O.puts out.new ≡ add_told (O.puts out.old) (event_line event poll verdict)) }
    ensures unput { OnErr result (O.puts out.new ≡ O.puts out.old) }
{
    out.put(event_text(event, poll, verdict).as_slice())
}

/// Puts the line of an object that moves at an event, with its addresses before and after. `Failed` as for [`event_line`].
pub fn moved_line<O: Sink>(obj: ObjId, old: u64, new: u64, out: &mut O) -> Result<(), Failed>
    ensures ok { OnOk result (O.written out.new ≡ append_known (O.written out.old) (moved_line obj.0 old new)) }
    ensures err { OnErr result (AppendsFront (O.written out.old) (O.written out.new) (moved_line obj.0 old new)) }
    ensures failed { OnErr result (Rose (O.faults out.old) (O.faults out.new)) }
    ensures count { O.faults out.old ≤ O.faults out.new }
    ensures by_one_put { OnOk result (O.puts out.new ≡ add_told (O.puts out.old) (moved_line obj.0 old new)) }
    ensures unput { OnErr result (O.puts out.new ≡ O.puts out.old) }
{
    out.put(moved_text(obj.0, old, new).as_slice())
}

/// Puts the line of a derived pointer's slot, `offset` bytes from the stack pointer of a frame of this task (0 is the newest),
/// with its word before and after the moves of an event. `Failed` as for [`event_line`].
pub fn slot_line<O: Sink>(
    task: TaskId,
    frame: u32,
    offset: u32,
    old: u64,
    new: u64,
    out: &mut O,
) -> Result<(), Failed>
    ensures ok { OnOk result (O.written out.new ≡ append_known (O.written out.old) (slot_line task.0 frame offset old new)) }
    ensures err { OnErr result (AppendsFront (O.written out.old) (O.written out.new) (slot_line task.0 frame offset old new)) }
    ensures failed { OnErr result (Rose (O.faults out.old) (O.faults out.new)) }
    ensures count { O.faults out.old ≤ O.faults out.new }
    ensures by_one_put { OnOk result (O.puts out.new ≡ add_told (O.puts out.old) (slot_line task.0 frame offset old new)) }
    ensures unput { OnErr result (O.puts out.new ≡ O.puts out.old) }
{
    out.put(slot_text(task.0, frame, offset, old, new).as_slice())
}

/// Puts the line that tells where an object stands in the end: the name of its layout, how many elements it has, and its address.
/// `Failed` as for [`event_line`]. A line of at most 8,192 bytes is put by one call.
#[tactic(auto, unfolding(crate::specs::RunLines::place_line))]
pub fn place_line<O: Sink>(
    obj: ObjId,
    layout: &[u8],
    count: u64,
    address: u64,
    out: &mut O,
) -> Result<(), Failed>
    ensures ok { OnOk result (O.written out.new ≡ append_known (O.written out.old) (place_line obj.0 layout.now count address)) }
    ensures err { OnErr result (AppendsFront (O.written out.old) (O.written out.new) (place_line obj.0 layout.now count address)) }
    ensures failed { OnErr result (Rose (O.faults out.old) (O.faults out.new)) }
    ensures count { O.faults out.old ≤ O.faults out.new }
    ensures by_one_put { length (place_line obj.0 layout.now count address) ≤ 8192 → OnOk result (O.puts out.new ≡ add_told (O.puts out.old) (place_line obj.0 layout.now count address)) }
    ensures unput { length (place_line obj.0 layout.now count address) ≤ 8192 → OnErr result (O.puts out.new ≡ O.puts out.old) }
{
    put_text(
        &(
            (Bytes(b"@ "), Decimal(obj.0), Bytes(b" %"), Bytes(layout)),
            (
                Bytes(b" "),
                Decimal(count),
                Bytes(b" "),
                Decimal(address),
                Bytes(b"\n"),
            ),
        ),
        out,
    )
}

// Room for the longest line of a trace.
const ROOM: usize = 256;

type Line = ArrayVec<u8, ROOM>;

#[tactic(auto, unfolding(crate::specs::RunLines::event_line))]
fn event_text(event: u64, poll: bool, verdict: Verdict) -> Line
    ensures { result.items ≡ event_line event poll verdict }
{
    let mut line = Line::new();
    add(&mut line, b"# ", event);
    let _ = line.try_extend_from_slice(event_kind(poll));
    let _ = line.try_extend_from_slice(verdict_name(verdict));
    let _ = line.try_extend_from_slice(b"\n");
    line
}

#[tactic(auto, unfolding(crate::specs::RunLines::moved_line))]
fn moved_text(object: u64, old: u64, new: u64) -> Line
    ensures { result.items ≡ moved_line object old new }
{
    let mut line = Line::new();
    add(&mut line, b"# move ", object);
    add(&mut line, b" ", old);
    add(&mut line, b" ", new);
    let _ = line.try_extend_from_slice(b"\n");
    line
}

#[tactic(auto, unfolding(crate::specs::RunLines::slot_line))]
fn slot_text(task: u32, frame: u32, offset: u32, old: u64, new: u64) -> Line
    ensures { result.items ≡ slot_line task frame offset old new }
{
    let mut line = Line::new();
    add(&mut line, b"# slot ", u64::from(task));
    add(&mut line, b" ", u64::from(frame));
    add(&mut line, b" ", u64::from(offset));
    add(&mut line, b" ", old);
    add(&mut line, b" ", new);
    let _ = line.try_extend_from_slice(b"\n");
    line
}

// Adds a word and a number.
fn add(line: &mut Line, word: &[u8], number: u64)
    requires { length line.old.items + length word.now ≤ 216 }
    ensures added { line.new.items ≡ line.old.items ++ (word.now ++ decimal number) }
    ensures short { length line.new.items ≤ length line.old.items + length word.now + 40 }
{
    let mut buffer = Buffer::new();
    let _ = line.try_extend_from_slice(word);
    let _ = line.try_extend_from_slice(buffer.format(number).as_bytes());
}

fn event_kind(poll: bool) -> &'static [u8]
    ensures kind { result.now ≡ event_kind poll }
    ensures short { length result.now ≤ 8 }
{
    if poll { b" poll " } else { b" new " }
}

fn verdict_name(verdict: Verdict) -> &'static [u8]
    ensures name { result.now ≡ verdict_name verdict }
    ensures short { length result.now ≤ 8 }
{
    match verdict {
        Verdict::Empty => b"empty",
        Verdict::Legal => b"legal",
        Verdict::Illegal => b"illegal",
    }
}

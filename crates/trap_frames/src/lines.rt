//! The lines of the frames that wait.

ghost use Rattle.std.specs.Prelude.{◌≡◌, ◌+◌, ◌≤◌, length, OnOk, OnErr, IsErrOf};
ghost use Rattle.std.specs.List.{All, concat};
ghost use Rattle.tool_io.specs.Counts.{Rose};
ghost use Rattle.tool_io.specs.Sink.{append_known, AppendsFront};
ghost use Rattle.piece_writer.specs.LinePuts.{IsShort, PutsFirst, PutsLines, told_by};
ghost use Rattle.frame_walk.specs.Maps.{deopt_count};
ghost use Rattle.machine_meaning.specs.Machines.{Machinery};
ghost use Rattle.machine_meaning.specs.TrapLines.{waiting_lines};
ghost use Rattle.run_traces.specs.declared.writing.Stopped.{Stopped};
ghost use Rattle.trap_frames.specs.Waiting.{IsReadBy, line_with, waiting_text};

use crate::asked::{Functions, Objects};
use crate::bases::fill_bases;
use crate::deopts::{Shown, deopt_line};
use crate::values::fill_values;
use frame_walk::{FrameMap, FrameRecord, Stack};
use run_traces::Stopped;
use std::alloc::Global;
use tool_io::Sink;

// Room for what a frame shows.
#[derive(Drop)]
struct Room {
    bases: Vec<u64>,
    values: Vec<Shown>,
}

/// Puts the lines of the frames that wait above a newest frame of so many words, from its caller upwards: a line for each
/// whose record has "deopt" locations, with its number, from 1, its function and the values there. They end at the return
/// address 0, at one without a usable record, and at one that is in no function.
///
/// A stack of at most so many words has no frame that waits. After an error a front of the lines was added; `Write` comes only
/// where the sink's count of faults rose. Where none has more than 8,192 bytes, each line is put by one call.
pub fn write_waiting<M: FrameMap, H: Objects, F: Functions, O: Sink>(
    alloc: Global,
    map: &M,
    stack: &Stack,
    own: u32,
    objects: &H,
    functions: &F,
    out: &mut O,
) -> Result<(), Stopped>
    ensures ok { (machinery : Machinery) → IsReadBy (M.found map.now) (M.constants map.now) (F.names functions.now) machinery → OnOk result (O.written out.new ≡ append_known (O.written out.old) (waiting_text machinery (H.stands objects.now) own stack.now)) }
    ensures err { (machinery : Machinery) → IsReadBy (M.found map.now) (M.constants map.now) (F.names functions.now) machinery → OnErr result (AppendsFront (O.written out.old) (O.written out.new) (waiting_text machinery (H.stands objects.now) own stack.now)) }
    ensures by_one_put { (machinery : Machinery) → IsReadBy (M.found map.now) (M.constants map.now) (F.names functions.now) machinery → All IsShort (waiting_lines machinery (H.stands objects.now) own stack.now) → OnOk result (PutsLines (told_by O.written O.puts out.old) (told_by O.written O.puts out.new) (waiting_lines machinery (H.stands objects.now) own stack.now)) }
    ensures cut { (machinery : Machinery) → IsReadBy (M.found map.now) (M.constants map.now) (F.names functions.now) machinery → All IsShort (waiting_lines machinery (H.stands objects.now) own stack.now) → OnErr result (PutsFirst (told_by O.written O.puts out.old) (told_by O.written O.puts out.new) (waiting_lines machinery (H.stands objects.now) own stack.now)) }
    ensures failed { IsErrOf result Stopped.Write → Rose (O.faults out.old) (O.faults out.new) }
    ensures count { O.faults out.old ≤ O.faults out.new }
{
    if stack.len() > u32::MAX as usize {
        return Err(Stopped::Memory);
    }
    if own as usize >= stack.len() {
        return Ok(());
    }
    let mut room = Room {
        bases: Vec::new(alloc),
        values: Vec::new(alloc),
    };
    let mut frames = stack.frames(map, own);
    let mut number = 1u32;
    let mut address = frames.return_address();
    'frames: while let Some((one, words)) = frames.next() {
        let Some(name) = functions.name_at(address) else {
            return Ok(());
        };
        write_frame(map, &one, words, objects, number, name, &mut room, out)?;
        address = frames.return_address();
        number += 1;
    }
    Ok(())
}

// Puts the line of a frame with this record and these words, where the record has "deopt" locations.
fn write_frame<M: FrameMap, R: FrameRecord, H: Objects, O: Sink>(
    map: &M,
    one: &R,
    words: &[u64],
    objects: &H,
    number: u32,
    name: &[u8],
    room: &mut Room,
    out: &mut O,
) -> Result<(), Stopped>
    requires { 3 + deopt_count (R.entry one.now).places ≤ length (R.entry one.now).places }
    ensures ok { OnOk result (O.written out.new ≡ append_known (O.written out.old) (concat (line_with (M.constants map.now) (H.stands objects.now) words.now (R.entry one.now) number name.now))) }
    ensures err { OnErr result (AppendsFront (O.written out.old) (O.written out.new) (concat (line_with (M.constants map.now) (H.stands objects.now) words.now (R.entry one.now) number name.now))) }
    ensures by_one_put { All IsShort (line_with (M.constants map.now) (H.stands objects.now) words.now (R.entry one.now) number name.now) → OnOk result (PutsLines (told_by O.written O.puts out.old) (told_by O.written O.puts out.new) (line_with (M.constants map.now) (H.stands objects.now) words.now (R.entry one.now) number name.now)) }
    ensures cut { All IsShort (line_with (M.constants map.now) (H.stands objects.now) words.now (R.entry one.now) number name.now) → OnErr result (PutsFirst (told_by O.written O.puts out.old) (told_by O.written O.puts out.new) (line_with (M.constants map.now) (H.stands objects.now) words.now (R.entry one.now) number name.now)) }
    ensures failed { IsErrOf result Stopped.Write → Rose (O.faults out.old) (O.faults out.new) }
    ensures count { O.faults out.old ≤ O.faults out.new }
{
    fill_bases(one, &mut room.bases)?;
    fill_values(
        map,
        one,
        room.bases.as_slice(),
        objects,
        words,
        &mut room.values,
    )?;
    if room.values.is_empty() {
        return Ok(());
    }
    deopt_line(number, name, room.values.as_slice(), out)?;
    Ok(())
}

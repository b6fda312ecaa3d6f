//! Lines of events and of places, each put by itself.

ghost use Rattle.std.specs.Prelude.{◌≡◌, ◌≤◌, map, OnOk, OnErr, IsErrOf};
ghost use Rattle.std.specs.List.{All, concat};
ghost use Rattle.tool_io.specs.Counts.{Rose};
ghost use Rattle.tool_io.specs.Sink.{append_known, AppendsFront};
ghost use Rattle.piece_writer.specs.LinePuts.{IsShort, PutsFirst, PutsLines, told_by};
ghost use Rattle.moving_heap.specs.Settled.{IsNumbered};
ghost use Rattle.run_texts.specs.RunTexts.{layout_name, line_of_move, line_of_slot, place_lines};
ghost use Rattle.run_traces.specs.Changes.{change_of};
ghost use Rattle.run_traces.specs.Happenings.{happened_lines, move_of};
ghost use Rattle.run_traces.specs.declared.writing.Stopped.{Stopped};

use crate::frames::SlotChange;
use crate::happenings::{Happening, ObjectMove};
use ir_ast::Layout;
use moving_heap::Heap;
use sp_ids::{Memory, ObjId, TaskId};
use tool_io::{Failed, Sink};
use tool_report::{event_line, moved_line, place_line, slot_line};

/// Puts the lines of an event: its own, one for each object that moves, and one for each slot, which are left out where the walk
/// lost a frame; each line by one call. After `Failed`, which comes only where the sink's count of faults rose, a front of the
/// lines was added.
pub fn write_happening<O: Sink>(
    happening: &Happening,
    lost: bool,
    out: &mut O,
) -> Result<(), Failed>
    ensures ok { OnOk result (O.written out.new ≡ append_known (O.written out.old) (concat (happened_lines lost happening.now))) }
    ensures err { OnErr result (AppendsFront (O.written out.old) (O.written out.new) (concat (happened_lines lost happening.now))) }
    ensures by_one_put { OnOk result (PutsLines (told_by O.written O.puts out.old) (told_by O.written O.puts out.new) (happened_lines lost happening.now)) }
    ensures cut { OnErr result (PutsFirst (told_by O.written O.puts out.old) (told_by O.written O.puts out.new) (happened_lines lost happening.now)) }
    ensures failed { OnErr result (Rose (O.faults out.old) (O.faults out.new)) }
    ensures count { O.faults out.old ≤ O.faults out.new }
{
    event_line(happening.number, happening.poll, happening.verdict, out)?;
    write_moves(happening.moves.as_slice(), out)?;
    if lost {
        return Ok(());
    }
    write_slots(happening.slots.as_slice(), out)
}

fn write_moves<O: Sink>(moves: &[ObjectMove], out: &mut O) -> Result<(), Failed>
    ensures ok { OnOk result (O.written out.new ≡ append_known (O.written out.old) (concat (map line_of_move (map move_of moves.now)))) }
    ensures err { OnErr result (AppendsFront (O.written out.old) (O.written out.new) (concat (map line_of_move (map move_of moves.now)))) }
    ensures by_one_put { OnOk result (PutsLines (told_by O.written O.puts out.old) (told_by O.written O.puts out.new) (map line_of_move (map move_of moves.now))) }
    ensures cut { OnErr result (PutsFirst (told_by O.written O.puts out.old) (told_by O.written O.puts out.new) (map line_of_move (map move_of moves.now))) }
    ensures failed { OnErr result (Rose (O.faults out.old) (O.faults out.new)) }
    ensures count { O.faults out.old ≤ O.faults out.new }
{
    for one in moves {
        moved_line(ObjId(one.object), one.old, one.new, out)?;
    }
    Ok(())
}

fn write_slots<O: Sink>(slots: &[SlotChange], out: &mut O) -> Result<(), Failed>
    ensures ok { OnOk result (O.written out.new ≡ append_known (O.written out.old) (concat (map line_of_slot (map change_of slots.now)))) }
    ensures err { OnErr result (AppendsFront (O.written out.old) (O.written out.new) (concat (map line_of_slot (map change_of slots.now)))) }
    ensures by_one_put { OnOk result (PutsLines (told_by O.written O.puts out.old) (told_by O.written O.puts out.new) (map line_of_slot (map change_of slots.now))) }
    ensures cut { OnErr result (PutsFirst (told_by O.written O.puts out.old) (told_by O.written O.puts out.new) (map line_of_slot (map change_of slots.now))) }
    ensures failed { OnErr result (Rose (O.faults out.old) (O.faults out.new)) }
    ensures count { O.faults out.old ≤ O.faults out.new }
{
    for one in slots {
        slot_line(
            TaskId(one.task),
            one.frame,
            one.offset,
            one.old,
            one.new,
            out,
        )?;
    }
    Ok(())
}

/// Why lines are not written to their end.
#[derive(Clone, Copy, Debug, PartialEq, Eq)]
pub enum Stopped {
    Memory,
    /// The sink counted a fault.
    Write,
}

impl From<Memory> for Stopped {
    ghost use Rattle.std.specs.Prelude.{◌≡◌};
    ghost use Rattle.run_traces.specs.declared.writing.Stopped.TheVariants as stops;

    ghost from_gives = { λ _ e. e ≡ stops.Memory };

    fn from(_error: Memory) -> Stopped {
        Stopped::Memory
    }
}

impl From<Failed> for Stopped {
    ghost use Rattle.std.specs.Prelude.{◌≡◌};
    ghost use Rattle.run_traces.specs.declared.writing.Stopped.TheVariants as stops;

    ghost from_gives = { λ _ e. e ≡ stops.Write };

    fn from(_failed: Failed) -> Stopped {
        Stopped::Write
    }
}

/// Puts a line for each object of a heap, in the order of their numbers: where it stands. After `Write`, which comes only where
/// the sink's count of faults rose, a front of the lines was added. Where none has more than 8,192 bytes, each is put by one call.
pub fn write_places<O: Sink>(layouts: &[Layout], heap: &Heap, out: &mut O) -> Result<(), Stopped>
    requires { IsNumbered heap.now.stands }
    ensures ok { OnOk result (O.written out.new ≡ append_known (O.written out.old) (concat (place_lines layouts.now heap.now.stands heap.now.contents))) }
    ensures err { OnErr result (AppendsFront (O.written out.old) (O.written out.new) (concat (place_lines layouts.now heap.now.stands heap.now.contents))) }
    ensures by_one_put { All IsShort (place_lines layouts.now heap.now.stands heap.now.contents) → OnOk result (PutsLines (told_by O.written O.puts out.old) (told_by O.written O.puts out.new) (place_lines layouts.now heap.now.stands heap.now.contents)) }
    ensures cut { All IsShort (place_lines layouts.now heap.now.stands heap.now.contents) → OnErr result (PutsFirst (told_by O.written O.puts out.old) (told_by O.written O.puts out.new) (place_lines layouts.now heap.now.stands heap.now.contents)) }
    ensures failed { IsErrOf result Stopped.Write → Rose (O.faults out.old) (O.faults out.new) }
    ensures count { O.faults out.old ≤ O.faults out.new }
{
    for place in 0..u64::MAX {
        let object = ObjId(place + 1);
        let Some(address) = heap.place(object) else {
            return Ok(());
        };
        let Some((layout, count)) = heap.shape(object) else {
            return Ok(());
        };
        place_line(object, layout_name(layouts, layout), count, address, out)?;
    }
    Err(Stopped::Memory)
}

fn layout_name(layouts: &[Layout], layout: u32) -> &[u8]
    ensures { result.now ≡ layout_name layouts.now layout }
{
    match layouts.get(layout as usize) {
        None => b"",
        Some(layout) => layout.name().bytes(),
    }
}

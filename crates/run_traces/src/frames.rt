//! The slots of one frame.

ghost use Rattle.std.specs.Prelude.{◌≡◌, ◌++◌, map, OnOk};
ghost use Rattle.frame_walk.specs.Maps.{pairs_of};
ghost use Rattle.machine_meaning.specs.Happenings.{frame_changes, slot_change};
ghost use Rattle.run_traces.specs.Changes.{change_of};

use frame_walk::{FrameRecord, change_slots, slot_pairs, word_at};
use moving_heap::Moves;
use sp_ids::Memory;
use std::alloc::Global;

/// The slot of a derived pointer, `offset` bytes from the stack pointer of a frame, with its word before and after the moves of
/// an event. A task's frames are counted from 0, the newest.
#[derive(Clone, Copy, Debug, PartialEq, Eq)]
pub struct SlotChange {
    pub task: u32,
    pub frame: u32,
    pub offset: u32,
    pub old: u64,
    pub new: u64,
}

/// Room for the words of a frame, as they are and as they become.
#[derive(Drop)]
pub struct Room {
    pub(crate) before: Vec<u64>,
    pub(crate) after: Vec<u64>,
}

impl Room {
    /// Room that has no words yet.
    pub fn new(alloc: Global) -> Room {
        Room {
            before: Vec::new(alloc),
            after: Vec::new(alloc),
        }
    }
}

/// Adds the slots of a frame with this record, whose words are in `room`.
pub(crate) fn add_frame<R: FrameRecord>(
    one: &R,
    room: &mut Room,
    moves: &Moves,
    task: u32,
    frame: u32,
    changes: &mut Vec<SlotChange>,
) -> Result<(), Memory>
    ensures { OnOk result (map change_of changes.new.items ≡ map change_of changes.old.items ++ frame_changes moves.now.moves task frame (R.entry one.now) room.old.before.items) }
{
    room.after.clear();
    room.after.extend_from_slice(room.before.as_slice())?;
    change_slots(
        room.after.as_mut_slice(),
        room.before.as_slice(),
        one,
        moves,
    );
    add_pairs(
        one,
        room.before.as_slice(),
        room.after.as_slice(),
        task,
        frame,
        changes,
    )
}

// Adds the slot of each pair of a record, whose frame had these words and gets these.
fn add_pairs<R: FrameRecord>(
    one: &R,
    before: &[u64],
    after: &[u64],
    task: u32,
    frame: u32,
    changes: &mut Vec<SlotChange>,
) -> Result<(), Memory>
    ensures { OnOk result (map change_of changes.new.items ≡ map change_of changes.old.items ++ map (slot_change task frame before.now after.now) (pairs_of (R.entry one.now))) }
{
    for pair in slot_pairs(one) {
        changes.push(SlotChange {
            task,
            frame,
            offset: 8 * pair.derived,
            old: word_at(before, pair.derived),
            new: word_at(after, pair.derived),
        })?;
    }
    Ok(())
}

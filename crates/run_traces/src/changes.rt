//! The slots of a stack, frame by frame.

ghost use Rattle.std.specs.Prelude.{◌≡◌, ◌+◌, ◌≤◌, ◌++◌, drop, length, map, take, OnOk};
ghost use Rattle.machine_meaning.specs.Happenings.{changes_from};
ghost use Rattle.run_traces.specs.Changes.{change_of};

use crate::frames::{Room, SlotChange, add_frame};
use frame_walk::{FrameMap, FrameRecord, Stack};
use moving_heap::Moves;
use sp_ids::Memory;

/// Adds a change for each pair of the record of each frame of a task's stack, newest frame first, from the call that returns to
/// this address: the pair's derived slot with its word as it is, and as a walk under these moves leaves it. The stack stays as it
/// is. The frames end at the return address 0, or where `index` has no record.
pub fn add_changes<M: FrameMap>(
    index: &M,
    stack: &Stack,
    address: u64,
    moves: &Moves,
    task: u32,
    room: &mut Room,
    changes: &mut Vec<SlotChange>,
) -> Result<(), Memory>
    ensures { OnOk result (map change_of changes.new.items ≡ map change_of changes.old.items ++ changes_from (length stack.now + 1) (M.found index.now) moves.now.moves task 0 address stack.now) }
{
    if stack.len() > u32::MAX as usize {
        return Err(Memory);
    }
    let mut place = 0usize;
    let mut frame = 0u32;
    let mut next = address;
    'frames: while next != 0 {
        let Some(one) = index.find(next) else {
            return Ok(());
        };
        let left = stack.len() - place;
        let count = (one.frame_bytes() / 8).min(left as u64) as usize;
        copy_words(stack, place, count, &mut room.before)?;
        add_frame(&one, room, moves, task, frame, changes)?;
        if count == left {
            return Ok(());
        }
        next = stack.word((place + count) as u32);
        place = place + count + 1;
        frame += 1;
    }
    Ok(())
}

// So many words of a stack from this place on.
fn copy_words(stack: &Stack, place: usize, count: usize, words: &mut Vec<u64>) -> Result<(), Memory>
    requires within { place + count ≤ length stack.now }
    requires small { length stack.now ≤ 4294967295 }
    ensures { OnOk result (words.new.items ≡ take count (drop place stack.now)) }
{
    words.clear();
    for offset in 0..count {
        words.push(stack.word((place + offset) as u32))?;
    }
    Ok(())
}

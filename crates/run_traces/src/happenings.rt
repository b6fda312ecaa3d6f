//! Events, as they are shown.

ghost use Rattle.std.specs.Prelude.{◌≡◌, ◌++◌, map, OnOk};
ghost use Rattle.std.specs.List.{filter_map};
ghost use Rattle.moving_heap.specs.Settled.{IsNumbered};
ghost use Rattle.machine_meaning.specs.Happenings.{object_move};
ghost use Rattle.run_traces.specs.Happenings.{move_of};

use crate::frames::{Room, SlotChange};
use moving_heap::{Heap, Verdict};
use sp_ids::{Memory, ObjId};
use std::alloc::Global;

/// An object that moves at an event, with its addresses before and after.
#[derive(Clone, Copy, Debug, PartialEq, Eq)]
pub struct ObjectMove {
    pub object: u64,
    pub old: u64,
    pub new: u64,
}

/// An event by its number: whether it is a poll or else a new object, the verdict on its group of moves, the objects that move, in
/// the order of their numbers, and the slots of derived pointers, with room for the words of a frame.
#[derive(Drop)]
pub struct Happening {
    pub number: u64,
    pub poll: bool,
    pub verdict: Verdict,
    pub moves: Vec<ObjectMove>,
    pub slots: Vec<SlotChange>,
    pub room: Room,
}

impl Happening {
    /// Nothing yet.
    pub fn new(alloc: Global) -> Happening {
        Happening {
            number: 0,
            poll: false,
            verdict: Verdict::Empty,
            moves: Vec::new(alloc),
            slots: Vec::new(alloc),
            room: Room::new(alloc),
        }
    }
}

/// Adds the objects that the pending group of a heap moves.
pub fn add_moves(heap: &Heap, moves: &mut Vec<ObjectMove>) -> Result<(), Memory>
    requires { IsNumbered heap.now.stands }
    ensures { OnOk result (map move_of moves.new.items ≡ map move_of moves.old.items ++ filter_map (object_move heap.now.moves) heap.now.stands) }
{
    for place in 0..u64::MAX {
        let object = place + 1;
        let Some(old) = heap.place(ObjId(object)) else {
            return Ok(());
        };
        if let Some(new) = heap.moves().new_address(old) {
            moves.push(ObjectMove { object, old, new })?;
        }
    }
    Err(Memory)
}

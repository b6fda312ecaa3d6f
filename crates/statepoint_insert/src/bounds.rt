//! How many lines the calls of a function may need.

ghost use Rattle.std.specs.Prelude.{◌<◌, ◌≤◌};
ghost use Rattle.std.specs.List.{All};

use sp_ids::ValueId;

/// A number above those of all listed values.
pub(crate) fn room_for(lists: &[Vec<ValueId>]) -> usize
    ensures { All (λ list. All (λ value. value.0 < result) list.items) lists.now }
{
    let mut room = 0;
    for list in lists {
        room = room_with(room, list.as_slice());
    }
    room
}

// The room, or more where the list needs it.
fn room_with(room: usize, list: &[ValueId]) -> usize
    ensures grows { room ≤ result }
    ensures room { All (λ value. value.0 < result) list.now }
{
    let mut most = room;
    for value in list {
        most = above(most, *value);
    }
    most
}

fn above(most: usize, value: ValueId) -> usize
    ensures grows { most ≤ result }
    ensures room { value.0 < result }
{
    let number = value.0 as usize;
    if most <= number { number + 1 } else { most }
}

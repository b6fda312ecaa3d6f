//! Work for bench/heap: many objects, large groups, many small ones, look-ups, and events with a walk.

use crate::maps::{Listed, Records};
use frame_walk::{Stack, walk};
use ir_ast::Cell;
use map_bytes::Place;
use move_plan::Move;
use moving_heap::{Heap, Verdict};
use sp_ids::Memory;
use std::alloc::Global;

/// The work of a name, over so many objects and so often; how many groups were legal, or the sum of what was loaded.
pub(crate) fn done(alloc: Global, name: &str, objects: u64, turns: u64) -> Result<u64, Memory> {
    let mut heap = heap_of(alloc, objects);
    match name {
        "flips" => Ok(flips(&mut heap, turns)),
        "groups" => groups(alloc, &mut heap, objects, turns),
        "lines" => Ok(lines(&mut heap, objects, turns)),
        "quiet" => Ok(quiet(&mut heap, turns)),
        "loads" => Ok(loads(&heap, objects, turns)),
        "near" => Ok(near_loads(&heap, objects, turns)),
        "allocs" => Ok(allocs(&mut heap, turns)),
        "events" => events(alloc, &mut heap, turns),
        "wide" => Ok(wide(&mut heap, turns)),
        _ => Ok(0),
    }
}

fn heap_of(alloc: Global, objects: u64) -> Heap {
    let mut heap = Heap::new(alloc);
    for _ in 0..objects {
        let _ = heap.alloc(0, &[Cell::I64, Cell::Ptr], 1);
    }
    heap
}

// An event with these lines; 1 where its group is legal.
fn event(heap: &mut Heap, lines: &[Move], flip: Option<u64>) -> u64 {
    match heap.ready(lines, flip) {
        Verdict::Legal => {
            if !heap.moves().is_empty() {
                heap.apply();
            }
            1
        }
        Verdict::Empty | Verdict::Illegal => 0,
    }
}

// Each turn all objects are flipped.
fn flips(heap: &mut Heap, turns: u64) -> u64 {
    let mut legal = 0u64;
    for turn in 0..turns {
        legal = legal.wrapping_add(event(heap, &[], Some(turn)));
    }
    legal
}

// Each turn all objects move by lines in a mixed order to places in the opposite order.
fn groups(alloc: Global, heap: &mut Heap, objects: u64, turns: u64) -> Result<u64, Memory> {
    let mut group = Vec::new(alloc);
    for turn in 0..objects {
        let place = turn.wrapping_mul(2_654_435_761) % objects.max(1);
        group.push(Move {
            obj: place.wrapping_add(1),
            to: objects
                .wrapping_sub(place)
                .wrapping_mul(16)
                .wrapping_add(1 << 40),
        })?;
    }
    let mut legal = 0u64;
    for _ in 0..turns {
        legal = legal.wrapping_add(event(heap, group.as_slice(), None));
    }
    Ok(legal)
}

// Each turn one object moves by a line.
fn lines(heap: &mut Heap, objects: u64, turns: u64) -> u64 {
    let mut legal = 0u64;
    for turn in 0..turns {
        let line = Move {
            obj: (turn % objects.max(1)).wrapping_add(1),
            to: turn.wrapping_mul(16).wrapping_add(1 << 40),
        };
        legal = legal.wrapping_add(event(heap, &[line], None));
    }
    legal
}

// Events without lines and flip.
fn quiet(heap: &mut Heap, turns: u64) -> u64 {
    let mut legal = 0u64;
    for _ in 0..turns {
        legal = legal.wrapping_add(event(heap, &[], None));
    }
    legal
}

// Loads from objects in a mixed order.
fn loads(heap: &Heap, objects: u64, turns: u64) -> u64 {
    let mut sum = 0u64;
    for turn in 0..turns {
        let place = turn.wrapping_mul(2_654_435_761) % objects.max(1);
        if let Ok(word) = heap.load(place.wrapping_mul(16).wrapping_add(65_536)) {
            sum = sum.wrapping_add(word).wrapping_add(1);
        }
    }
    sum
}

// The same, each object a thousand times, with a hint.
fn near_loads(heap: &Heap, objects: u64, turns: u64) -> u64 {
    let mut sum = 0u64;
    let mut hint = 0usize;
    for turn in 0..turns {
        let place = (turn / 1_000).wrapping_mul(2_654_435_761) % objects.max(1);
        let (found, near) = heap.load_near(place.wrapping_mul(16).wrapping_add(65_536), hint);
        hint = near;
        if let Ok(word) = found {
            sum = sum.wrapping_add(word).wrapping_add(1);
        }
    }
    sum
}

// New objects after all others have moved.
fn allocs(heap: &mut Heap, turns: u64) -> u64 {
    let mut made = event(heap, &[], Some(1));
    for _ in 0..turns {
        if heap.alloc(0, &[Cell::I64], 1).is_ok() {
            made = made.wrapping_add(1);
        }
    }
    made
}

// New objects of a thousand cells.
fn wide(heap: &mut Heap, turns: u64) -> u64 {
    let mut made = 0u64;
    for _ in 0..turns {
        if heap.alloc(0, &[Cell::I64, Cell::Ptr], 500).is_ok() {
            made = made.wrapping_add(1);
        }
    }
    made
}

// Flips of all objects, each with a walk over a stack of 50 frames with 4 slots.
fn events(alloc: Global, heap: &mut Heap, turns: u64) -> Result<u64, Memory> {
    let map = frame_map(alloc)?;
    let mut stack = stack_of(alloc)?;
    let mut walked = 0u64;
    for turn in 0..turns {
        if heap.ready(&[], Some(turn)) == Verdict::Legal {
            walked = walked.wrapping_add(walk_all(&map.lent(), &mut stack, heap));
        }
        if !heap.moves().is_empty() {
            heap.apply();
        }
    }
    Ok(walked)
}

fn walk_all(records: &Records<'_>, stack: &mut Stack, heap: &Heap) -> u64 {
    if walk(records, stack, 4_100, heap.moves()).is_ok() {
        1
    } else {
        0
    }
}

// A map with one record, whose frame has 4 words, each a base slot and a derived slot.
fn frame_map(alloc: Global) -> Result<Listed, Memory> {
    let mut map = Listed::new(alloc);
    map.add(4_100, 32)?;
    for _ in 0..3 {
        map.add_place(slot(4, 0, 0))?;
    }
    for word in 0..4 {
        map.add_place(slot(3, 7, word))?;
        map.add_place(slot(3, 7, word))?;
    }
    Ok(map)
}

fn slot(kind: u8, register: u16, word: u8) -> Place {
    Place {
        kind,
        size: 8,
        register,
        offset: i32::from(word) * 8,
    }
}

// 50 frames that hold the addresses of the first 4 objects.
fn stack_of(alloc: Global) -> Result<Stack, Memory> {
    let mut stack = Stack::new(alloc);
    for frame in 0..50 {
        stack.push_frame(4, if frame == 0 { 0 } else { 4_100 })?;
        for word in 0..4u32 {
            if (word as usize) < stack.len() {
                stack.set_word(word, 65_536 + 16 * u64::from(word));
            }
        }
    }
    Ok(stack)
}

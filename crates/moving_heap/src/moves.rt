//! The moves of a group, looked up by old addresses.

ghost use Rattle.std.specs.Prelude.{◌≡◌, ◌+◌, ◌*◌, ◌<◌, ◌≤◌, ◌^◌, ◌++◌, ℕ, IsTrue, [], length, map, slice_index_or, vec_capacity, OnOk, ◌↔◌};
ghost use Rattle.std.specs.List.{range_with_len};
ghost use Rattle.std.specs.List.Sorted.{IsNonDecreasingBy};
ghost use Rattle.moving_heap.specs.Places.{new_address, verdict, group_moves};
ghost use Rattle.moving_heap.specs.Orders.{resting};
ghost use Rattle.moving_heap.specs.Settled.{AreSettled, AreRanked, IsDue, move_at, sent_on};
ghost use Rattle.moving_heap.specs.declared.stands.Moved.{Moved};

use crate::groups::judge;
use crate::orders::Order;
use crate::stands::{Moved, Stands, Verdict};
use move_plan::Move;
use sp_ids::Memory;
use std::alloc::Global;
use std::marker::Model;

/// The moves of a group, in the order of object numbers, with room for so many; `sorted` has their places in the order of their
/// old addresses.
#[derive(Drop)]
pub struct Moves {
    list: Vec<Moved>,
    sorted: Vec<u32>,
    room: usize,
}

impl Model for Moves {
    ghost use Rattle.std.specs.Prelude.{◌≤◌, map, vec_capacity};
    ghost use Rattle.moving_heap.specs.Settled.{Group, AreMoves, move_at};

    ghost Value = { Group };

    ghost view = { λ moves. record { moves = moves.list.items; room = moves.room } };

    ghost invariant = { λ moves. AreMoves moves.list.items (map (move_at moves.list.items) moves.sorted.items) × (moves.room ≤ vec_capacity moves.list) × (moves.room ≤ vec_capacity moves.sorted) };
}

impl Moves {
    /// No moves.
    pub(crate) fn new(alloc: Global) -> Moves
        ensures { result ≡ record { moves = []; room = 0 } }
    {
        Moves {
            list: Vec::new(alloc),
            sorted: Vec::new(alloc),
            room: 0,
        }
    }

    /// Whether there are none.
    pub fn is_empty(&self) -> bool
        ensures { IsTrue result ↔ self.now.moves ≡ [] }
    {
        self.list.is_empty()
    }

    /// The moves themselves.
    pub fn as_slice(&self) -> &[Moved]
        ensures { result.now ≡ self.now.moves }
    {
        self.list.as_slice()
    }

    /// Where the object goes that stands at this address; none, where no object of the group stands there.
    pub fn new_address(&self, old: u64) -> Option<u64>
        ensures { result ≡ new_address self.now.moves old }
    {
        let moves = self.list.as_slice();
        let sorted = self.sorted.as_slice();
        let place = first_from(moves, sorted, old);
        if place < sorted.len() {
            let moved = move_at(moves, sorted[place]);
            if moved.old == old {
                return Some(moved.new);
            }
        }
        None
    }

    /// Room for so many moves.
    pub(crate) fn reserve(&mut self, count: usize) -> Result<(), Memory>
        ensures moves { self.new.moves ≡ self.old.moves }
        ensures room { OnOk result (count ≤ self.new.room) }
        ensures grows { self.old.room ≤ self.new.room }
    {
        if count > self.room {
            self.list.reserve(count.saturating_sub(self.list.len()))?;
            self.sorted
                .reserve(count.saturating_sub(self.sorted.len()))?;
            self.room = count;
        }
        Ok(())
    }

    /// No moves any more.
    pub(crate) fn clear(&mut self)
        ensures { self.new ≡ record { moves = []; room = self.old.room } }
    {
        self.list.clear();
        self.sorted.clear();
    }

    /// The verdict on the moves of an event: those of the lines, and of a flip where `event` has the event's number. A legal
    /// group is kept, and `next` is the order of the objects after it.
    pub(crate) fn ready(
        &mut self,
        next: &mut Order,
        stands: &Stands,
        order: &Order,
        lines: &[Move],
        event: Option<u64>,
    ) -> Verdict
        requires settled { AreSettled stands.now }
        requires ranked { AreRanked stands.now order.now }
        requires room { length stands.now ≤ self.old.room }
        requires next_room { length stands.now ≤ next.old.room }
        ensures answer { result ≡ verdict stands.now lines.now event }
        ensures moves { self.new ≡ record { moves = group_moves stands.now lines.now event; room = self.old.room } }
        ensures due { result ≡ Verdict.Legal → IsDue stands.now next.new (group_moves stands.now lines.now event) }
        ensures next_room { next.new.room ≡ next.old.room }
    {
        self.list.clear();
        self.sorted.clear();
        if lines.is_empty() && event.is_none() {
            return Verdict::Empty;
        }
        rest(&mut self.list, stands);
        let verdict = judge(
            next,
            &mut self.sorted,
            self.list.as_mut_slice(),
            stands,
            order,
            lines,
            event,
        );
        self.sorted.clear();
        if verdict != Verdict::Legal {
            self.list.clear();
            return verdict;
        }
        self.list.retain(|moved| moved.new != 0);
        number(&mut self.sorted, self.list.len());
        let moves = self.list.as_slice();
        self.sorted
            .sort_unstable_by_key(|place| move_at(moves, *place).old);
        verdict
    }
}

// A move for each object, to no place.
fn rest(list: &mut Vec<Moved>, stands: &Stands)
    requires empty { list.old.items ≡ [] }
    requires room { length stands.now ≤ vec_capacity list.old }
    ensures moves { list.new.items ≡ map resting stands.now }
    ensures capacity { vec_capacity list.old ≤ vec_capacity list.new }
{
    for place in 0..stands.len() {
        let stand = stands.at(place);
        let _ = list.push(Moved {
            old: stand.address,
            new: 0,
        });
    }
}

// The places from 0 on.
fn number(places: &mut Vec<u32>, count: usize)
    requires empty { places.old.items ≡ [] }
    requires room { count ≤ vec_capacity places.old }
    requires small { count < 2 ^ 32 }
    ensures places { places.new.items ≡ range_with_len 0 count }
    ensures capacity { vec_capacity places.old ≤ vec_capacity places.new }
{
    for place in 0..count {
        let _ = places.push(place as u32);
    }
}

// A move by its place.
fn move_at(moves: &[Moved], place: u32) -> Moved
    ensures { result ≡ move_at moves.now place }
{
    let place = place as usize;
    if place < moves.len() {
        moves[place]
    } else {
        Moved { old: 0, new: 0 }
    }
}

// The first of the moves from this address on.
fn first_from(moves: &[Moved], sorted: &[u32], old: u64) -> usize
    requires { IsNonDecreasingBy (λ move. move.old) (map (move_at moves.now) sorted.now) }
    ensures within { result ≤ length (map (move_at moves.now) sorted.now) }
    ensures below { (k : ℕ) → (d : Moved) → k < result → (slice_index_or (map (move_at moves.now) sorted.now) k d).old < old }
    ensures above { (k : ℕ) → (d : Moved) → result ≤ k → k < length (map (move_at moves.now) sorted.now) → old ≤ (slice_index_or (map (move_at moves.now) sorted.now) k d).old }
{
    let mut low = 0;
    let mut high = sorted.len();
    while low < high {
        let middle = low + (high - low) / 2;
        let moved = move_at(moves, sorted[middle]);
        if moved.old < old {
            low = middle + 1;
        } else {
            high = middle;
        }
    }
    low
}

/// The addresses after the moves, which stand in the order of the objects.
pub(crate) fn follow(addresses: &mut [u64], moves: &[Moved])
    ensures { addresses.new ≡ sent_on moves.now addresses.old }
{
    let mut next = 0;
    for address in addresses.iter_mut() {
        if next < moves.len() && moves[next].old == *address {
            *address = moves[next].new;
            next += 1;
        }
    }
}

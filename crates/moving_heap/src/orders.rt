//! Objects in the order of their addresses.

ghost use Rattle.std.specs.Prelude.{◌≡◌, ℕ, ◌+◌, ◌<◌, ◌≤◌, ◌++◌, ◌∷◌, [], Some, length, filter, slice_get, slice_index_or, vec_capacity, OnOk};
ghost use Rattle.std.specs.List.{All};
ghost use Rattle.std.specs.List.Sorted.{IsPermutation, IsNonDecreasingBy};
ghost use Rattle.moving_heap.specs.Places.{apart};
ghost use Rattle.moving_heap.specs.Orders.{targets_in, stays, stays_at, leaves_at, row, ranks, then_row, then_ranks, IsLow, IsHigh};
ghost use Rattle.moving_heap.specs.Settled.{AreRanked};
ghost use Rattle.moving_heap.specs.declared.stands.Stand.{Stand};

use crate::stands::{Moved, Stand, Stands, target_of, then_at};
use sp_ids::Memory;
use std::alloc::Global;
use std::marker::Model;

/// The places, from 0, of objects in the order of their addresses. Those that never moved end at or below 2^40, in the order
/// of their numbers; the others stand from 2^40 on. They are kept in two parts, the upper one first, so that a new object goes
/// to the end.
#[derive(Drop)]
pub(crate) struct Order {
    places: Vec<u32>,
    high: usize,
    room: usize,
}

impl Model for Order {
    ghost use Rattle.std.specs.Prelude.{◌≤◌, length, take, drop, vec_capacity};
    ghost use Rattle.moving_heap.specs.Orders.{Ordered};

    ghost Value = { Ordered };

    ghost view = { λ order. record { low = drop order.high order.places.items; high = take order.high order.places.items; room = order.room } };

    ghost invariant = { λ order. (order.high ≤ length order.places.items) × (order.room ≤ vec_capacity order.places) };
}

impl Order {
    /// No objects.
    pub(crate) fn new(alloc: Global) -> Order
        ensures { result ≡ record { low = []; high = []; room = 0 } }
    {
        Order {
            places: Vec::new(alloc),
            high: 0,
            room: 0,
        }
    }

    // Those that never moved, and the others.
    fn parts(&self) -> (&[u32], &[u32])
        ensures low { result.0.now ≡ self.now.low }
        ensures high { result.1.now ≡ self.now.high }
    {
        let places = self.places.as_slice();
        (&places[self.high..], &places[..self.high])
    }

    /// The object with this place in the order.
    pub(crate) fn at(&self, stands: &Stands, rank: usize) -> Stand
        requires { rank < length self.now.low + length self.now.high }
        ensures { slice_get (ranks stands.now self.now) rank ≡ Some result }
    {
        let (low, high) = self.parts();
        if rank < low.len() {
            stands.at(low[rank] as usize)
        } else {
            stands.at(high[rank - low.len()] as usize)
        }
    }

    /// How many stand at or before an address.
    #[cold]
    pub(crate) fn count_to(&self, stands: &Stands, word: u64) -> usize
        requires { AreRanked stands.now self.now }
        ensures within { result ≤ length (ranks stands.now self.now) }
        ensures below { (k : ℕ) → (d : Stand) → k < result → (slice_index_or (ranks stands.now self.now) k d).address ≤ word }
        ensures above { (k : ℕ) → (d : Stand) → result ≤ k → k < length (ranks stands.now self.now) → word < (slice_index_or (ranks stands.now self.now) k d).address }
    {
        let (low, high) = self.parts();
        if word < 1 << 40 {
            count_to(low, stands, word)
        } else {
            low.len() + count_to(high, stands, word)
        }
    }

    /// Whether no two of them overlap, each at its target.
    pub(crate) fn is_apart(&self, stands: &Stands, targets: &[Moved]) -> bool
        requires sorted { IsNonDecreasingBy (λ stand. stand.address) (then_ranks stands.now (targets_in targets.now) self.now) }
        requires sizes { All (λ stand. 0 < stand.size) (then_ranks stands.now (targets_in targets.now) self.now) }
        requires low { All IsLow (then_row stands.now (targets_in targets.now) self.now.low) }
        requires high { All IsHigh (then_row stands.now (targets_in targets.now) self.now.high) }
        ensures { result ≡ apart (then_ranks stands.now (targets_in targets.now) self.now) }
    {
        let (low, high) = self.parts();
        chained(low, stands, targets) && chained(high, stands, targets)
    }

    /// Room for so many objects.
    pub(crate) fn reserve(&mut self, count: usize) -> Result<(), Memory>
        ensures low { self.new.low ≡ self.old.low }
        ensures high { self.new.high ≡ self.old.high }
        ensures room { OnOk result (count ≤ self.new.room) }
        ensures grows { self.old.room ≤ self.new.room }
    {
        if count > self.room {
            self.places
                .reserve(count.saturating_sub(self.places.len()))?;
            self.room = count;
        }
        Ok(())
    }

    /// A further object, behind all that never moved.
    pub(crate) fn push(&mut self, place: u32)
        requires { length self.old.low + length self.old.high < self.old.room }
        ensures { self.new ≡ record { low = self.old.low ++ place ∷ []; high = self.old.high; room = self.old.room } }
    {
        let _ = self.places.push(place);
    }

    /// Adds those that have a target.
    pub(crate) fn gather(&self, leaving: &mut Vec<u32>, stands: &Stands, targets: &[Moved])
        requires { length leaving.old.items + length (filter (leaves_at stands.now (targets_in targets.now)) (self.now.low ++ self.now.high)) ≤ vec_capacity leaving.old }
        ensures leavers { leaving.new.items ≡ leaving.old.items ++ filter (leaves_at stands.now (targets_in targets.now)) (self.now.low ++ self.now.high) }
        ensures capacity { vec_capacity leaving.old ≤ vec_capacity leaving.new }
    {
        let (low, high) = self.parts();
        gather(leaving, low, stands, targets);
        gather(leaving, high, stands, targets);
    }

    /// Becomes the order of those objects that have no target, and of those that leave for theirs.
    pub(crate) fn fill(&mut self, from: &Order, leaving: &[u32], stands: &Stands, targets: &[Moved])
        requires room { length (filter (stays (targets_in targets.now)) (ranks stands.now from.now)) + length leaving.now ≤ self.old.room }
        requires ranked { AreRanked stands.now from.now }
        requires leaving_sorted { IsNonDecreasingBy (λ stand. stand.address) (then_row stands.now (targets_in targets.now) leaving.now) }
        requires leaving_high { All IsHigh (then_row stands.now (targets_in targets.now) leaving.now) }
        ensures same { IsPermutation (filter (stays (targets_in targets.now)) (ranks stands.now from.now) ++ then_row stands.now (targets_in targets.now) leaving.now) (then_ranks stands.now (targets_in targets.now) self.new) }
        ensures sorted { IsNonDecreasingBy (λ stand. stand.address) (then_ranks stands.now (targets_in targets.now) self.new) }
        ensures low { All IsLow (then_row stands.now (targets_in targets.now) self.new.low) }
        ensures high { All IsHigh (then_row stands.now (targets_in targets.now) self.new.high) }
        ensures room { self.new.room ≡ self.old.room }
    {
        self.places.clear();
        let (low, high) = from.parts();
        merge(&mut self.places, high, leaving, stands, targets);
        self.high = self.places.len();
        keep(&mut self.places, low, stands, targets);
    }
}

// How many of these stand at or before an address.
fn count_to(order: &[u32], stands: &Stands, word: u64) -> usize
    requires { IsNonDecreasingBy (λ stand. stand.address) (row stands.now order.now) }
    ensures within { result ≤ length (row stands.now order.now) }
    ensures below { (k : ℕ) → (d : Stand) → k < result → (slice_index_or (row stands.now order.now) k d).address ≤ word }
    ensures above { (k : ℕ) → (d : Stand) → result ≤ k → k < length (row stands.now order.now) → word < (slice_index_or (row stands.now order.now) k d).address }
{
    let mut low = 0;
    let mut high = order.len();
    while low < high {
        let middle = low + (high - low) / 2;
        let stand = stands.at(order[middle] as usize);
        if stand.address <= word {
            low = middle + 1;
        } else {
            high = middle;
        }
    }
    low
}

// Whether objects in the order of their addresses are apart, each at its target.
fn chained(order: &[u32], stands: &Stands, targets: &[Moved]) -> bool
    requires sorted { IsNonDecreasingBy (λ stand. stand.address) (then_row stands.now (targets_in targets.now) order.now) }
    requires sizes { All (λ stand. 0 < stand.size) (then_row stands.now (targets_in targets.now) order.now) }
    ensures { result ≡ apart (then_row stands.now (targets_in targets.now) order.now) }
{
    let mut before = Stand {
        number: 0,
        size: 0,
        address: 0,
    };
    for place in order {
        let here = then_at(stands, targets, *place);
        if u64::from(before.size) > here.address - before.address {
            return false;
        }
        before = here;
    }
    true
}

// Adds those that have a target.
fn gather(leaving: &mut Vec<u32>, run: &[u32], stands: &Stands, targets: &[Moved])
    requires { length leaving.old.items + length (filter (leaves_at stands.now (targets_in targets.now)) run.now) ≤ vec_capacity leaving.old }
    ensures leavers { leaving.new.items ≡ leaving.old.items ++ filter (leaves_at stands.now (targets_in targets.now)) run.now }
    ensures capacity { vec_capacity leaving.old ≤ vec_capacity leaving.new }
{
    for place in run {
        if target_of(targets, stands.at(*place as usize)).is_some() {
            let _ = leaving.push(*place);
        }
    }
}

// Adds those that have no target.
fn keep(next: &mut Vec<u32>, run: &[u32], stands: &Stands, targets: &[Moved])
    requires { length next.old.items + length (filter (stays_at stands.now (targets_in targets.now)) run.now) ≤ vec_capacity next.old }
    ensures stayers { next.new.items ≡ next.old.items ++ filter (stays_at stands.now (targets_in targets.now)) run.now }
    ensures capacity { vec_capacity next.old ≤ vec_capacity next.new }
{
    for place in run {
        if target_of(targets, stands.at(*place as usize)).is_none() {
            let _ = next.push(*place);
        }
    }
}

// Those of a run that have no target, and those that leave, together in the order of their addresses.
fn merge(next: &mut Vec<u32>, run: &[u32], leaving: &[u32], stands: &Stands, targets: &[Moved])
    requires empty { next.old.items ≡ [] }
    requires room { length (filter (stays (targets_in targets.now)) (row stands.now run.now)) + length leaving.now ≤ vec_capacity next.old }
    requires sorted { IsNonDecreasingBy (λ stand. stand.address) (row stands.now run.now) }
    requires leaving_sorted { IsNonDecreasingBy (λ stand. stand.address) (then_row stands.now (targets_in targets.now) leaving.now) }
    ensures same { IsPermutation (filter (stays (targets_in targets.now)) (row stands.now run.now) ++ then_row stands.now (targets_in targets.now) leaving.now) (then_row stands.now (targets_in targets.now) next.new.items) }
    ensures sorted { IsNonDecreasingBy (λ stand. stand.address) (then_row stands.now (targets_in targets.now) next.new.items) }
    ensures capacity { vec_capacity next.old ≤ vec_capacity next.new }
{
    let mut place = 0;
    let mut taken = 0;
    while place < run.len() {
        let stand = stands.at(run[place] as usize);
        if taken < leaving.len()
            && then_at(stands, targets, leaving[taken]).address < stand.address
        {
            let _ = next.push(leaving[taken]);
            taken += 1;
        } else {
            if target_of(targets, stand).is_none() {
                let _ = next.push(run[place]);
            }
            place += 1;
        }
    }
    while taken < leaving.len() {
        let _ = next.push(leaving[taken]);
        taken += 1;
    }
}

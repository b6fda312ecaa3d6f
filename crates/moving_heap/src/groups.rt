//! Groups of moves: their targets, and the verdict on them.

ghost use Rattle.std.specs.Prelude.{◌≡◌, ◌+◌, ◌<◌, ◌≤◌, ◌^◌, IsTrue, true, false, None, length, map, filter, ◌++◌, vec_capacity, ℕ, Option, ◌&&◌, ◌==◌};
ghost use Rattle.std.specs.List.{sum_by, list_all, All};
ghost use Rattle.std.specs.List.Sorted.{IsPermutation, IsNonDecreasingBy};
ghost use Rattle.std.specs.Option.{option_map_or};
ghost use Rattle.moving_heap.specs.Places.{line_targets, group_targets, exist, differ, all_fit, verdict, flipped, flipped_at, fits, moves_none, moved, is_legal, no_lines};
ghost use Rattle.moving_heap.specs.Orders.{targets_in, sent_by, leaves_at, ranks, then_row, then_ranks, resting, IsLow, IsHigh};
ghost use Rattle.moving_heap.specs.Settled.{IsNumbered, AreSettled, AreRanked};

use crate::orders::Order;
use crate::stands::{Moved, Stand, Stands, Verdict, target_in, then_at};
use move_plan::Move;

// Whether the target of an object is one.
fn fits(stand: Stand, to: u64) -> bool
    ensures { result ≡ fits stand to }
{
    to % 8 == 0 && to >= 1 << 40 && to <= 1 << 46 && u64::from(stand.size) <= (1 << 46) - to
}

// The targets by the move lines; none, where a line names no object, or one that another line names, or has 0 as its target.
fn name_targets(targets: &mut [Moved], stands: &Stands, lines: &[Move]) -> bool
    requires numbered { IsNumbered stands.now }
    requires resting { targets.old ≡ map resting stands.now }
    ensures answer { IsTrue result → (exist stands.now lines.now && differ lines.now) ≡ true }
    ensures named { IsTrue result → targets_in targets.new ≡ line_targets lines.now stands.now }
    ensures refused { result ≡ false → (event : Option ℕ) → is_legal stands.now lines.now (group_targets stands.now lines.now event) ≡ false }
    ensures lines { result ≡ false → no_lines lines.now ≡ false }
    ensures olds { map (λ move. move.old) targets.new ≡ map (λ move. move.old) targets.old }
{
    for line in lines {
        if line.obj == 0 || line.obj > stands.len() as u64 {
            return false;
        }
        let place = (line.obj - 1) as usize;
        if targets[place].new != 0 {
            return false;
        }
        if line.to == 0 {
            return false;
        }
        targets[place].new = line.to;
    }
    true
}

// A flip lays the others side by side.
fn flip(targets: &mut [Moved], stands: &Stands, start: u64)
    requires some { 0 < start }
    requires room { start + sum_by (λ stand. stand.size) stands.now < 2 ^ 64 }
    requires same { length targets.old ≡ length stands.now }
    ensures targets { targets_in targets.new ≡ flipped start stands.now (targets_in targets.old) }
    ensures olds { map (λ move. move.old) targets.new ≡ map (λ move. move.old) targets.old }
{
    let mut at = start;
    for place in 0..stands.len() {
        let stand = stands.at(place);
        if targets[place].new == 0 {
            targets[place].new = at;
            at += u64::from(stand.size);
        }
    }
}

// Whether all targets fit.
fn all_fit(targets: &[Moved], stands: &Stands) -> bool
    requires same { length targets.now ≡ length stands.now }
    ensures { result ≡ all_fit stands.now (targets_in targets.now) }
{
    for place in 0..stands.len() {
        let stand = stands.at(place);
        if !fits_or_stays(stand, target_in(targets[place])) {
            return false;
        }
    }
    true
}

fn fits_or_stays(stand: Stand, target: Option<u64>) -> bool
    ensures { result ≡ option_map_or (fits stand) target true }
{
    match target {
        None => true,
        Some(to) => fits(stand, to),
    }
}

// Whether no object moves.
fn moves_none(targets: &[Moved]) -> bool
    ensures { result ≡ moves_none (targets_in targets.now) }
{
    all_rest(targets)
}

fn all_rest(targets: &[Moved]) -> bool
    ensures { result ≡ list_all (λ move. move.new == 0) targets.now }
{
    targets.iter().all(|moved| moved.new == 0)
}

// The verdict on a group. Where it is legal, `targets` has its targets, and `next` the objects in the order of their new
// addresses.
pub(crate) fn judge(
    next: &mut Order,
    leaving: &mut Vec<u32>,
    targets: &mut [Moved],
    stands: &Stands,
    order: &Order,
    lines: &[Move],
    event: Option<u64>,
) -> Verdict
    requires settled { AreSettled stands.now }
    requires ranked { AreRanked stands.now order.now }
    requires resting { targets.old ≡ map resting stands.now }
    requires next_room { length stands.now ≤ next.old.room }
    requires leaving_room { length stands.now ≤ vec_capacity leaving.old }
    ensures answer { result ≡ verdict stands.now lines.now event }
    ensures targets { result ≡ Verdict.Legal → targets_in targets.new ≡ group_targets stands.now lines.now event }
    ensures olds { result ≡ Verdict.Legal → map (λ move. move.old) targets.new ≡ map (λ stand. stand.address) stands.now }
    ensures settled { result ≡ Verdict.Legal → AreSettled (moved stands.now (targets_in targets.new)) }
    ensures ranked { result ≡ Verdict.Legal → AreRanked (moved stands.now (targets_in targets.new)) next.new }
    ensures next_room { next.new.room ≡ next.old.room }
    ensures leaving_room { vec_capacity leaving.old ≤ vec_capacity leaving.new }
{
    if !name_targets(targets, stands, lines) {
        return Verdict::Illegal;
    }
    flip_at(targets, stands, event);
    if lines.is_empty() && moves_none(targets) {
        return Verdict::Empty;
    }
    if !all_fit(targets, stands) {
        return Verdict::Illegal;
    }
    arrange(next, leaving, stands, targets, order);
    if next.is_apart(stands, targets) {
        Verdict::Legal
    } else {
        Verdict::Illegal
    }
}

// The order of the objects when each stands at its target.
fn arrange(
    next: &mut Order,
    leaving: &mut Vec<u32>,
    stands: &Stands,
    targets: &[Moved],
    order: &Order,
)
    requires ranked { AreRanked stands.now order.now }
    requires high { All IsHigh (then_row stands.now (targets_in targets.now) (filter (leaves_at stands.now (targets_in targets.now)) (order.now.low ++ order.now.high))) }
    requires next_room { length (ranks stands.now order.now) ≤ next.old.room }
    requires leaving_room { length (ranks stands.now order.now) ≤ vec_capacity leaving.old }
    ensures same { IsPermutation (map (sent_by (targets_in targets.now)) (ranks stands.now order.now)) (then_ranks stands.now (targets_in targets.now) next.new) }
    ensures sorted { IsNonDecreasingBy (λ stand. stand.address) (then_ranks stands.now (targets_in targets.now) next.new) }
    ensures low { All IsLow (then_row stands.now (targets_in targets.now) next.new.low) }
    ensures high { All IsHigh (then_row stands.now (targets_in targets.now) next.new.high) }
    ensures next_room { next.new.room ≡ next.old.room }
    ensures leaving_room { vec_capacity leaving.old ≤ vec_capacity leaving.new }
{
    leaving.clear();
    order.gather(leaving, stands, targets);
    leaving.sort_unstable_by_key(|place| then_at(stands, targets, *place).address);
    next.fill(order, leaving.as_slice(), stands, targets);
}

// A flip, where the event has one.
fn flip_at(targets: &mut [Moved], stands: &Stands, event: Option<u64>)
    requires room { sum_by (λ stand. stand.size) stands.now ≤ 67108864 }
    requires same { length targets.old ≡ length stands.now }
    ensures targets { targets_in targets.new ≡ flipped_at event stands.now (targets_in targets.old) }
    ensures olds { map (λ move. move.old) targets.new ≡ map (λ move. move.old) targets.old }
{
    if let Some(event) = event {
        let start = if event % 2 == 0 { 1 << 45 } else { 1 << 44 };
        flip(targets, stands, start);
    }
}

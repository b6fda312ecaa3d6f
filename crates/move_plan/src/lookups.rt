//! The lines of an event, among lines whose events don't fall.

ghost use Rattle.std.specs.Prelude.{◌≡◌, ◌<◌, ◌≤◌, ◌==◌, length, filter, nat_lt, nat_le, true, false, slice_range, slice_get};
ghost use Rattle.std.specs.List.{All, filter_map, list_any};
ghost use Rattle.std.specs.List.Sorted.{IsNonDecreasing, IsNonDecreasingBy, IsPartitionPoint};
ghost use Rattle.move_plan.specs.PlanLines.{IsInRange};
ghost use Rattle.move_plan.specs.Plans.{IsPlan, event_of, flips, go};
ghost use Rattle.move_plan.specs.Tables.{flips_each, is_flip, task_of};

use crate::plan_lines::PlanLine;

// The lines of the event; those of 0 are the line `every`.
pub(crate) fn lines_of(plan: &[PlanLine], event: u64) -> &[PlanLine]
    requires { IsNonDecreasingBy event_of plan.now }
    ensures { result.now ≡ filter (λ line. event_of line == event) plan.now }
{
    between(plan, below(plan, event), up_to(plan, event))
}

// How many lines stand before those of the event.
fn below(plan: &[PlanLine], event: u64) -> usize
    requires { IsNonDecreasingBy event_of plan.now }
    ensures within { result ≤ length plan.now }
    ensures point { IsPartitionPoint (λ line. nat_lt (event_of line) event ≡ true) (λ line. nat_lt (event_of line) event ≡ false) plan.now result }
{
    plan.partition_point(|line| line.event() < event)
}

// How many lines these and those of the event are.
fn up_to(plan: &[PlanLine], event: u64) -> usize
    requires { IsNonDecreasingBy event_of plan.now }
    ensures within { result ≤ length plan.now }
    ensures point { IsPartitionPoint (λ line. nat_le (event_of line) event ≡ true) (λ line. nat_le (event_of line) event ≡ false) plan.now result }
{
    plan.partition_point(|line| line.event() <= event)
}

// The lines from one place to another.
pub(crate) fn between<T>(xs: &[T], from: usize, to: usize) -> &[T]
    requires order { from ≤ to }
    requires within { to ≤ length xs.now }
    ensures { result.now ≡ slice_range xs.now from to }
{
    &xs[from..to]
}

// The task that the event's `go` line names.
pub(crate) fn task_of(plan: &[PlanLine], event: u64) -> Option<u64>
    requires { IsNonDecreasingBy event_of plan.now }
    ensures { result ≡ go plan.now event }
{
    first_task(lines_of(plan, event))
}

// The task that the first `go` line names.
fn first_task(plan: &[PlanLine]) -> Option<u64>
    ensures { result ≡ slice_get (filter_map task_of plan.now) 0 }
{
    for line in plan {
        if let Some(task) = line.task() {
            return Some(task);
        }
    }
    None
}

// Whether the event flips.
pub(crate) fn flips(plan: &[PlanLine], event: u64) -> bool
    requires { IsPlan plan.now }
    ensures { result ≡ flips plan.now event }
{
    flips_each(plan, event) || has_flip(lines_of(plan, event))
}

// Whether the event flips by the line `every`.
fn flips_each(plan: &[PlanLine], event: u64) -> bool
    requires { All IsInRange plan.now }
    ensures { result ≡ flips_each plan.now event }
{
    match plan.first() {
        Some(PlanLine::Every(period)) => event % *period == 0,
        _ => false,
    }
}

fn has_flip(plan: &[PlanLine]) -> bool
    ensures { result ≡ list_any is_flip plan.now }
{
    plan.iter().any(|line| line.is_flip())
}

// How many events stand before this one.
pub(crate) fn events_below(events: &[u64], event: u64) -> usize
    requires { IsNonDecreasing events.now }
    ensures within { result ≤ length events.now }
    ensures point { IsPartitionPoint (λ at. nat_lt at event ≡ true) (λ at. nat_lt at event ≡ false) events.now result }
{
    events.partition_point(|at| *at < event)
}

// How many events stand up to this one.
pub(crate) fn events_up_to(events: &[u64], event: u64) -> usize
    requires { IsNonDecreasing events.now }
    ensures within { result ≤ length events.now }
    ensures point { IsPartitionPoint (λ at. nat_le at event ≡ true) (λ at. nat_le at event ≡ false) events.now result }
{
    events.partition_point(|at| *at <= event)
}

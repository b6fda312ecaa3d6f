//! The lines of a plan's text.

ghost use Rattle.std.specs.Prelude.{◌≡◌, ◌≤◌, ◌<◌, ◌-◌, length, slice_get, IfOk, IfErr, OnOk};
ghost use Rattle.std.specs.Option.{option_map_or};
ghost use Rattle.move_plan.specs.Plans.{IsPlan, IsPlanOf, event_of};
ghost use Rattle.move_plan.specs.PlanFaults.{HasNoFault, IsFaultOf};
ghost use Rattle.move_plan.specs.Steps.{StopsAt, TakesLine, fault_behind, is_late, is_second_go, last_event};

use crate::faults::PlanFault;
use crate::lookups::task_of;
use crate::plan_lines::{PlanLine, reading};
use sp_ids::limits::{FILE_BYTES, PLAN_LINES};
use sp_text::{Line, Lines};
use std::alloc::Global;

// The plan's lines, or the text's least fault.
pub(crate) fn plan_lines(alloc: Global, text: &[u8]) -> Result<Vec<PlanLine>, PlanFault>
    requires { length text.now ≤ FILE_BYTES }
    ensures plan { IfOk result (λ plan. IsPlanOf text.now plan.items) }
    ensures kept { IfOk result (λ plan. IsPlan plan.items) }
    ensures faultless { OnOk result (HasNoFault text.now) }
    ensures fault { IfErr result (IsFaultOf text.now) }
{
    let mut lines = Lines::of(text);
    let mut plan = Vec::new(alloc);
    while let Some(line) = lines.next_line() {
        take_line(&mut plan, line)?;
    }
    Ok(plan)
}

// Reads one more line behind those of a plan.
fn take_line(plan: &mut Vec<PlanLine>, line: Line<'_>) -> Result<(), PlanFault>
    requires { IsPlan plan.old.items }
    ensures ok { OnOk result (TakesLine plan.old.items line.entry.number line.entry.bytes.now plan.new.items) }
    ensures err { IfErr result (StopsAt plan.old.items line.entry.number line.entry.bytes.now) }
{
    let Some(reading) = reading(line.bytes) else {
        return Err(PlanFault::Syntax { line: line.number });
    };
    if let Some(what) = &reading {
        if let Some(fault) = fault_behind(plan, what, line.number) {
            return Err(fault);
        }
    }
    if line.number > PLAN_LINES {
        return Err(PlanFault::Limit { line: line.number });
    }
    if let Some(what) = reading {
        plan.push(what)?;
    }
    Ok(())
}

// The fault of a line that says this behind those of a plan, if it has one.
fn fault_behind(plan: &[PlanLine], what: &PlanLine, line: u32) -> Option<PlanFault>
    requires { IsPlan plan.now }
    ensures { result ≡ fault_behind plan.now what.now line }
{
    if is_late(plan, what) {
        Some(PlanFault::Order { line })
    } else if is_second_go(plan, what) {
        Some(PlanFault::TwoGo { line })
    } else {
        None
    }
}

// Whether the line is out of order. Events don't fall, so the last one is the greatest.
fn is_late(plan: &[PlanLine], what: &PlanLine) -> bool
    ensures { result ≡ is_late plan.now what.now }
{
    match what {
        PlanLine::Every(_) => !plan.is_empty(),
        _ => what.event() < last_event(plan),
    }
}

// The event of the last line, and 0 where there is none.
fn last_event(plan: &[PlanLine]) -> u64
    ensures { result ≡ last_event plan.now }
{
    match plan.last() {
        Some(line) => line.event(),
        None => 0,
    }
}

// Whether the line is the second `go` line of its event.
fn is_second_go(plan: &[PlanLine], what: &PlanLine) -> bool
    requires { IsPlan plan.now }
    ensures { result ≡ is_second_go plan.now what.now }
{
    match what {
        PlanLine::Go { event, .. } => task_of(plan, *event).is_some(),
        _ => false,
    }
}

//! Plans, and what they say of an event.

ghost use Rattle.std.specs.Prelude.{◌≡◌, ◌<◌, ◌≤◌, ◌↔◌, [], length, slice_get, IfOk, IfErr, OnOk, IsTrue, Some};
ghost use Rattle.std.specs.List.{filter_map};
ghost use Rattle.move_plan.specs.Tables.{move_of, moved_at};

use crate::faults::PlanFault;
use crate::lookups::{between, events_below, events_up_to, flips, task_of};
use crate::plan_lines::{Move, PlanLine};
use crate::reader::plan_lines;
use sp_ids::limits::FILE_BYTES;
use std::alloc::{AllocError, Global};
use std::marker::Model;

/// Which objects move when, which events flip, and which task goes on: the lines of a plan, in order.
#[derive(Drop)]
pub struct Plan {
    lines: Vec<PlanLine>,
    moves: Vec<Move>,
    events: Vec<u64>,
}

impl Model for Plan {
    ghost use Rattle.std.specs.Prelude.{List};
    ghost use Rattle.move_plan.specs.declared.plan_lines.PlanLine.{PlanLine};
    ghost use Rattle.move_plan.specs.Tables.{AreTables};

    ghost Value = { List PlanLine };

    ghost view = { λ plan. plan.lines.items };

    ghost invariant = { λ plan. AreTables plan.lines.items plan.moves.items plan.events.items };
}

impl Plan {
    ghost use Rattle.move_plan.specs.Plans.{IsPlan, IsPlanOf, flips, go, group};
    ghost use Rattle.move_plan.specs.PlanFaults.{HasNoFault, IsFaultOf};
    ghost use Rattle.move_plan.specs.declared.faults.PlanFault.TheVariants as faults;

    /// The plan that a text of at most [`FILE_BYTES`] bytes stands for, or its least fault. [`PlanFault::Memory`] says
    /// nothing of the text.
    pub fn read(alloc: Global, text: &[u8]) -> Result<Plan, PlanFault>
        requires { length text.now ≤ FILE_BYTES }
        ensures plan { IfOk result (λ plan. IsPlanOf text.now plan) }
        ensures in_order { IfOk result IsPlan }
        ensures faultless { OnOk result (HasNoFault text.now) }
        ensures fault { IfErr result (IsFaultOf text.now) }
    {
        Plan::of(alloc, plan_lines(alloc, text)?)
    }

    // The plan of these lines.
    fn of(alloc: Global, lines: Vec<PlanLine>) -> Result<Plan, PlanFault>
        requires { IsPlan lines.items }
        ensures plan { IfOk result (λ plan. plan ≡ lines.items) }
        ensures memory { IfErr result (λ fault. fault ≡ faults.Memory) }
    {
        let moves = moves_of(alloc, &lines)?;
        let events = move_events(alloc, &lines)?;
        Ok(Plan {
            lines,
            moves,
            events,
        })
    }

    /// How many lines the plan has, blank ones not counted.
    pub fn len(&self) -> u32
        ensures { result ≡ length self.now }
    {
        self.lines.len() as u32
    }

    /// Whether the plan says nothing.
    pub fn is_empty(&self) -> bool
        ensures { IsTrue result ↔ (self.now ≡ []) }
    {
        self.lines.is_empty()
    }

    /// The plan's line at a place, counted from 0.
    pub fn line(&self, index: u32) -> PlanLine
        requires { index < length self.now }
        ensures { slice_get self.now index ≡ Some result }
    {
        self.lines[index as usize]
    }

    /// The moves of the event's lines, in the order of the lines. It looks at no other event's lines.
    pub fn group(&self, event: u64) -> &[Move]
        ensures { result.now ≡ group self.now event }
    {
        let events = self.events.as_slice();
        let from = events_below(events, event);
        let to = events_up_to(events, event);
        between(self.moves.as_slice(), from, to)
    }

    /// The task that the event's `go` line names. `None` exactly where it has no such line.
    pub fn go(&self, event: u64) -> Option<u64>
        ensures { result ≡ go self.now event }
    {
        task_of(self.lines.as_slice(), event)
    }

    /// Whether the event flips, by a line of its own or as a multiple of the plan's period.
    pub fn flips(&self, event: u64) -> bool
        ensures { result ≡ flips self.now event }
    {
        flips(self.lines.as_slice(), event)
    }
}

// The moves of the move lines.
fn moves_of(alloc: Global, lines: &[PlanLine]) -> Result<Vec<Move>, AllocError>
    ensures { IfOk result (λ moves. moves.items ≡ filter_map move_of lines.now) }
{
    lines.iter().filter_map(|line| line.moved()).collect(alloc)
}

// The events of the move lines.
fn move_events(alloc: Global, lines: &[PlanLine]) -> Result<Vec<u64>, AllocError>
    ensures { IfOk result (λ events. events.items ≡ filter_map moved_at lines.now) }
{
    lines
        .iter()
        .filter_map(|line| line.moved_at())
        .collect(alloc)
}

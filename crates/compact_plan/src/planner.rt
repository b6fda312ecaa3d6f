//! The lines of the plan that compacts.

ghost use Rattle.std.specs.Prelude.{◌≡◌, ◌+◌, ◌*◌, ◌<◌, ◌≤◌, ◌%◌, length, IfOk, IfErr, ◌++◌, filter};
ghost use Rattle.std.specs.List.{All, sum_by};
ghost use Rattle.compact_plan.specs.Compacting.{compacted, front_lines, is_front, is_later, later_lines, move_count, packing};
ghost use Rattle.move_plan.specs.Plans.{event_of};
ghost use Rattle.made_objects.specs.Packed.{ArePacked};
ghost use Rattle.compact_plan.specs.declared.planner.CompactFault.TheVariants.{TooLong};

use made_objects::Made;
use move_plan::{Plan, PlanLine};
use std::alloc::{AllocError, Global};

/// How many lines a plan has at most.
const MOST_LINES: usize = 262_144;

/// Where the first of the objects goes.
const FIRST_ADDRESS: u64 = 1_099_511_627_776;

/// Why there is no plan.
#[derive(Clone, Copy, Debug, PartialEq, Eq)]
pub enum CompactFault {
    /// It would have more lines than a plan may have, 262,144.
    TooLong,
    /// There was no memory for it.
    Memory,
}

impl From<AllocError> for CompactFault {
    ghost use Rattle.std.specs.Prelude.{◌≡◌};
    ghost use Rattle.compact_plan.specs.declared.planner.CompactFault.TheVariants as faults;

    ghost from_gives = { λ _ fault. fault ≡ faults.Memory };

    fn from(_error: AllocError) -> CompactFault {
        CompactFault::Memory
    }
}

/// The lines of a plan that lays the objects which were made before an event side by side at that event: those of the given plan,
/// but for its moves at the event, and behind its last line up to the event one move for each of these objects, by number, to
/// 2^40 and the footprints of those before it.
///
/// # Errors
///
/// [`CompactFault::TooLong`] exactly where these are more than 262,144 lines, and memory was there to tell.
#[tactic(auto, using(crate::proofs::PackLemmas::compacted_length))]
pub fn compact(
    alloc: Global,
    plan: &Plan,
    made: &[Made],
    event: u64,
) -> Result<Vec<PlanLine>, CompactFault>
    requires { ArePacked made.now }
    ensures lines { IfOk result (λ lines. lines.items ≡ compacted plan.now made.now event) }
    ensures few { IfOk result (λ lines. length lines.items ≤ 262144) }
    ensures too_long { IfErr result (λ fault. fault ≡ TooLong → 262144 < length (compacted plan.now made.now event)) }
{
    let mut lines = front(alloc, plan, event)?;
    let mut behind = later(alloc, plan, event)?;
    if lines.len() + count_moves(made, event) + behind.len() > MOST_LINES {
        return Err(CompactFault::TooLong);
    }
    push_moves(&mut lines, made, event)?;
    lines.append(&mut behind)?;
    Ok(lines)
}

// The plan's lines up to the event, without the event's moves.
fn front(alloc: Global, plan: &Plan, event: u64) -> Result<Vec<PlanLine>, AllocError>
    ensures { IfOk result (λ lines. lines.items ≡ front_lines plan.now event) }
{
    let mut lines = Vec::new(alloc);
    for index in 0..plan.len() {
        let line = plan.line(index);
        if is_front(&line, event) {
            lines.push(line)?;
        }
    }
    Ok(lines)
}

// The plan's lines behind the event.
fn later(alloc: Global, plan: &Plan, event: u64) -> Result<Vec<PlanLine>, AllocError>
    ensures { IfOk result (λ lines. lines.items ≡ later_lines plan.now event) }
{
    let mut lines = Vec::new(alloc);
    for index in 0..plan.len() {
        let line = plan.line(index);
        if is_later(&line, event) {
            lines.push(line)?;
        }
    }
    Ok(lines)
}

// The event of an `at` line; an `every` line stands before all events.
fn event_of(line: &PlanLine) -> u64
    ensures { result ≡ event_of line.now }
{
    match line {
        PlanLine::Every(_) => 0,
        PlanLine::Move { event, .. } | PlanLine::Flip(event) | PlanLine::Go { event, .. } => *event,
    }
}

// Whether a line stands up to the event and is no move of it.
fn is_front(line: &PlanLine, event: u64) -> bool
    ensures { result ≡ is_front event line.now }
{
    match line {
        PlanLine::Move { event: own, .. } => *own < event,
        _ => event_of(line) <= event,
    }
}

// Whether a line stands behind the event.
fn is_later(line: &PlanLine, event: u64) -> bool
    ensures { result ≡ is_later event line.now }
{
    event_of(line) > event
}

// How many objects were made before the event.
fn count_moves(made: &[Made], event: u64) -> usize
    ensures { result ≡ move_count made.now event }
{
    made.iter().filter(|one| one.event < event).count()
}

// A move for each object that was made before the event.
fn push_moves(lines: &mut Vec<PlanLine>, made: &[Made], event: u64) -> Result<(), AllocError>
    requires { ArePacked made.now }
    ensures { IfOk result (λ _. lines.new.items ≡ lines.old.items ++ packing made.now event) }
{
    let mut to = FIRST_ADDRESS;
    for (index, one) in made.iter().enumerate() {
        if one.event < event {
            lines.push(PlanLine::Move {
                event,
                obj: index as u64 + 1,
                to,
            })?;
            to += one.footprint;
        }
    }
    Ok(())
}

//! What is found in a plan or an input, as a line of text.

ghost use Rattle.std.specs.Prelude.{◌≤◌, length};
ghost use Rattle.sp_ids.specs.declared.limits.TheConstants.{FILE_BYTES};

use crate::cases::{OfInput, OfPlan};
use move_plan::{Move, Plan, PlanLine, read_input};
use std::alloc::{AllocError, Global};

pub(crate) fn found_in_plan(alloc: Global, asked: OfPlan, text: &[u8]) -> Result<String, AllocError>
    requires { length text.now ≤ FILE_BYTES }
{
    match Plan::read(alloc, text) {
        Ok(plan) => found_in(alloc, asked, &plan),
        Err(fault) => format!(in alloc; "{fault}"),
    }
}

fn found_in(alloc: Global, asked: OfPlan, plan: &Plan) -> Result<String, AllocError> {
    match asked {
        OfPlan::Lines => shown_lines(alloc, plan),
        OfPlan::Count => {
            let count = plan.len();
            format!(in alloc; "{count}")
        }
        OfPlan::Group(event) => shown_moves(alloc, plan.group(event)),
        OfPlan::Go(event) => match plan.go(event) {
            Some(task) => format!(in alloc; "{task}"),
            None => String::from_str(alloc, "none"),
        },
        OfPlan::Flips(event) => {
            let flips = if plan.flips(event) { "yes" } else { "no" };
            String::from_str(alloc, flips)
        }
    }
}

// The lines with `; ` between them.
fn shown_lines(alloc: Global, plan: &Plan) -> Result<String, AllocError> {
    let mut shown = String::new(alloc);
    for index in 0..plan.len() {
        if index > 0 {
            shown.push_str("; ")?;
        }
        push_line(&mut shown, plan.line(index))?;
    }
    Ok(shown)
}

fn push_line(shown: &mut String, line: PlanLine) -> Result<(), AllocError> {
    match line {
        PlanLine::Every(period) => write!(shown, "every {period} flip"),
        PlanLine::Move { event, obj, to } => write!(shown, "at {event} move {obj} to {to}"),
        PlanLine::Flip(event) => write!(shown, "at {event} flip"),
        PlanLine::Go { event, task } => write!(shown, "at {event} go {task}"),
    }
}

// The moves with a space between them.
fn shown_moves(alloc: Global, moves: &[Move]) -> Result<String, AllocError> {
    let mut shown = String::new(alloc);
    for one in moves {
        if !shown.is_empty() {
            shown.push_str(" ")?;
        }
        let obj = one.obj;
        let to = one.to;
        write!(shown, "{obj}:{to}")?;
    }
    Ok(shown)
}

pub(crate) fn found_in_input(
    alloc: Global,
    asked: OfInput,
    text: &[u8],
) -> Result<String, AllocError>
    requires { length text.now ≤ FILE_BYTES }
{
    match read_input(alloc, text) {
        Ok(numbers) => match asked {
            OfInput::Numbers => shown_numbers(alloc, &numbers),
            OfInput::Count => {
                let count = numbers.len();
                format!(in alloc; "{count}")
            }
        },
        Err(fault) => format!(in alloc; "{fault}"),
    }
}

// The numbers with a space between them.
fn shown_numbers(alloc: Global, numbers: &[i64]) -> Result<String, AllocError> {
    let mut shown = String::new(alloc);
    for number in numbers {
        if !shown.is_empty() {
            shown.push_str(" ")?;
        }
        write!(shown, "{number}")?;
    }
    Ok(shown)
}

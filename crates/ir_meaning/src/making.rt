//! The objects that a run makes, each with the event at which it is made.

ghost use Rattle.std.specs.Prelude.{◌≡◌, ◌++◌, IfOk, OnOk};
ghost use Rattle.move_plan.specs.Plans.{go};
ghost use Rattle.flat_code.specs.Codes.{IsReadyModule};
ghost use Rattle.made_objects.specs.Packed.{ArePacked};
ghost use Rattle.object_store.specs.Stored.{bytes_taken};
ghost use Rattle.ir_meaning.specs.Machines.{state_of, today};
ghost use Rattle.ir_meaning.specs.Makings.{IsMakingRun, MakesFrom, lines_after, newly};
ghost use Rattle.ir_meaning.specs.References.{unprinted};

use crate::interpret::{how_ran, opened};
use crate::machine::Machine;
use flat_code::Code;
use ir_ast::Module;
use made_objects::Made;
use move_plan::Plan;
use run_tasks::{Did, Ran, ended};
use sp_ids::Memory;
use std::alloc::{AllocError, Global};

/// Runs `@main` as [`reference`](crate::reference) does, and writes nothing: how the run ended, and each object that it made, by
/// number, with the event at which it was made and its footprint. A new object that traps is an event without an object.
pub fn made(
    alloc: Global,
    module: &Module,
    input: &[i64],
    plan: &Plan,
    steps: u64,
) -> Result<(Ran, Vec<Made>), Memory>
    requires { IsReadyModule «module».now.content }
    ensures made { IfOk result (λ given. IsMakingRun «module».now.content input.now (go plan.now) steps given.0 given.1.items) }
    ensures packed { IfOk result (λ given. ArePacked given.1.items) }
{
    let code = Code::of(alloc, module)?;
    let mut machine = opened(alloc, &code, input)?;
    follow(alloc, &code, &mut machine, plan, steps)
}

// Runs to the end, and looks at the objects behind each turn.
fn follow(
    alloc: Global,
    code: &Code,
    machine: &mut Machine,
    plan: &Plan,
    bound: u64,
) -> Result<(Ran, Vec<Made>), Memory>
    requires { machine.old.objects.layouts ≡ code.now.content.layouts }
    ensures { IfOk result (λ given. MakesFrom (today code.now plan.now bound) (unprinted (state_of code.now machine.old)) given.0 given.1.items) }
{
    let mut made = Vec::new(alloc);
    let mut lines = 0u64;
    for _ in 0..u64::MAX {
        let before = machine.objects.bytes();
        let did = machine.turn(code, plan, bound)?;
        if let Some(end) = ended(did) {
            return Ok((how_ran(end, machine, lines), made));
        }
        note(&mut made, machine, before)?;
        let more = lines_after(did, lines);
        lines = more;
    }
    Err(Memory)
}

// The object that came since all objects took so many bytes, if one did.
fn note(made: &mut Vec<Made>, machine: &Machine, before: u64) -> Result<(), AllocError>
    ensures { OnOk result (made.new.items ≡ made.old.items ++ newly machine.now.events before (bytes_taken machine.now.objects.layouts machine.now.objects.objects)) }
{
    let now = machine.objects.bytes();
    if before < now {
        made.push(Made {
            event: machine.events,
            footprint: now - before,
        })?;
    }
    Ok(())
}

// How many lines were printed, behind a turn that did this.
fn lines_after(did: Did, lines: u64) -> u64
    ensures { result ≡ lines_after did lines }
{
    match did {
        Did::Prints(_) => lines.saturating_add(1),
        _ => lines,
    }
}
